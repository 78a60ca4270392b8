ghost use Rattle.std.specs.Prelude.{◌≡◌, length};
ghost use Rattle.dr_stream_explain.specs.Found.{number_found};

use byteorder::{ByteOrder, LittleEndian};

/// What is there from the place on where a record begins.
#[derive(Clone, Copy, Debug, PartialEq, Eq)]
pub struct Found {
    /// How many bytes.
    pub left: u64,
    /// The record's kind, where its bytes are all there.
    pub kind: Option<u32>,
    /// The number after the kind.
    pub number: Option<u32>,
    /// The number after that, which is a count in a record of zeros.
    pub count: Option<u32>,
}

/// The number in the four bytes from a place on, where they are all there.
fn number_found(bytes: &[u8], at: usize) -> Option<u32>
    ensures { result ≡ number_found at bytes.now }
{
    if at <= bytes.len() && 4 <= bytes.len() - at {
        Some(LittleEndian::read_u32(&bytes[at..]))
    } else {
        None
    }
}

impl Found {
    /// What these bytes begin with.
    pub fn in_front_of(bytes: &[u8]) -> Found
        ensures left { result.left ≡ length bytes.now }
        ensures kind { result.kind ≡ number_found 0 bytes.now }
        ensures number { result.number ≡ number_found 4 bytes.now }
        ensures count { result.count ≡ number_found 8 bytes.now }
    {
        Found {
            left: bytes.len() as u64,
            kind: number_found(bytes, 0),
            number: number_found(bytes, 4),
            count: number_found(bytes, 8),
        }
    }
}
