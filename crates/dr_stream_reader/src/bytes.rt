ghost use Rattle.std.specs.Prelude.{◌≡◌, ◌≤◌, ◌+◌, length, drop, take};
ghost use Rattle.dr_stream_law.specs.Faults.{number_at};

use byteorder::{ByteOrder, LittleEndian};

/// The bytes from a place on.
pub(crate) fn left(bytes: &[u8], at: usize) -> &[u8]
    requires { at ≤ length bytes.now }
    ensures { result.now ≡ drop at bytes.now }
{
    &bytes[at..]
}

/// The number in the first four bytes, the least byte first.
fn first_number(bytes: &[u8]) -> u32
    requires { 4 ≤ length bytes.now }
    ensures { result ≡ number_at 0 bytes.now }
{
    LittleEndian::read_u32(bytes)
}

/// The number in the four bytes from a place on.
pub(crate) fn number_at(bytes: &[u8], at: usize) -> u32
    requires { at + 4 ≤ length bytes.now }
    ensures { result ≡ number_at at bytes.now }
{
    first_number(left(bytes, at))
}

/// The bytes of the page in the record that these begin with.
pub(crate) fn page_in(bytes: &[u8]) -> &[u8]
    requires { 4104 ≤ length bytes.now }
    ensures { result.now ≡ take 4096 (drop 8 bytes.now) }
{
    &bytes[8..4104]
}
