ghost use Rattle.std.specs.Prelude.{◌≡◌};

use dr_types::StreamFault;
use dr_types::limits::MOST_PAGES;
use std::fmt;

/// What a stream begins with.
const MAGIC: &[u8] = b"DRSTREAM";

/// How many bytes the header has.
const HEADER_BYTES: u64 = 16;

/// A byte that is another than it has to be.
#[derive(Clone, Copy, Debug, PartialEq, Eq)]
pub struct OtherByte {
    pub at: u64,
    pub found: u8,
    pub wanted: u8,
}

/// The first byte that is another than a stream's.
pub fn other_byte(bytes: &[u8]) -> Option<OtherByte> {
    for at in 0..MAGIC.len() {
        match (bytes.get(at), MAGIC.get(at)) {
            (Some(found), Some(wanted)) if *found != *wanted => {
                return Some(OtherByte {
                    at: at as u64,
                    found: *found,
                    wanted: *wanted,
                });
            }
            _ => {}
        }
    }
    None
}

/// Writes which byte is another.
fn write_other<W: fmt::Write>(f: &mut fmt::Formatter<W>, other: OtherByte) -> fmt::Result {
    let OtherByte { at, found, wanted } = other;
    write!(
        f,
        "byte {at} is {found:02x} in place of {wanted:02x}: \
         a stream begins with the 8 bytes DRSTREAM"
    )
}

/// Writes that the header is cut.
fn write_cut<W: fmt::Write>(f: &mut fmt::Formatter<W>, len: u64) -> fmt::Result {
    if len == 0 {
        f.write_str("byte 0: the stream is empty, and has to begin with a header of 16 bytes")
    } else {
        write!(
            f,
            "byte {len}: the stream ends inside its header, after {len} of {HEADER_BYTES} bytes"
        )
    }
}

/// Writes what is wrong with a header.
pub fn write_header<W: fmt::Write>(
    f: &mut fmt::Formatter<W>,
    fault: StreamFault,
    other: Option<OtherByte>,
) -> fmt::Result {
    match (fault, other) {
        (StreamFault::Magic, Some(other)) => write_other(f, other),
        (StreamFault::Version { said }, _) => {
            write!(f, "byte 8: the version is {said}, and may be 1 or 2")
        }
        (StreamFault::Pages { said }, _) => {
            write!(
                f,
                "byte 12: the number of pages is {said}, and may be 1 to {MOST_PAGES}"
            )
        }
        (StreamFault::Cut { at }, _) => write_cut(f, at),
        _ => write!(f, "{fault}"),
    }
}
