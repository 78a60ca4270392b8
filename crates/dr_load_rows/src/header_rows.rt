//! Headers with one byte changed.

use crate::loads::{GOOD, is_refused, load};
use crate::streams::{EMPTY, stream};
use dr_io::Port;
use dr_types::{Status, StreamFault};
use std::alloc::{AllocError, Global};
use std::test::Fail;

/// The smallest stream with the high bit of one byte turned.
fn turned(alloc: Global, at: usize) -> Result<Vec<u8>, AllocError> {
    let mut bytes = stream(alloc, EMPTY)?;
    if let Some(byte) = bytes.as_mut_slice().get_mut(at) {
        *byte ^= 0x80;
    }
    Ok(bytes)
}

/// Each byte of the header but the first of the number of pages, and what it is refused for.
const ROWS: &[(usize, StreamFault)] = &[
    (0, StreamFault::Magic),
    (1, StreamFault::Magic),
    (2, StreamFault::Magic),
    (3, StreamFault::Magic),
    (4, StreamFault::Magic),
    (5, StreamFault::Magic),
    (6, StreamFault::Magic),
    (7, StreamFault::Magic),
    (8, StreamFault::Version { said: 0x81 }),
    (9, StreamFault::Version { said: 0x8001 }),
    (10, StreamFault::Version { said: 0x80_0001 }),
    (11, StreamFault::Version { said: 0x8000_0001 }),
    (13, StreamFault::Pages { said: 0x8001 }),
    (14, StreamFault::Pages { said: 0x80_0001 }),
    (15, StreamFault::Pages { said: 0x8000_0001 }),
];

#[test]
fn each_byte_of_the_header_counts(rt: HostRuntime) -> Result<(), Fail> {
    for &(at, fault) in ROWS {
        let bytes = turned(rt.alloc(), at)?;
        assert!(rt;
            is_refused(rt.alloc(), bytes.as_slice(), fault)?,
            "byte {at}"
        );
    }
    Ok(())
}

/// With 129 pages in place of 1 it is another stream.
#[test]
fn the_number_of_pages_counts(rt: HostRuntime) -> Result<(), Fail> {
    let bytes = turned(rt.alloc(), 12)?;
    let end = load(rt.alloc(), bytes.as_slice(), &GOOD)?;
    assert!(rt; end.status == Some(Status::Done));
    assert!(rt; end.out.bytes(Port::Image).len() == 129 * 4096);
    Ok(())
}
