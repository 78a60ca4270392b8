//! Streams that are cut, and one with a byte more.

use crate::loads::is_refused;
use crate::streams::{EMPTY, PAINTED, Piece, ZERO, stream};
use dr_types::StreamFault;
use std::alloc::{AllocError, Global};
use std::test::Fail;

/// The first bytes of a stream are refused as cut.
fn is_cut(alloc: Global, bytes: &[u8], len: usize) -> Result<bool, AllocError> {
    let front = bytes.get(..len).unwrap_or(&[]);
    is_refused(alloc, front, StreamFault::Cut { at: len as u64 })
}

/// The lengths at which a stream may be cut: each that lies in no page, and some that do.
fn is_tried(len: usize) -> bool {
    len % 4104 < 60 || len % 512 == 0
}

/// The first length at which the cut stream isn't refused as cut.
fn first_uncut(alloc: Global, pieces: &[Piece]) -> Result<Option<usize>, AllocError> {
    let bytes = stream(alloc, pieces)?;
    for len in 0..bytes.len() {
        if is_tried(len) && !is_cut(alloc, bytes.as_slice(), len)? {
            return Ok(Some(len));
        }
    }
    Ok(None)
}

#[test]
fn a_cut_stream_is_refused_at_its_length(rt: HostRuntime) -> Result<(), Fail> {
    for pieces in [EMPTY, ZERO, PAINTED] {
        assert_eq!(rt; first_uncut(rt.alloc(), pieces)?, None);
    }
    Ok(())
}

#[test]
fn nothing_may_follow_the_end(rt: HostRuntime) -> Result<(), Fail> {
    for (pieces, at) in [(EMPTY, 24), (ZERO, 44)] {
        let mut bytes = stream(rt.alloc(), pieces)?;
        bytes.push(0)?;
        let fault = StreamFault::After { at };
        assert!(rt; is_refused(rt.alloc(), bytes.as_slice(), fault)?);
    }
    Ok(())
}
