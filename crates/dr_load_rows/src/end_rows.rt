//! Reads and puts that fail.

use crate::loads::{Feed, GOOD, is_unput, load};
use crate::streams::{EMPTY, PAINTED, ZERO, stream};
use dr_io::{Port, PortBook};
use dr_types::Status;
use std::alloc::{AllocError, Global};
use std::test::Fail;

/// How long image and report are, which alone are put.
fn lengths(out: &PortBook) -> (usize, usize) {
    (out.bytes(Port::Image).len(), out.bytes(Port::Report).len())
}

/// With one put failing the command ends so, and image and report are so long.
fn is_cut(
    alloc: Global,
    put: u64,
    status: Status,
    long: (usize, usize),
) -> Result<bool, AllocError> {
    let bytes = stream(alloc, PAINTED)?;
    let feed = Feed {
        puts: &[put],
        ..GOOD
    };
    let end = load(alloc, bytes.as_slice(), &feed)?;
    let is_told = end.trouble.is_none() && end.out.bytes(Port::Stream).is_empty();
    Ok(end.status == Some(status) && is_told && lengths(&end.out) == long)
}

/// A put for each page, and one for the line.
#[test]
fn stops_at_failing_puts(rt: HostRuntime) -> Result<(), Fail> {
    let rows = [
        (1, Status::Outlet, (0, 0)),
        (2, Status::Outlet, (4096, 0)),
        (3, Status::Outlet, (8192, 0)),
        (4, Status::Done, (8192, 25)),
    ];
    for (put, status, long) in rows {
        assert!(rt; is_cut(rt.alloc(), put, status, long)?, "put {put}");
    }
    Ok(())
}

/// With one read failing, of pieces of this length, nothing is put.
fn is_unread(alloc: Global, bytes: &[u8], piece: usize, read: u64) -> Result<bool, AllocError> {
    let feed = Feed {
        piece,
        reads: &[read],
        ..GOOD
    };
    let end = load(alloc, bytes, &feed)?;
    Ok(end.status == Some(Status::Source) && is_unput(&end.out))
}

/// The first of the reads, the last of which finds the end, that may fail and the command goes on.
fn first_passed(alloc: Global, bytes: &[u8], piece: usize, reads: u64) -> Result<u64, AllocError> {
    for read in 1..reads {
        if !is_unread(alloc, bytes, piece, read)? {
            return Ok(read);
        }
    }
    Ok(reads)
}

#[test]
fn stops_at_each_failing_read(rt: HostRuntime) -> Result<(), Fail> {
    // The length of a piece, and the first read that is not made: 24 and 44 bytes, and the end.
    for (pieces, piece, reads) in [(EMPTY, 1, 26), (EMPTY, 7, 6), (ZERO, 1, 46), (ZERO, 7, 9)] {
        let bytes = stream(rt.alloc(), pieces)?;
        assert_eq!(rt;
            first_passed(rt.alloc(), bytes.as_slice(), piece, reads + 1)?,
            reads
        );
    }
    Ok(())
}
