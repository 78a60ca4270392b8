//! Whole streams, and the images that they load as.

use crate::loads::{GOOD, load};
use crate::streams::{EMPTY, PAINTED, Piece, ROUNDS, ZERO, stream};
use dr_io::Port;
use dr_types::Status;
use std::alloc::{AllocError, Global};
use std::test::Fail;

/// Each page of the image has its byte throughout.
fn is_image(image: &[u8], pages: &[u8]) -> bool {
    if image.len() / 4096 != pages.len() {
        return false;
    }
    for (page, byte) in image.chunks(4096).zip(pages) {
        if !page.iter().all(|it| it == byte) {
            return false;
        }
    }
    true
}

/// The stream loads as these pages, and this is said of it.
fn loads_as(alloc: Global, pieces: &[Piece], pages: &[u8], line: &str) -> Result<bool, AllocError> {
    let bytes = stream(alloc, pieces)?;
    let end = load(alloc, bytes.as_slice(), &GOOD)?;
    let is_done = end.status == Some(Status::Done) && end.trouble.is_none();
    let says = end.out.bytes(Port::Report) == line.as_bytes();
    Ok(is_done && says && is_image(end.out.bytes(Port::Image), pages))
}

#[test]
fn whole_streams_load(rt: HostRuntime) -> Result<(), Fail> {
    const ROWS: &[(&[Piece], &[u8], &str)] = &[
        (EMPTY, &[0], "loaded pages 1 records 0\n"),
        (ZERO, &[0], "loaded pages 1 records 1\n"),
        (PAINTED, &[5, 7], "loaded pages 2 records 3\n"),
        (ROUNDS, &[0, 0, 9, 8], "loaded pages 4 records 4\n"),
    ];
    for &(pieces, pages, line) in ROWS {
        assert!(rt; loads_as(rt.alloc(), pieces, pages, line)?, "{line}");
    }
    Ok(())
}
