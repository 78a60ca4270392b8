//! What is said of each fault of a stream.

use crate::Trouble;
use dr_types::{Memory, StreamFault};
use std::alloc::{AllocError, Global};
use std::test::Fail;

/// A piece of a stream.
#[derive(Clone, Copy)]
enum Piece {
    /// A record's kind and number.
    Head(u32, u32),
    /// A number alone.
    Number(u32),
    /// So many bytes that are all 7.
    Fill(usize),
}

use Piece::{Fill, Head, Number};

fn push_number(bytes: &mut Vec<u8>, number: u32) -> Result<(), AllocError> {
    bytes.extend_from_slice(&number.to_le_bytes())
}

fn push_piece(bytes: &mut Vec<u8>, piece: Piece) -> Result<(), AllocError> {
    match piece {
        Head(kind, number) => {
            push_number(bytes, kind)?;
            push_number(bytes, number)
        }
        Number(number) => push_number(bytes, number),
        Fill(count) => {
            for _ in 0..count {
                bytes.push(7)?;
            }
            Ok(())
        }
    }
}

/// The bytes of these pieces after `DRSTREAM`.
fn stream(alloc: Global, pieces: &[Piece]) -> Result<Vec<u8>, AllocError> {
    let mut bytes = b"DRSTREAM".to_vec(alloc)?;
    for piece in pieces {
        push_piece(&mut bytes, *piece)?;
    }
    Ok(bytes)
}

/// What is said of this fault of these bytes.
fn says(alloc: Global, bytes: &[u8], fault: StreamFault, line: &str) -> Result<bool, Memory> {
    let said = Trouble::of(bytes, fault).text(alloc)?;
    Ok(said.as_str() == line)
}

/// This is said of this fault of a stream with these pieces.
fn tells(alloc: Global, pieces: &[Piece], fault: StreamFault, line: &str) -> Result<bool, Memory> {
    let bytes = stream(alloc, pieces)?;
    says(alloc, bytes.as_slice(), fault, line)
}

/// Headers that are wrong.
const HEADERS: &[(&[u8], StreamFault, &str)] = &[
    (
        b"",
        StreamFault::Cut { at: 0 },
        "byte 0: the stream is empty, and has to begin with a header of 16 bytes",
    ),
    (
        b"ERSTREAM",
        StreamFault::Magic,
        "byte 0 is 45 in place of 44: a stream begins with the 8 bytes DRSTREAM",
    ),
    (
        b"DRSTREA\n..",
        StreamFault::Magic,
        "byte 7 is 0a in place of 4d: a stream begins with the 8 bytes DRSTREAM",
    ),
    (
        b"DRSTR",
        StreamFault::Cut { at: 5 },
        "byte 5: the stream ends inside its header, after 5 of 16 bytes",
    ),
    (
        b"DRSTREAM\x07\0\0\0",
        StreamFault::Version { said: 7 },
        "byte 8: the version is 7, and may be 1 or 2",
    ),
    (
        b"DRSTREAM\x01\0\0\0\0\0\0",
        StreamFault::Cut { at: 15 },
        "byte 15: the stream ends inside its header, after 15 of 16 bytes",
    ),
    (
        b"DRSTREAM\x01\0\0\0\x01\x40\0\0\x03",
        StreamFault::Pages { said: 16_385 },
        "byte 12: the number of pages is 16385, and may be 1 to 16384",
    ),
    (b"DRSTREAM", StreamFault::Memory, "out of memory"),
];

/// Streams that end too early.
const CUTS: &[(&[Piece], StreamFault, &str)] = &[
    (
        &[Head(1, 1)],
        StreamFault::Cut { at: 16 },
        "byte 16: the stream ends without an end record: a round (kind 1) numbered 1 to 65, \
         or the end (kind 3) with the count 0 may come here; only the header comes before it",
    ),
    (
        &[Head(2, 16), Head(1, 64), Fill(3)],
        StreamFault::Cut { at: 27 },
        "byte 27: the stream ends inside the record at byte 24, after 3 of at least 8 bytes; \
         the last good record is round 64 at byte 16",
    ),
    (
        &[Head(2, 16), Head(1, 64), Number(2)],
        StreamFault::Cut { at: 28 },
        "byte 28: the stream ends inside the record at byte 24 (kind 2), after 4 of its 4104 \
         bytes; the last good record is round 64 at byte 16",
    ),
    (
        &[Head(2, 16), Head(1, 64), Head(2, 3), Fill(4095)],
        StreamFault::Cut { at: 4127 },
        "byte 4127: the stream ends inside the record at byte 24 (page 3), after 4103 of its \
         4104 bytes; the last good record is round 64 at byte 16",
    ),
    (
        &[Head(2, 16), Head(1, 64), Head(4, 3), Fill(2)],
        StreamFault::Cut { at: 34 },
        "byte 34: the stream ends inside the record at byte 24 (zeros from page 3), after 10 \
         of its 12 bytes; the last good record is round 64 at byte 16",
    ),
    (
        &[Head(2, 16), Head(1, 64), Head(4, 3), Number(12)],
        StreamFault::Cut { at: 36 },
        "byte 36: the stream ends without an end record: a round (kind 1) numbered 65, a page \
         (kind 2) or a first page of zeros (kind 4) numbered 15, or the end (kind 3) with the \
         count 1 may come here; the last good record is zeros from page 3 (count 12) at byte \
         24",
    ),
    (
        &[Head(2, 16), Head(1, 65), Head(4, 3), Number(13)],
        StreamFault::Cut { at: 36 },
        "byte 36: the stream ends without an end record: only the end (kind 3) with the count \
         1 may come here; the last good record is zeros from page 3 (count 13) at byte 24",
    ),
];

/// Records that are of no kind, or that may not come where they are.
const PLACES: &[(&[Piece], StreamFault, &str)] = &[
    (
        &[Head(2, 16), Head(9, 0)],
        StreamFault::Kind { at: 16 },
        "byte 16: a record of kind 9, which is none: a round (kind 1) numbered 1 to 65, or \
         the end (kind 3) with the count 0 may come here; only the header comes before it",
    ),
    (
        &[Head(1, 16), Head(1, 1), Head(4, 0), Number(1)],
        StreamFault::Kind { at: 24 },
        "byte 24: zeros (kind 4), which version 1 doesn't have: a round (kind 1) numbered 2 \
         to 65, a page (kind 2) numbered 0 to 15, or the end (kind 3) with the count 0 may \
         come here; the last good record is round 1 at byte 16",
    ),
    (
        &[Head(2, 16), Head(1, 1), Head(2, 3), Fill(4096), Head(0, 3)],
        StreamFault::Kind { at: 4128 },
        "byte 4128: a record of kind 0, which is none: a round (kind 1) numbered 2 to 65, a \
         page (kind 2) or a first page of zeros (kind 4) numbered 4 to 15, or the end (kind \
         3) with the count 1 may come here; the last good record is page 3 at byte 24",
    ),
    (
        &[Head(2, 16), Head(1, 0)],
        StreamFault::Place { at: 16 },
        "byte 16: there is no round 0: a round (kind 1) numbered 1 to 65, or the end (kind 3) \
         with the count 0 may come here; only the header comes before it",
    ),
    (
        &[Head(2, 16), Head(1, 66)],
        StreamFault::Place { at: 16 },
        "byte 16: there is no round 66: a round (kind 1) numbered 1 to 65, or the end (kind \
         3) with the count 0 may come here; only the header comes before it",
    ),
    (
        &[Head(2, 16), Head(1, 3), Head(1, 3)],
        StreamFault::Place { at: 24 },
        "byte 24: round 3 may not come after round 3: a round (kind 1) numbered 4 to 65, a \
         page (kind 2) or a first page of zeros (kind 4) numbered 0 to 15, or the end (kind \
         3) with the count 0 may come here; the last good record is round 3 at byte 16",
    ),
    (
        &[Head(2, 16), Head(2, 3), Fill(4096)],
        StreamFault::Place { at: 16 },
        "byte 16: page 3 may not come before any round: a round (kind 1) numbered 1 to 65, or \
         the end (kind 3) with the count 0 may come here; only the header comes before it",
    ),
    (
        &[Head(2, 16), Head(1, 1), Head(2, 16), Fill(4096)],
        StreamFault::Place { at: 24 },
        "byte 24: page 16 may not come in a stream whose last page is 15: a round (kind 1) \
         numbered 2 to 65, a page (kind 2) or a first page of zeros (kind 4) numbered 0 to \
         15, or the end (kind 3) with the count 0 may come here; the last good record is \
         round 1 at byte 16",
    ),
    (
        &[Head(1, 16), Head(1, 1), Head(2, 7), Fill(4096), Head(2, 5)],
        StreamFault::Place { at: 4128 },
        "byte 4128: page 5 may not come after page 7 in round 1: a round (kind 1) numbered 2 \
         to 65, a page (kind 2) numbered 8 to 15, or the end (kind 3) with the count 1 may \
         come here; the last good record is page 7 at byte 24",
    ),
    (
        &[Head(2, 1), Head(4, 0), Number(1)],
        StreamFault::Place { at: 16 },
        "byte 16: zeros from page 0 may not come before any round: a round (kind 1) numbered \
         1 to 65, or the end (kind 3) with the count 0 may come here; only the header comes \
         before it",
    ),
    (
        &[
            Head(2, 16),
            Head(1, 1),
            Head(4, 0),
            Number(16),
            Head(4, 15),
            Number(1),
        ],
        StreamFault::Place { at: 36 },
        "byte 36: zeros from page 15 may not come after page 15 in round 1: a round (kind 1) \
         numbered 2 to 65, or the end (kind 3) with the count 1 may come here; the last good \
         record is zeros from page 0 (count 16) at byte 24",
    ),
    (
        &[Head(2, 16), Head(1, 1), Head(4, 3), Number(0)],
        StreamFault::Place { at: 24 },
        "byte 24: zeros from page 3 with the count 0, which may be 1 to 13; the last good \
         record is round 1 at byte 16",
    ),
    (
        &[Head(2, 16), Head(1, 1), Head(4, 3), Number(14)],
        StreamFault::Place { at: 24 },
        "byte 24: zeros from page 3 with the count 14, which may be 1 to 13; the last good \
         record is round 1 at byte 16",
    ),
    (
        &[Head(2, 16), Head(1, 1), Head(4, 15), Number(2)],
        StreamFault::Place { at: 24 },
        "byte 24: zeros from page 15 with the count 2, which may be 1; the last good record \
         is round 1 at byte 16",
    ),
];

/// Ends that are wrong, and faults that aren't those of the bytes.
const ENDS: &[(&[Piece], StreamFault, &str)] = &[
    (
        &[Head(2, 1), Head(3, 1)],
        StreamFault::Count { said: 1, seen: 0 },
        "byte 16: the end counts 1 page and zero records, and 0 came before it; only the \
         header comes before it",
    ),
    (
        &[Head(2, 1), Head(1, 1), Head(4, 0), Number(1), Head(3, 0)],
        StreamFault::Count { said: 0, seen: 1 },
        "byte 36: the end counts 0 page and zero records, and 1 came before it; the last good \
         record is zeros from page 0 (count 1) at byte 24",
    ),
    (
        &[Head(1, 1), Head(3, 0), Fill(1)],
        StreamFault::After { at: 24 },
        "byte 24: nothing may come after the end record at byte 16, and there is more: 1 byte",
    ),
    (
        &[Head(1, 1), Head(3, 0), Head(1, 1)],
        StreamFault::After { at: 24 },
        "byte 24: nothing may come after the end record at byte 16, and there is more: 8 \
         bytes",
    ),
    (
        &[Head(1, 1), Head(3, 0)],
        StreamFault::Kind { at: 24 },
        "byte 24: there is no record of this kind",
    ),
];

#[test]
fn tells_of_headers(rt: HostRuntime) -> Result<(), Fail> {
    for (bytes, fault, line) in HEADERS {
        assert!(rt; says(rt.alloc(), *bytes, *fault, *line)?, "{line}");
    }
    Ok(())
}

#[test]
fn tells_of_records(rt: HostRuntime) -> Result<(), Fail> {
    for rows in [CUTS, PLACES, ENDS] {
        for (pieces, fault, line) in rows {
            assert!(rt; tells(rt.alloc(), *pieces, *fault, *line)?, "{line}");
        }
    }
    Ok(())
}
