//! Guests of one page.

use dr_io::{FixedClock, Port, PortBook};
use dr_plain_testing::{LARGE_PIECE, guest_file, journal_of, report_of, source, step};
use dr_types::Status;
use std::alloc::{AllocError, Global};
use std::test::Fail;

/// A page of zeros with this last byte.
fn page(last: u8) -> [u8; 4096] {
    let mut page = [0; 4096];
    page[4095] = last;
    page
}

/// The record of the page, which ends with this byte and has zeros before it.
fn record_of(alloc: Global, last: u8) -> Result<Vec<u8>, AllocError> {
    if last == 0 {
        return b"\x04\0\0\0\0\0\0\0\x01\0\0\0".to_vec(alloc);
    }
    let mut record = b"\x02\0\0\0\0\0\0\0".to_vec(alloc)?;
    record.extend_from_slice(&page(last))?;
    Ok(record)
}

/// The stream of a guest of one page that is copied once, in the first of three rounds.
fn stream_of(alloc: Global, last: u8) -> Result<Vec<u8>, AllocError> {
    let mut stream = b"DRSTREAM\x02\0\0\0\x01\0\0\0".to_vec(alloc)?;
    stream.extend_from_slice(b"\x01\0\0\0\x01\0\0\0")?;
    let record = record_of(alloc, last)?;
    stream.extend_from_slice(record.as_slice())?;
    stream.extend_from_slice(b"\x01\0\0\0\x03\0\0\0\x03\0\0\0\x01\0\0\0")?;
    Ok(stream)
}

/// A guest of one page, and what its run leaves.
#[derive(Clone, Copy)]
struct Row {
    /// The ops before the halt.
    ops: &'static str,
    /// The events of all ops.
    events: &'static str,
    /// The last byte of the page at the end.
    last: u8,
    /// How many ops are executed.
    executed: u32,
    /// What the clock reads.
    now: u64,
    /// How many bytes of the file come at most with a read.
    piece: usize,
}

const HALT: Row = Row {
    ops: "",
    events: "h 0 0\n",
    last: 0,
    executed: 1,
    now: 0,
    piece: LARGE_PIECE,
};

/// The four ports hold what a row's run leaves, whose guest file this is.
fn leaves(alloc: Global, row: &Row, file: &str, out: &PortBook) -> Result<bool, AllocError> {
    let page = page(row.last);
    let stream = stream_of(alloc, row.last)?;
    let report = report_of(alloc, row.now, row.executed)?;
    let journal = journal_of(alloc, file, row.events, row.now)?;
    Ok(
        out.bytes(Port::Stream) == stream.as_slice()
            && out.bytes(Port::Image) == page.as_slice()
            && out.bytes(Port::Report) == report.as_bytes()
            && out.bytes(Port::Journal) == journal.as_bytes(),
    )
}

/// A row's guest is migrated.
fn migrates(alloc: Global, row: &Row) -> Result<bool, AllocError> {
    let file = guest_file(alloc, row.ops)?;
    let mut source = source(alloc, &file, row.piece, &[])?;
    let end = step(alloc, &mut source, &[], &FixedClock { now: row.now })?;
    if end.status == Some(Status::Done) {
        leaves(alloc, row, &file, &end.out)
    } else {
        Ok(false)
    }
}

#[test]
fn migrates_one_page(rt: HostRuntime) -> Result<(), Fail> {
    let later = Row { now: 7, ..HALT };
    let in_bytes = Row { piece: 1, ..HALT };
    let last_byte = Row {
        ops: "w 4095 01\n",
        events: "w 0 0 4095 01\nh 0 1\n",
        last: 1,
        executed: 2,
        ..HALT
    };
    for row in [HALT, later, in_bytes, last_byte] {
        let is_migrated = migrates(rt.alloc(), &row)?;
        assert!(rt; is_migrated, "at {}", row.ops);
    }
    Ok(())
}
