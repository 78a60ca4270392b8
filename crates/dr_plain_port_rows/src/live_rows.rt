//! Guests whose vCPUs run on after the start of logging.

use dr_io::{Port, PortBook};
use dr_plain_testing::{joined, step_on};
use dr_types::Status;
use std::alloc::{AllocError, Global};
use std::test::Fail;

/// A guest file in two parts, between which the quota's number stands, and what its run leaves.
#[derive(Clone, Copy)]
struct Row {
    head: &'static str,
    quota: &'static str,
    tail: &'static str,
    /// How many events the journal has.
    events: usize,
    /// Parts of the journal.
    journal: &'static [&'static str],
    /// Parts of the report.
    report: &'static [&'static str],
    /// The first byte of each page of the image.
    image: &'static [u8],
}

/// Two pages, each written once after the start.
const TWO_WRITES: Row = Row {
    head: "dirtyguest 1\nring 8\nreserve 2\nbuffer 2\npace 1\nthreshold 0\nrounds 4\nquota ",
    quota: "0",
    tail: "\nslot 0 0 2\nvcpu\na 1\nw 0 41\nw 4096 4243\nhalt\n",
    events: 35,
    journal: &[
        "journal\nl 0 0\nstart 0\nask 1\nx 0 kicked\nsync 1 0 2 0 1\ncopy 1 0\ncopy 1 1\n",
        "copy 1 1\no 0 0 0\nw 0 1 0 41\nask 2\np 0 0\nx 0 kicked\nd 0 0 1\nz 0 0\nflush\nsync 2 0 1 0\n",
        "sync 2 0 1 0\ncopy 2 0\no 0 1 1\nw 0 2 4096 4243\nask 3\np 0 1\nx 0 kicked\nd 0 1 2\nz 0 1\n",
        "z 0 1\nflush\nsync 3 0 1 1\ncopy 3 1\nh 0 3\nx 0 halted\nask 4\nsync 4 0 0\nstop\nask 5\n",
        "ask 5\nsync 5 0 0\nswitched\nend\n",
    ],
    report: &[
        "guest pages 2 vcpus 1 ring 8 soft 4\n",
        "round 2 dirty 1 copied 1 at 0\n  vcpu 0 entries 1 rate 4000000 throttle 0\n",
        "round 3 dirty 1 copied 1 at 0\n  vcpu 0 entries 1 rate 4000000 throttle 0\n",
        "vcpu 0 ops 4 full 0 kicked 3\nswitched\n",
    ],
    image: &[0x41, 0x42],
};

/// The same under a quota.
const THROTTLED: Row = Row {
    quota: "100000",
    events: 39,
    journal: &[
        "sync 1 0 2 0 1\nt 0 0\ncopy 1 0\n",
        "sync 2 0 1 0\nt 0 258\ncopy 2 0\n",
        "sync 3 0 1 1\nt 0 516\ncopy 3 1\n",
        "sync 4 0 0\nt 0 0\nstop\nask 5\nsync 5 0 0\nswitched\n",
    ],
    report: &[
        "  vcpu 0 entries 1 rate 4000000 throttle 258\n",
        "vcpu 0 ops 4 full 0 kicked 3\n",
    ],
    ..TWO_WRITES
};

/// The same address in both spaces, written before the start.
const SAME_ADDRESS: Row = Row {
    head: "dirtyguest 2\nring 8\nreserve 2\nbuffer 0\npace 16\nthreshold 0\nrounds 2\nquota ",
    quota: "0",
    tail: "\nslot 0 0 1\nslot 1:0 0 1\nvcpu\nw 1:0 41\nw 0 42\nhalt\n",
    events: 15,
    journal: &[
        "journal\nw 0 0 1:0 41\nw 0 1 0 42\nh 0 2\nx 0 halted\nstart 0\nask 1\nsync 1 0 2 0 1\n",
    ],
    report: &["guest pages 2 vcpus 1 ring 8 soft 6\n"],
    image: &[0x42, 0x41],
};

/// The two writes, each in a space of its own.
const TWO_SPACES: Row = Row {
    head: "dirtyguest 2\nring 8\nreserve 2\nbuffer 2\npace 1\nthreshold 0\nrounds 4\nquota ",
    tail: "\nslot 0 0 1\nslot 1:0 0 1\nvcpu\na 1\nw 0 41\nw 1:0 4243\nhalt\n",
    journal: &[
        "copy 1 1\no 0 0 0\nw 0 1 0 41\nask 2\np 0 0\nx 0 kicked\nd 0 0 1\nz 0 0\nflush\nsync 2 0 1 0\n",
        "sync 2 0 1 0\ncopy 2 0\no 0 1 1\nw 0 2 1:0 4243\nask 3\np 0 1\nx 0 kicked\nd 0 1 2\nz 0 1\n",
        "z 0 1\nflush\nsync 3 0 1 1\ncopy 3 1\nh 0 3\nx 0 halted\nask 4\nsync 4 0 0\nstop\nask 5\n",
    ],
    ..TWO_WRITES
};

/// Twelve pages through a ring that is full after five of them.
const FULL_RING: Row = Row {
    head: "dirtyguest 1\nring 8\nreserve 2\nbuffer 1\npace 13\nthreshold 0\nrounds 4\nquota ",
    quota: "0",
    tail: "\nslot 0 0 12\nvcpu\nrep 13\na 0\nend\nw 0 01\nw 4096 01\nw 8192 01\nw 12288 01\nw 16384 01\nw 20480 01\nw 24576 01\nw 28672 01\nw 32768 01\nw 36864 01\nw 40960 01\nw 45056 01\nhalt\n",
    events: 107,
    journal: &[
        "p 0 4\nx 0 full\nd 0 0 5\nz 0 0\nz 0 1\nz 0 2\nz 0 3\nz 0 4\nflush\n",
        "p 0 9\nx 0 full\nd 0 5 10\nz 0 5\nz 0 6\nz 0 7\nz 0 8\nz 0 9\nflush\n",
        "ask 2\nd 0 10 12\nz 0 10\nz 0 11\nflush\nsync 2 0 12 0 1 2 3 4 5 6 7 8 9 10 11\n",
    ],
    report: &["vcpu 0 ops 26 full 2 kicked 1\nswitched\n"],
    image: &[1, 1, 1, 1, 1, 1, 1, 1, 1, 1, 1, 1],
};

/// A full exit after each entry.
const SOFT_LIMIT_ONE: Row = Row {
    head: "dirtyguest 1\nring 4\nreserve 3\nbuffer 0\npace 4\nthreshold 0\nrounds 4\nquota ",
    quota: "0",
    tail: "\nslot 0 0 3\nvcpu\nrep 4\na 0\nend\nw 0 01\nw 4096 01\nw 8192 01\nhalt\n",
    events: 45,
    journal: &[
        "x 0 full\nd 0 0 1\nz 0 0\nflush\n",
        "x 0 full\nd 0 1 2\nz 0 1\nflush\n",
    ],
    report: &["vcpu 0 ops 8 full 3 kicked 1\nswitched\n"],
    image: &[1, 1, 1],
};

/// Each part stands in the text.
fn has_parts(text: &str, parts: &[&str]) -> bool {
    for part in parts {
        if !text.contains(*part) {
            return false;
        }
    }
    true
}

/// How many lines stand between the lines `journal` and `end`.
fn event_lines(journal: &str) -> usize {
    let events = journal
        .lines()
        .skip_while(|line| *line != "journal")
        .skip(1);
    events.take_while(|line| *line != "end").count()
}

/// The image has so many pages, and these first bytes.
fn has_first_bytes(image: &[u8], firsts: &[u8]) -> bool {
    for page in 0..firsts.len() {
        if image.get(page.saturating_mul(4096)).copied() != firsts.get(page).copied() {
            return false;
        }
    }
    image.len() == firsts.len().saturating_mul(4096)
}

/// The report and the image are a row's.
fn ends_as(row: &Row, report: &str, image: &[u8]) -> bool {
    has_parts(report, row.report) && has_first_bytes(image, row.image)
}

/// The journal is a row's, whose guest file this is.
fn tells_as(row: &Row, file: &str, journal: &str) -> bool {
    journal.starts_with(file)
        && event_lines(journal) == row.events
        && has_parts(journal, row.journal)
}

/// The ports hold what a row's run leaves, whose guest file this is.
fn leaves(alloc: Global, row: &Row, file: &str, out: &PortBook) -> Result<bool, AllocError> {
    let journal = String::from_utf8_lossy(alloc, out.bytes(Port::Journal))?;
    let report = String::from_utf8_lossy(alloc, out.bytes(Port::Report))?;
    Ok(tells_as(row, file, &journal) && ends_as(row, &report, out.bytes(Port::Image)))
}

/// A row's guest is migrated.
fn migrates(alloc: Global, row: &Row) -> Result<bool, AllocError> {
    let file = joined(alloc, &[row.head, row.quota, row.tail])?;
    let end = step_on(alloc, &file, &[], 0)?;
    if end.status == Some(Status::Done) {
        leaves(alloc, row, &file, &end.out)
    } else {
        Ok(false)
    }
}

#[test]
fn migrates_guests_that_run_on(rt: HostRuntime) -> Result<(), Fail> {
    let full_with_quota = Row {
        quota: "1",
        events: 110,
        journal: &[],
        ..FULL_RING
    };
    let rows = [
        TWO_WRITES,
        SAME_ADDRESS,
        TWO_SPACES,
        THROTTLED,
        FULL_RING,
        full_with_quota,
        SOFT_LIMIT_ONE,
    ];
    for row in rows {
        let is_migrated = migrates(rt.alloc(), &row)?;
        assert!(rt; is_migrated, "at {}", row.tail);
    }
    Ok(())
}

/// The rounds come to their end with the first: there is no image, the stream has no end record,
/// and the report says so.
fn is_unfinished(alloc: Global, out: &PortBook) -> Result<bool, AllocError> {
    let journal = String::from_utf8_lossy(alloc, out.bytes(Port::Journal))?;
    let report = String::from_utf8_lossy(alloc, out.bytes(Port::Report))?;
    let told = journal.ends_with("sync 1 0 1 0\ncopy 1 0\nend\n")
        && report.ends_with("\nunfinished\n");
    Ok(told && out.bytes(Port::Stream).len() == 36 && out.bytes(Port::Image).is_empty())
}

#[test]
fn ends_with_its_rounds(rt: HostRuntime) -> Result<(), Fail> {
    let alloc = rt.alloc();
    let head =
        "dirtyguest 1\nring 8\nreserve 2\nbuffer 0\npace 16\nthreshold 0\nrounds 1\nquota 0\n";
    let file = joined(alloc, &[head, "slot 0 0 1\nvcpu\nhalt\n"])?;
    let end = step_on(alloc, &file, &[], 0)?;
    assert!(rt; end.status == Some(Status::Unfinished), "the status");
    assert!(rt; is_unfinished(alloc, &end.out)?, "the ports");
    Ok(())
}
