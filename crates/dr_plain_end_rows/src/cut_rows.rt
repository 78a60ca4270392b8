//! Runs of the smallest guest that end early, at a put or a read that fails.

use dr_io::{FixedClock, Port};
use dr_plain_testing::{Ran, guest_file, journal_of, lengths, report_of, source, step, step_on};
use dr_types::Status;
use std::alloc::{AllocError, Global};
use std::test::Fail;

/// The run with one put failing ends so, and its stream, image, report and journal are so long.
fn is_cut(alloc: Global, put: u64, status: Status, long: [usize; 4]) -> Result<bool, AllocError> {
    let file = guest_file(alloc, "")?;
    let end = step_on(alloc, &file, &[put], 0)?;
    Ok(end.status == Some(status) && end.is_kept && lengths(&end.out) == long)
}

#[test]
fn stops_at_failing_puts(rt: HostRuntime) -> Result<(), Fail> {
    let alloc = rt.alloc();
    let report = report_of(alloc, 0, 1)?.len();
    let file = guest_file(alloc, "")?;
    let journal = journal_of(alloc, &file, "h 0 0\n", 0)?.len();
    // The put that fails, and how long the four ports are before it: nothing is put after it. A
    // run has eight puts.
    let rows = [
        (1, Status::Outlet, [0, 0, 0, 0]),
        (2, Status::Outlet, [16, 0, 0, 0]),
        (3, Status::Outlet, [24, 0, 0, 0]),
        (4, Status::Outlet, [36, 0, 0, 0]),
        (5, Status::Outlet, [44, 0, 0, 0]),
        (6, Status::Outlet, [52, 0, 0, 0]),
        (7, Status::Outlet, [52, 4096, 0, 0]),
        (8, Status::Outlet, [52, 4096, report, 0]),
        (9, Status::Done, [52, 4096, report, journal]),
    ];
    for (put, status, long) in rows {
        let is_cut = is_cut(alloc, put, status, long)?;
        assert!(rt; is_cut, "put {put}");
    }
    Ok(())
}

/// The ports with this put failing hold first parts of what they hold where none fails.
fn begins_alike(alloc: Global, put: u64) -> Result<bool, AllocError> {
    let file = guest_file(alloc, "")?;
    let cut = step_on(alloc, &file, &[put], 0)?;
    let whole = step_on(alloc, &file, &[], 0)?;
    for port in [Port::Stream, Port::Image, Port::Report, Port::Journal] {
        if !whole.out.bytes(port).starts_with(cut.out.bytes(port)) {
            return Ok(false);
        }
    }
    Ok(true)
}

#[test]
fn leaves_first_parts(rt: HostRuntime) -> Result<(), Fail> {
    for put in 1..9 {
        assert!(rt; begins_alike(rt.alloc(), put)?, "put {put}");
    }
    Ok(())
}

/// The run over a file in pieces of this length, with one read failing.
fn unread(alloc: Global, piece: usize, read: u64) -> Result<Ran, AllocError> {
    let file = guest_file(alloc, "")?;
    let mut source = source(alloc, &file, piece, &[read])?;
    step(alloc, &mut source, &[], &FixedClock { now: 0 })
}

/// The run over a file in pieces of this length, with one read failing, ends there and puts
/// nothing.
fn is_unread(alloc: Global, piece: usize, read: u64) -> Result<bool, AllocError> {
    let end = unread(alloc, piece, read)?;
    let nothing = !end.is_kept && lengths(&end.out) == [0, 0, 0, 0];
    Ok(end.status == Some(Status::Source) && nothing)
}

#[test]
fn stops_at_a_failing_read(rt: HostRuntime) -> Result<(), Fail> {
    for read in [1, 2, 98] {
        assert!(rt; is_unread(rt.alloc(), 1, read)?, "read {read}");
    }
    // The file has 97 bytes: fourteen pieces of seven, and a read that finds the end.
    for read in 1..16 {
        assert!(rt; is_unread(rt.alloc(), 7, read)?, "read {read}");
    }
    assert!(rt; unread(rt.alloc(), 7, 16)?.status == Some(Status::Done));
    Ok(())
}
