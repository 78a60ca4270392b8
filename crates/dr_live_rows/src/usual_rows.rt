//! The usual guest: four vCPUs that each count to 1,000 in a page of their own, over two slots.
//! Logging begins when all have halted, so that its run in threads leaves what `step` leaves.

use crate::runs::run;
use dr_io::Port;
use dr_plain_testing::{holds_counts, lengths, usual_guest, usual_report};
use dr_types::Status;
use std::alloc::{AllocError, Global};
use std::sync::Wait;
use std::test::Fail;
use std::thread::Threads;

#[test]
fn migrates_the_usual_guest(rt: HostRuntime) -> Result<(), Fail> {
    let alloc = rt.alloc();
    let file = usual_guest(alloc)?;
    let report = usual_report(alloc, 7)?;
    let end = run(&rt, alloc, &file, &[], 7)?;
    assert!(rt; end.status == Status::Done, "the status");
    assert!(rt;
        end.out.bytes(Port::Report) == report.as_bytes(),
        "the report"
    );
    assert!(rt; end.out.bytes(Port::Stream).len() == 16_480, "the stream");
    assert!(rt; holds_counts(end.out.bytes(Port::Image)), "the image");
    Ok(())
}

/// The run with one put failing is cut off there: of the stream there is a first part of this
/// length, and nothing else was put.
fn is_cut<R: Threads + Wait + Sync>(
    rt: &R,
    alloc: Global,
    put: u64,
    long: usize,
    whole: &[u8],
) -> Result<bool, AllocError> {
    let file = usual_guest(alloc)?;
    let end = run(rt, alloc, &file, &[put], 7)?;
    let is_cut = end.status == Status::Outlet && end.kept.is_some();
    let begins_alike = whole.starts_with(end.out.bytes(Port::Stream));
    Ok(is_cut && begins_alike && lengths(&end.out) == [long, 0, 0, 0])
}

/// The stream has ten puts: its header, round 1 with three pages, zeros, a page and zeros, round 3,
/// and its end. The eleventh put is the first page of the image.
#[test]
fn stops_at_failing_puts(rt: HostRuntime) -> Result<(), Fail> {
    let alloc = rt.alloc();
    let file = usual_guest(alloc)?;
    let whole = run(&rt, alloc, &file, &[], 7)?;
    let stream = whole.out.bytes(Port::Stream);
    for (put, long) in [(1, 0), (2, 16), (9, 16_464), (11, 16_480)] {
        assert!(rt; is_cut(&rt, alloc, put, long, stream)?, "put {put}");
    }
    Ok(())
}
