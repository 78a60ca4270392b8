//! Runs that end early, at a put that fails while a vCPU still executes.

use crate::runs::run;
use dr_plain_testing::lengths;
use dr_types::Status;
use std::alloc::{AllocError, Global};
use std::sync::Wait;
use std::test::Fail;
use std::thread::Threads;

/// One page and one vCPU, which executes on beside all rounds.
const LONG: &str =
    "dirtyguest 1\nring 8\nreserve 2\nbuffer 0\npace 1\nthreshold 0\nrounds 4\nquota 0\nslot 0 0 1\nvcpu\nrep 5000\na 0\nend\nhalt\n";

/// The run with one put failing is cut off there: its stream is so long, and nothing else was put.
fn is_cut<R: Threads + Wait + Sync>(
    rt: &R,
    alloc: Global,
    put: u64,
    stream: usize,
) -> Result<bool, AllocError> {
    let end = run(rt, alloc, LONG, &[put], 0)?;
    let is_cut = end.status == Status::Outlet && end.kept.is_some();
    Ok(is_cut && lengths(&end.out) == [stream, 0, 0, 0])
}

/// A stream has five puts: its header, round 1 and its page, round 3, and its end.
#[test]
fn stops_at_failing_puts(rt: HostRuntime) -> Result<(), Fail> {
    let rows = [(1, 0), (2, 16), (3, 24), (4, 36), (5, 44)];
    for (put, stream) in rows {
        assert!(rt; is_cut(&rt, rt.alloc(), put, stream)?, "put {put}");
    }
    Ok(())
}
