//! A command over a file in memory, by the top call of `run`.

use dr_io::{Clock, FixedClock, OpenGate, PortBook};
use dr_live::{LiveEnd, live_main};
use dr_plain_testing::{LARGE_PIECE, source};
use dr_types::Listed;
use std::alloc::{AllocError, Global};
use std::sync::Wait;
use std::thread::Threads;

/// Does a command on a file, with the puts of these numbers failing and by this clock.
pub fn command<C: Clock + Sync, R: Threads + Wait + Sync>(
    rt: &R,
    alloc: Global,
    words: &[&str],
    file: &str,
    puts: &[u64],
    clock: &C,
) -> Result<LiveEnd<PortBook>, AllocError> {
    let mut said = Vec::new(alloc);
    for word in words {
        said.push(String::from_str(alloc, word)?)?;
    }
    let fails = puts.to_vec(alloc)?;
    let mut source = source(alloc, file, LARGE_PIECE, &[])?;
    let out = PortBook::new(alloc, Listed::from_vec(fails));
    Ok(live_main(
        rt,
        alloc,
        said.as_slice(),
        &mut source,
        out,
        clock,
        &OpenGate,
    ))
}

/// Does `run` on a file, with the puts of these numbers failing and the clock at this time.
pub fn run<R: Threads + Wait + Sync>(
    rt: &R,
    alloc: Global,
    file: &str,
    puts: &[u64],
    now: u64,
) -> Result<LiveEnd<PortBook>, AllocError> {
    command(rt, alloc, &["run"], file, puts, &FixedClock { now })
}
