use dr_bench::BenchFault;
use dr_io::{Clock, Gate, OpenGate, Outlet, Who};
use dr_kick::Bell;
use dr_ring::Name;
use dr_shared::{Shared, advance, flush, give_up, reap_all};
use dr_turns::Advance;
use std::alloc::Global;
use std::sync::Wait;

/// What came of the migrator's turn, for its loop.
#[derive(Clone, Copy)]
enum Next {
    /// It goes on.
    Moved,
    /// A page was copied, or pages of zeros together.
    Copied,
    /// A vCPU is to move first.
    Waits,
    /// The guest was stopped.
    Stopped,
    /// There is no more for it to do.
    Ended,
}

/// The advance that is due, and what it calls for but waiting.
fn turn<N: Name, O: Outlet, C: Clock, R: Wait>(
    rt: &R,
    alloc: Global,
    shared: &Shared<N, O>,
    clock: &C,
) -> Result<Next, BenchFault> {
    let Some(step) = advance(rt, shared, clock.now_us())? else {
        return Ok(Next::Ended);
    };
    match step {
        Advance::NotPaced { v: _, done: _ } | Advance::NotOut { v: _ } => Ok(Next::Waits),
        Advance::NotReset { v: _, k: _ } => {
            reap_all(rt, alloc, shared, &OpenGate, 0)?;
            Ok(Next::Moved)
        }
        Advance::NotFlushed => {
            flush(rt, shared)?;
            Ok(Next::Moved)
        }
        Advance::Copied { r: _, page: _ }
        | Advance::Blank {
            r: _,
            first: _,
            count: _,
        } => { Ok(Next::Copied) }
        Advance::Stopping => Ok(Next::Stopped),
        Advance::Finished | Advance::Budget => Ok(Next::Ended),
        Advance::Started
        | Advance::Answered { r: _, pages: _ }
        | Advance::Asked { r: _ }
        | Advance::Switched => Ok(Next::Moved),
    }
}

/// The same. A fault gives the run up and ends the loop. Where a vCPU is to move first it waits for
/// the bell, past the rings that were seen before.
fn turn_or_end<N: Name, O: Outlet, C: Clock, R: Wait>(
    rt: &R,
    alloc: Global,
    shared: &Shared<N, O>,
    bell: &Bell,
    clock: &C,
    seen: &mut u64,
) -> Next {
    match turn(rt, alloc, shared, clock) {
        Ok(Next::Waits) => {
            *seen = bell.wait_past(rt, *seen);
            Next::Moved
        }
        Ok(next) => next,
        Err(_) => {
            give_up(rt, shared);
            Next::Ended
        }
    }
}

/// Makes the migrator's turns until the guest is stopped. It passes the gate after its n-th turn
/// that copied, from 1 on, with n and outside all locks. It ends too where the run stands at its
/// end or was given up, and after a fault, which gives it up.
pub fn rounds_live<N: Name, O: Outlet, C: Clock, G: Gate, R: Wait>(
    rt: &R,
    alloc: Global,
    shared: &Shared<N, O>,
    bell: &Bell,
    clock: &C,
    gate: &G,
) {
    let mut seen = 0u64;
    let mut copies = 0u64;
    for _ in rt.forever() {
        match turn_or_end(rt, alloc, shared, bell, clock, &mut seen) {
            Next::Copied => {
                copies = copies.saturating_add(1);
                gate.pass(Who::Migrator, copies);
            }
            Next::Stopped | Next::Ended => return,
            Next::Moved | Next::Waits => {}
        }
    }
}

/// Makes the migrator's turns, also past the stop, until the run stands at its end or was given up,
/// or a fault came, which gives it up.
pub fn switch_live<N: Name, O: Outlet, C: Clock, R: Wait>(
    rt: &R,
    alloc: Global,
    shared: &Shared<N, O>,
    bell: &Bell,
    clock: &C,
) {
    let mut seen = 0u64;
    for _ in rt.forever() {
        if let Next::Ended = turn_or_end(rt, alloc, shared, bell, clock, &mut seen) {
            return;
        }
    }
}
