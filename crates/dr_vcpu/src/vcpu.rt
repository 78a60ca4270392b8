ghost use Rattle.std.specs.Prelude.{◌≡◌, ◌<◌};
ghost use Rattle.dr_types.specs.Scripts.{vcpu_count};

use dr_io::{Clock, Gate, OpenGate, Outlet, Who};
use dr_kick::Bell;
use dr_ring::Name;
use dr_shared::{Shared, exit, give_up, has_quota, op, reap_all, reap_one, throttle_us};
use dr_turns::Turn;
use dr_types::{Memory, Step};
use std::alloc::Global;
use std::sync::Wait;

/// A sleep is no longer than a second.
const LONGEST_SLEEP_US: u64 = 1_000_000;

/// What came of a vCPU's turn, for its loop.
#[derive(Clone, Copy)]
enum Next {
    /// It executed an op, and goes on.
    Executed,
    /// It left the guest, and goes on.
    Left,
    /// There is no more for it to do.
    Ended,
}

/// A vCPU leaves the guest, and rings the bell.
fn leave<N: Name, O: Outlet, R: Wait>(
    rt: &R,
    shared: &Shared<N, O>,
    v: u32,
    bell: &Bell,
) -> Result<(), Memory>
    requires { v < vcpu_count N.guest }
{
    exit(rt, shared, v)?;
    bell.ring(rt);
    Ok(())
}

/// A vCPU whose ring is full leaves the guest. All rings are reaped, or its own alone where there
/// is a quota, and then it sleeps for its throttle.
fn leave_full<N: Name, O: Outlet, C: Clock, R: Wait>(
    rt: &R,
    alloc: Global,
    shared: &Shared<N, O>,
    v: u32,
    bell: &Bell,
    clock: &C,
) -> Result<(), Memory>
    requires { v < vcpu_count N.guest }
{
    leave(rt, shared, v, bell)?;
    if has_quota(rt, shared) {
        reap_one(rt, alloc, shared, v)?;
    } else {
        reap_all(rt, alloc, shared, &OpenGate, 0)?;
    }
    bell.ring(rt);
    let us = throttle_us(rt, shared, v).min(LONGEST_SLEEP_US);
    if us != 0 {
        clock.sleep_us(us);
    }
    Ok(())
}

/// A vCPU's next op, and what its answer asks for. The bell is rung after each turn.
fn turn<N: Name, O: Outlet, C: Clock, R: Wait>(
    rt: &R,
    alloc: Global,
    shared: &Shared<N, O>,
    v: u32,
    bell: &Bell,
    clock: &C,
) -> Result<Next, Memory>
    requires { v < vcpu_count N.guest }
{
    let turn = op(rt, shared, v)?;
    bell.ring(rt);
    match turn {
        Turn::Done(Step::Plain) => Ok(Next::Executed),
        Turn::Done(Step::Nap(us)) => {
            clock.sleep_us(u64::from(us));
            Ok(Next::Executed)
        }
        Turn::Done(Step::Halted) | Turn::Stopped => {
            leave(rt, shared, v, bell)?;
            Ok(Next::Ended)
        }
        Turn::Kicked => {
            leave(rt, shared, v, bell)?;
            Ok(Next::Left)
        }
        Turn::Full { used: _, soft: _ } => {
            leave_full(rt, alloc, shared, v, bell, clock)?;
            Ok(Next::Left)
        }
        Turn::Ended | Turn::Over => Ok(Next::Ended),
    }
}

/// A vCPU's turns until there are no more.
fn turns<N: Name, O: Outlet, C: Clock, G: Gate, R: Wait>(
    rt: &R,
    alloc: Global,
    shared: &Shared<N, O>,
    v: u32,
    bell: &Bell,
    clock: &C,
    gate: &G,
) -> Result<(), Memory>
    requires { v < vcpu_count N.guest }
{
    let mut done = 0u64;
    for _ in rt.forever() {
        gate.pass(Who::Vcpu(v), done);
        match turn(rt, alloc, shared, v, bell, clock)? {
            Next::Executed => done = done.saturating_add(1),
            Next::Left => {}
            Next::Ended => return Ok(()),
        }
    }
    unreachable!()
}

/// Executes a vCPU's ops, one a turn, and does what each answer asks for, until it has halted, the
/// guest is stopped or the run was given up. It passes the gate before each op, with the number of
/// ops that it executed so far, and rings the bell after each of its turns and once more at its
/// end. Want of memory gives the run up.
pub fn run_vcpu<N: Name, O: Outlet, C: Clock, G: Gate, R: Wait>(
    rt: &R,
    alloc: Global,
    shared: &Shared<N, O>,
    v: u32,
    bell: &Bell,
    clock: &C,
    gate: &G,
)
    requires { v < vcpu_count N.guest }
{
    if turns(rt, alloc, shared, v, bell, clock, gate).is_err() {
        give_up(rt, shared);
    }
    bell.ring(rt);
}
