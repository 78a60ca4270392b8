//! Turns of the bench, each in one hold of the machine's lock.
ghost use Rattle.std.specs.Prelude.{◌≡◌, ◌<◌, ◌≤◌, ◌↔◌, IsTrue, true, false, Ok, None, Some};
ghost use Rattle.std.specs.Prelude.{IfOk, IfErr, OnOk};
ghost use Rattle.dr_types.specs.Scripts.{vcpu_count};
ghost use Rattle.dr_bench.specs.Records.{AdvanceFails};
ghost use Rattle.dr_turns.specs.Due.{advanced};

use crate::shared::Shared;
use dr_bench::{Bench, BenchFault};
use dr_io::Outlet;
use dr_ring::Name;
use dr_turns::{Advance, Turn};
use dr_types::Memory;
use std::sync::Wait;

/// Executes a vCPU's next op, or tells why not.
pub fn op<N: Name, O: Outlet, R: Wait>(
    rt: &R,
    shared: &Shared<N, O>,
    v: u32,
) -> Result<Turn, Memory>
    requires { v < vcpu_count N.guest }
{
    shared.bench.lock(rt).op(shared.rings(), v)
}

/// A vCPU leaves the guest, if it is in it.
pub fn exit<N: Name, O: Outlet, R: Wait>(
    rt: &R,
    shared: &Shared<N, O>,
    v: u32,
) -> Result<(), Memory>
    requires { v < vcpu_count N.guest }
{
    let _why = shared.bench.lock(rt).exit(shared.rings(), v)?;
    Ok(())
}

/// Drops all permissions that vCPUs have, where a page was reset since the last flush.
pub fn flush<N: Name, O: Outlet, R: Wait>(rt: &R, shared: &Shared<N, O>) -> Result<(), Memory> {
    let _some = shared.bench.lock(rt).flush()?;
    Ok(())
}

/// How long a vCPU was last throttled, in microseconds.
pub fn throttle_us<N: Name, O: Outlet, R: Wait>(rt: &R, shared: &Shared<N, O>, v: u32) -> u64
    requires { v < vcpu_count N.guest }
{
    shared.bench.lock(rt).throttle_us(v)
}

/// The run was given up.
pub fn is_over<N: Name, O: Outlet, R: Wait>(rt: &R, shared: &Shared<N, O>) -> bool {
    shared.bench.lock(rt).over()
}

/// The guest is stopped, or every vCPU has halted.
pub fn all_out<N: Name, O: Outlet, R: Wait>(rt: &R, shared: &Shared<N, O>) -> bool {
    shared.bench.lock(rt).all_out()
}

/// Gives the run up: from now on no vCPU executes.
pub fn give_up<N: Name, O: Outlet, R: Wait>(rt: &R, shared: &Shared<N, O>) {
    shared.bench.lock(rt).give_up();
}

/// The guest has a quota.
pub fn has_quota<N: Name, O: Outlet, R: Wait>(rt: &R, shared: &Shared<N, O>) -> bool
    ensures { IsTrue result ↔ (1 ≤ N.guest.settings.quota) }
{
    shared.bench.lock(rt).guest().settings.quota >= 1
}

/// Makes the advance that is due, where the run wasn't given up. Both are in one hold of the lock.
pub fn advance<N: Name, O: Outlet, R: Wait>(
    rt: &R,
    shared: &Shared<N, O>,
    now: u64,
) -> Result<Option<Advance>, BenchFault> {
    let mut bench = shared.bench.lock(rt);
    advance_going(&mut *bench, now)
}

/// The same, of a bench that is lent.
fn advance_going<N: Name, O: Outlet>(
    bench: &mut Bench<N, O>,
    now: u64,
) -> Result<Option<Advance>, BenchFault>
    ensures over { bench.old.over ≡ true → result ≡ Ok None }
    ensures stays { bench.old.over ≡ true → bench.new ≡ bench.old }
    ensures answer { bench.old.over ≡ false
        → IfOk result (λ a. a ≡ Some (advanced N.guest now bench.old.past).0) }
    ensures appended { bench.old.over ≡ false
        → OnOk result (bench.new.past ≡ (advanced N.guest now bench.old.past).1) }
    ensures fault { IfErr result (AdvanceFails N.guest now bench.old bench.new) }
{
    if bench.over() {
        return Ok(None);
    }
    bench.recall_kept();
    Ok(Some(bench.advance(now)?))
}
