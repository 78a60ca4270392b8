ghost use Rattle.std.specs.Prelude.{◌≡◌, ◌<◌, false, Ok, IfOk};
ghost use Rattle.std.specs.Prelude.{OnOk, OnErr};
ghost use Rattle.dr_bench.specs.Bench.{SameStanding};
ghost use Rattle.dr_schedule_law.specs.Waiting.{AwaitsOp};
ghost use Rattle.dr_schedule_law.specs.Schedule.{appends};
ghost use Rattle.dr_migrate.specs.Driving.{Acts, ActsInPart, Breaks, GoesOn};
ghost use Rattle.dr_migrate.specs.Driving.{IsDue, IsExecuted, Moves};

use crate::context::Context;
use crate::leaving::{exit, leave_full};
use dr_bench::{Bench, BenchFault};
use dr_collector::Collector;
use dr_io::{Clock, Outlet};
use dr_reap::reap_all;
use dr_ring::Name;
use dr_ring_set::Rings;
use dr_turns::{Advance, RunEnd, Turn};
use dr_types::{Memory, Step};

/// A vCPU that is to execute makes its next op, or tells that its ring is full.
fn op<N: Name, O: Outlet>(
    bench: &mut Bench<N, O>,
    collector: &Collector<N>,
    rings: &Rings<N>,
    v: u32,
) -> Result<Turn, Memory>
    requires awaits { AwaitsOp N.guest bench.old.past v }
    requires going { GoesOn N.guest bench.old collector.now }
    ensures executed { IfOk result (IsExecuted N.guest v bench.old.past bench.new.past) }
    ensures going { GoesOn N.guest bench.new collector.now }
    ensures err { OnErr result (bench.new ≡ bench.old) }
    ensures standing { SameStanding bench.old bench.new }
{
    bench.op(rings, v)
}

/// A vCPU that is to execute does so: it makes its next op, and leaves after a halt; where its
/// ring is full it leaves, and rings are reaped.
fn execute<N: Name, O: Outlet, C: Clock>(
    context: &Context<N, C>,
    bench: &mut Bench<N, O>,
    collector: &mut Collector<N>,
    v: u32,
) -> Result<(), Memory>
    requires awaits { AwaitsOp N.guest bench.old.past v }
    requires going { GoesOn N.guest bench.old collector.old }
    ensures done { OnOk result (Acts N.guest v bench.old.past bench.new.past) }
    ensures part { OnErr result (ActsInPart N.guest v bench.old.past bench.new.past) }
    ensures going { OnOk result (GoesOn N.guest bench.new collector.new) }
    ensures standing { SameStanding bench.old bench.new }
{
    match op(bench, collector, context.rings, v)? {
        Turn::Full { used: _, soft: _ } => leave_full(context, bench, collector, v),
        Turn::Done(Step::Halted) | Turn::Kicked | Turn::Stopped => {
            exit(bench, collector, context.rings, v)
        }
        Turn::Done(Step::Nap(us)) => {
            context.clock.sleep_us(u64::from(us));
            Ok(())
        }
        Turn::Done(Step::Plain) | Turn::Ended | Turn::Over => Ok(()),
    }
}

/// The migrator waits for a vCPU to execute.
pub fn run_vcpu<N: Name, O: Outlet, C: Clock>(
    context: &Context<N, C>,
    bench: &mut Bench<N, O>,
    collector: &mut Collector<N>,
    v: u32,
    done: u32,
) -> Result<(), Memory>
    requires due { IsDue N.guest bench.old.past (Advance.NotPaced v done) }
    requires going { GoesOn N.guest bench.old collector.old }
    ensures moves { OnOk result (Moves N.guest bench.old.past bench.new.past) }
    ensures breaks { OnErr result (Breaks N.guest bench.old.past bench.new.past) }
    ensures going { OnOk result (GoesOn N.guest bench.new collector.new) }
    ensures standing { SameStanding bench.old bench.new }
{
    bench.recall_kept();
    let _recall_guest = bench.guest();
    execute(context, bench, collector, v)
}

/// The migrator waits for a kicked vCPU to leave.
pub fn kick_out<N: Name, O: Outlet>(
    bench: &mut Bench<N, O>,
    collector: &Collector<N>,
    rings: &Rings<N>,
    v: u32,
) -> Result<(), Memory>
    requires due { IsDue N.guest bench.old.past (Advance.NotOut v) }
    requires going { GoesOn N.guest bench.old collector.now }
    ensures moves { OnOk result (Moves N.guest bench.old.past bench.new.past) }
    ensures breaks { OnErr result (Breaks N.guest bench.old.past bench.new.past) }
    ensures going { OnOk result (GoesOn N.guest bench.new collector.now) }
    ensures standing { SameStanding bench.old bench.new }
{
    bench.recall_kept();
    exit(bench, collector, rings, v)
}

/// The migrator waits for entries to be reset.
pub fn reap<N: Name, O: Outlet, C: Clock>(
    context: &Context<N, C>,
    bench: &mut Bench<N, O>,
    collector: &mut Collector<N>,
    v: u32,
    k: u64,
) -> Result<(), Memory>
    requires due { IsDue N.guest bench.old.past (Advance.NotReset v k) }
    requires going { GoesOn N.guest bench.old collector.old }
    ensures moves { OnOk result (Moves N.guest bench.old.past bench.new.past) }
    ensures breaks { OnErr result (Breaks N.guest bench.old.past bench.new.past) }
    ensures going { OnOk result (GoesOn N.guest bench.new collector.new) }
    ensures standing { SameStanding bench.old bench.new }
{
    bench.recall_kept();
    reap_all(bench, collector, context.rings, context.alloc)?;
    Ok(())
}

/// The migrator waits for a flush.
pub fn flush<N: Name, O: Outlet>(
    bench: &mut Bench<N, O>,
    collector: &Collector<N>,
) -> Result<(), Memory>
    requires due { IsDue N.guest bench.old.past Advance.NotFlushed }
    requires going { GoesOn N.guest bench.old collector.now }
    ensures moves { OnOk result (Moves N.guest bench.old.past bench.new.past) }
    ensures breaks { OnErr result (Breaks N.guest bench.old.past bench.new.past) }
    ensures going { OnOk result (GoesOn N.guest bench.new collector.now) }
    ensures standing { SameStanding bench.old bench.new }
{
    bench.recall_kept();
    let _some = bench.flush()?;
    Ok(())
}

/// An advance of this answer appends events.
pub fn appends(due: Advance) -> bool
    ensures { result ≡ appends due }
{
    match due {
        Advance::Started
        | Advance::Answered { r: _, pages: _ }
        | Advance::Copied { r: _, page: _ }
        | Advance::Blank {
            r: _,
            first: _,
            count: _,
        }
        | Advance::Asked { r: _ }
        | Advance::Stopping
        | Advance::Switched => true,
        _ => false,
    }
}
