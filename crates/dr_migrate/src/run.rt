ghost use Rattle.std.specs.Prelude.{◌≡◌, ◌<◌, ◌≤◌, false, Some, None};
ghost use Rattle.std.specs.Prelude.{IfOk, IfErr, OnOk, OnErr};
ghost use Rattle.dr_history.specs.Times.{times};
ghost use Rattle.dr_bench.specs.Bench.{SameStanding};
ghost use Rattle.dr_schedule_law.specs.Schedule.{appends, Follows, CutAtTurn};
ghost use Rattle.dr_schedule_law.specs.Timed.{MayAddTime};
ghost use Rattle.dr_turns.specs.Due.{advanced};
ghost use Rattle.dr_migrate.specs.Driving.{AddsRead, GoesOn, HasAdvanced, IsEnd, SinkRises};
ghost use Rattle.dr_migrate.specs.Driving.{IsDue, MadeBlock, Waited, is_sink};

use crate::context::Context;
use crate::waits::{appends, flush, kick_out, reap, run_vcpu};
use dr_bench::{Bench, BenchFault};
use dr_collector::Collector;
use dr_io::{Clock, Outlet};
use dr_ring::Name;
use dr_ring_set::Rings;
use dr_turns::{Advance, RunEnd};
use dr_types::Memory;
use std::alloc::Global;

/// The advance that is due.
fn advance<N: Name, O: Outlet>(
    bench: &mut Bench<N, O>,
    collector: &Collector<N>,
    now: u64,
) -> Result<Advance, BenchFault>
    requires going { GoesOn N.guest bench.old collector.now }
    ensures advanced { IfOk result (λ due.
        HasAdvanced N.guest now due bench.old.past bench.new.past) }
    ensures going { OnOk result (GoesOn N.guest bench.new collector.now) }
    ensures cut { OnErr result (CutAtTurn N.guest bench.old.past bench.new.past) }
    ensures times { MayAddTime now bench.old.past bench.new.past }
    ensures sink { IfErr result (λ why. bench.new.failed ≡ is_sink why) }
    ensures over { IfErr result (λ why. bench.new.over ≡ is_sink why) }
    ensures risen { IfErr result (λ why. SinkRises why bench.old.faults bench.new.faults) }
    ensures later { bench.old.faults ≤ bench.new.faults }
{
    let due = bench.advance(now)?;
    bench.recall_kept();
    Ok(due)
}

/// Does what an advance calls for that appended nothing. Answers where the run stands at
/// its end, and `None` where it goes on.
fn wait<N: Name, O: Outlet, C: Clock>(
    context: &Context<N, C>,
    bench: &mut Bench<N, O>,
    collector: &mut Collector<N>,
    due: Advance,
) -> Result<Option<RunEnd>, Memory>
    requires due { IsDue N.guest bench.old.past due }
    requires waits { appends due ≡ false }
    requires going { GoesOn N.guest bench.old collector.old }
    ensures waited { Waited N.guest result bench.old.past bench.new.past }
    ensures going { OnOk result (GoesOn N.guest bench.new collector.new) }
    ensures standing { SameStanding bench.old bench.new }
{
    bench.recall_kept();
    match due {
        Advance::NotPaced { v, done } => {
            run_vcpu(context, bench, collector, v, done)?;
        }
        Advance::NotOut { v } => kick_out(bench, collector, context.rings, v)?,
        Advance::NotReset { v, k } => reap(context, bench, collector, v, k)?,
        Advance::NotFlushed => flush(bench, collector)?,
        Advance::Finished => return Ok(Some(RunEnd::Switched)),
        Advance::Budget => return Ok(Some(RunEnd::Budget)),
        Advance::Started
        | Advance::Answered { r: _, pages: _ }
        | Advance::Copied { r: _, page: _ }
        | Advance::Blank {
            r: _,
            first: _,
            count: _,
        }
        | Advance::Asked { r: _ }
        | Advance::Stopping
        | Advance::Switched => unreachable!(),
    }
    Ok(None)
}

/// Makes the advance that is due, or what it calls for. Answers where the run stands at
/// its end, and `None` where it goes on.
fn make_block<N: Name, O: Outlet, C: Clock>(
    context: &Context<N, C>,
    bench: &mut Bench<N, O>,
    collector: &mut Collector<N>,
) -> Result<Option<RunEnd>, BenchFault>
    requires going { GoesOn N.guest bench.old collector.old }
    ensures made_block { MadeBlock N.guest result bench.old.past bench.new.past }
    ensures going { OnOk result (GoesOn N.guest bench.new collector.new) }
    ensures sink { IfErr result (λ why. bench.new.failed ≡ is_sink why) }
    ensures over { IfErr result (λ why. bench.new.over ≡ is_sink why) }
    ensures risen { IfErr result (λ why. SinkRises why bench.old.faults bench.new.faults) }
    ensures later { bench.old.faults ≤ bench.new.faults }
    ensures times { AddsRead (C.reads context.now.clock.now) bench.old.past bench.new.past }
{
    let due = advance(bench, collector, context.clock.now_us())?;
    if appends(due) {
        return Ok(None);
    }
    let end = wait(context, bench, collector, due)?;
    bench.recall_kept();
    Ok(end)
}

/// Takes a bench to its end by the schedule: the advance that is due is done again and again.
/// Where it waits for a vCPU to be paced, that vCPU executes its next op, and leaves after a halt;
/// with a full ring it leaves, its ring is reaped, or all are where there is no quota, and it
/// sleeps for its throttle. A kicked vCPU leaves. Where entries are to be reset all rings are
/// reaped; where pages are closing they are flushed. Each of these adds an event, and a guest has
/// no more than `most_events`, so it comes to an end. After an `Err` bench, collector and rings are
/// where the last turn that was made left them: at `Sink` what the advance appended stands and the
/// run is given up; at `Memory` the turn that found none changed nothing.
#[tactic(auto, using(crate::proofs::Used::for_drive))]
pub fn drive<N: Name, O: Outlet, C: Clock>(
    alloc: Global,
    bench: &mut Bench<N, O>,
    collector: &mut Collector<N>,
    rings: &Rings<N>,
    clock: &C,
) -> Result<RunEnd, BenchFault>
    requires going { GoesOn N.guest bench.old collector.old }
    ensures end { IfOk result (IsEnd N.guest bench.new.past) }
    ensures going { OnOk result (GoesOn N.guest bench.new collector.new) }
    ensures scheduled { OnOk result (Follows N.guest bench.old.past bench.new.past) }
    ensures cut { OnErr result (CutAtTurn N.guest bench.old.past bench.new.past) }
    ensures sink { IfErr result (λ why. bench.new.failed ≡ is_sink why) }
    ensures over { IfErr result (λ why. bench.new.over ≡ is_sink why) }
    ensures risen { IfErr result (λ why. SinkRises why bench.old.faults bench.new.faults) }
    ensures later { bench.old.faults ≤ bench.new.faults }
    ensures times { AddsRead (C.reads clock.now) bench.old.past bench.new.past }
{
    let context = Context {
        alloc,
        rings,
        clock,
    };
    loop {
        match make_block(&context, bench, collector)? {
            Some(end) => return Ok(end),
            None => {}
        }
    }
}
