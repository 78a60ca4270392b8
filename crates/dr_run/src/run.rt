ghost use Rattle.std.specs.Prelude.{◌≡◌, ◌≤◌, [], false, All, None, IfOk, IfSome, length};
ghost use Rattle.dr_types.specs.Ports.{Rose};
ghost use Rattle.dr_types.specs.Scripts.{vcpu_count};
ghost use Rattle.dr_types.specs.Validity.{IsValid};
ghost use Rattle.dr_history.specs.Legality.{IsLegal};
ghost use Rattle.dr_history.specs.Stream.{stream_of};
ghost use Rattle.dr_history.specs.Times.{times};
ghost use Rattle.dr_migrate.specs.Driving.{GoesOn};
ghost use Rattle.dr_reap.specs.Harvests.{AllDeposited};
ghost use Rattle.dr_run.specs.Outcomes.{EndsAs, HasNone, SendsAs};

use crate::outcome::{Outcome, OutcomeEnd, RunOutcome, end_of};
use dr_bench::Bench;
use dr_collector::Collector;
use dr_io::{Clock, Outlet};
use dr_machine::{Machine, Rig, new_rig};
use dr_migrate::drive;
use dr_ring::Name;
use dr_ring_set::{RingSet, Rings};
use dr_types::{Guest, Memory};
use std::alloc::Global;

/// What a run needs: a machine of which nothing has happened, its rings, and a collector of them.
#[derive(Drop)]
pub struct Ready<N: Name> {
    pub machine: Machine<N>,
    pub rings: Rings<N>,
    pub collector: Collector<N>,
}

/// Makes all that a run needs.
pub fn make_ready<N: Name>(alloc: Global, guest: Guest, set: RingSet) -> Result<Ready<N>, Memory>
    requires guest { guest ≡ N.guest }
    requires valid { IsValid guest }
    requires set { N.rings ≡ set.rings }
    requires one_each { length set.rings ≡ vcpu_count guest }
    requires size { set.size ≡ guest.settings.ring }
    ensures past { IfOk result (λ r. r.machine.past ≡ []) }
    ensures over { IfOk result (λ r. r.machine.over ≡ false) }
    ensures all_deposited { IfOk result (λ r. AllDeposited N.guest [] r.collector) }
{
    let Rig {
        rings,
        machine,
        users,
    } = new_rig(alloc, guest, set)?;
    let collector = Collector::new(alloc, users)?;
    Ok(Ready {
        machine,
        rings,
        collector,
    })
}

/// Drives a bench of which nothing has happened to its end.
fn drive_to_end<N: Name, O: Outlet, C: Clock>(
    alloc: Global,
    bench: &mut Bench<N, O>,
    collector: &mut Collector<N>,
    rings: &Rings<N>,
    clock: &C,
) -> OutcomeEnd
    requires first { bench.old.past ≡ [] }
    requires going { GoesOn N.guest bench.old collector.old }
    ensures ends { EndsAs result N.guest bench.new.past }
    ensures sends { SendsAs result (stream_of N.guest bench.new.past) N.ports bench.new.told }
    ensures times { All (C.reads clock.now) (times bench.new.past) }
    ensures later { bench.old.faults ≤ bench.new.faults }
    ensures risen { result ≡ OutcomeEnd.Sink → Rose N.faults bench.new.faults }
{
    let end = end_of(drive(alloc, bench, collector, rings, clock));
    bench.recall_kept();
    end
}

/// Drives what is ready to its end.
fn run<N: Name, O: Outlet, C: Clock>(
    alloc: Global,
    ready: Ready<N>,
    out: O,
    clock: &C,
) -> RunOutcome<N, O>
    requires past { ready.machine.past ≡ [] }
    requires over { ready.machine.over ≡ false }
    requires all_deposited { AllDeposited N.guest [] ready.collector }
    requires ports { O.told out ≡ N.ports }
    requires faults { O.faults out ≡ N.faults }
    ensures none { result.outcome.machine ≡ None
        → HasNone result.outcome.end (O.told out) (O.told result.out) }
    ensures unput { result.outcome.machine ≡ None → result.out ≡ out }
    ensures legal { IfSome result.outcome.machine (λ m. IsLegal N.guest m.past) }
    ensures ends { IfSome result.outcome.machine (λ m.
        EndsAs result.outcome.end N.guest m.past) }
    ensures sends { IfSome result.outcome.machine (λ m.
        SendsAs result.outcome.end (stream_of N.guest m.past) (O.told out) (O.told result.out)) }
    ensures times { IfSome result.outcome.machine (λ m. All (C.reads clock.now) (times m.past)) }
    ensures later { O.faults out ≤ O.faults result.out }
    ensures risen { result.outcome.end ≡ OutcomeEnd.Sink
        → Rose (O.faults out) (O.faults result.out) }
{
    let Ready {
        machine,
        rings,
        mut collector,
    } = ready;
    let mut bench = Bench::new(machine, out);
    let end = drive_to_end(alloc, &mut bench, &mut collector, &rings, clock);
    let (machine, out) = bench.into_parts();
    RunOutcome {
        outcome: Outcome {
            machine: Some(machine),
            end,
        },
        out,
    }
}

/// Runs a guest on one thread, by the schedule, to its switch-over or to the end of its rounds, and
/// puts its stream. Nothing but a put that fails or want of memory ends it earlier. The machine of
/// the run comes back; there is none only for want of memory before the first event.
pub fn step_run<N: Name, O: Outlet, C: Clock>(
    alloc: Global,
    guest: Guest,
    set: RingSet,
    out: O,
    clock: &C,
) -> RunOutcome<N, O>
    requires guest { guest ≡ N.guest }
    requires valid { IsValid guest }
    requires set { N.rings ≡ set.rings }
    requires one_each { length set.rings ≡ vcpu_count guest }
    requires size { set.size ≡ guest.settings.ring }
    requires ports { O.told out ≡ N.ports }
    requires faults { O.faults out ≡ N.faults }
    ensures none { result.outcome.machine ≡ None
        → HasNone result.outcome.end (O.told out) (O.told result.out) }
    ensures unput { result.outcome.machine ≡ None → result.out ≡ out }
    ensures legal { IfSome result.outcome.machine (λ m. IsLegal N.guest m.past) }
    ensures ends { IfSome result.outcome.machine (λ m.
        EndsAs result.outcome.end N.guest m.past) }
    ensures sends { IfSome result.outcome.machine (λ m.
        SendsAs result.outcome.end (stream_of N.guest m.past) (O.told out) (O.told result.out)) }
    ensures times { IfSome result.outcome.machine (λ m. All (C.reads clock.now) (times m.past)) }
    ensures later { O.faults out ≤ O.faults result.out }
    ensures risen { result.outcome.end ≡ OutcomeEnd.Sink
        → Rose (O.faults out) (O.faults result.out) }
{
    match make_ready(alloc, guest, set) {
        Ok(ready) => run(alloc, ready, out, clock),
        Err(_) => RunOutcome {
            outcome: Outcome {
                machine: None,
                end: OutcomeEnd::Memory,
            },
            out,
        },
    }
}
