ghost use Rattle.std.specs.Prelude.{◌≡◌, ◌≢◌, ◌≤◌, ◌<◌, [], None, IfSome, length};
ghost use Rattle.dr_types.specs.Ports.{Rose};
ghost use Rattle.dr_types.specs.Scripts.{vcpu_count};
ghost use Rattle.dr_types.specs.Validity.{IsValid};
ghost use Rattle.dr_history.specs.Legality.{IsLegal};
ghost use Rattle.dr_history.specs.Stream.{stream_of};
ghost use Rattle.dr_run.specs.Outcomes.{HasNone, SendsAs, StandsAs};

use crate::finding::find_end;
use crate::threads::run_all;
use dr_bench::Bench;
use dr_collector::Collector;
use dr_io::{Clock, Gate, Outlet};
use dr_ring::Name;
use dr_ring_set::{RingSet, Rings};
use dr_run::{Outcome, OutcomeEnd, Ready, RunOutcome, make_ready};
use dr_shared::Shared;
use dr_types::Guest;
use std::alloc::Global;
use std::sync::Wait;
use std::thread::Threads;

/// What is left of a run whose threads are joined: its end is found, and its machine comes back.
fn conclude<N: Name, O: Outlet, C: Clock>(
    alloc: Global,
    mut bench: Bench<N, O>,
    mut collector: Collector<N>,
    rings: &Rings<N>,
    clock: &C,
) -> RunOutcome<N, O>
    ensures some { result.outcome.machine ≢ None }
    ensures legal { IfSome result.outcome.machine (λ m. IsLegal N.guest m.past) }
    ensures stands { IfSome result.outcome.machine (λ m.
        StandsAs result.outcome.end N.guest m.past) }
    ensures sends { IfSome result.outcome.machine (λ m.
        SendsAs result.outcome.end (stream_of N.guest m.past) N.ports (O.told result.out)) }
    ensures later { N.faults ≤ O.faults result.out }
    ensures risen { result.outcome.end ≡ OutcomeEnd.Sink → Rose N.faults (O.faults result.out) }
{
    let end = find_end(alloc, &mut bench, &mut collector, rings, clock);
    let (machine, out) = bench.into_parts();
    RunOutcome {
        outcome: Outcome {
            machine: Some(machine),
            end,
        },
        out,
    }
}

/// Runs what is ready in threads.
fn run<N: Name, O: Outlet + Send, C: Clock + Sync, G: Gate + Sync, R: Threads + Wait + Sync>(
    rt: &R,
    alloc: Global,
    ready: Ready<N>,
    out: O,
    clock: &C,
    gate: &G,
) -> RunOutcome<N, O>
    requires past { ready.machine.past ≡ [] }
    requires ports { O.told out ≡ N.ports }
    requires faults { O.faults out ≡ N.faults }
    ensures some { result.outcome.machine ≢ None }
    ensures legal { IfSome result.outcome.machine (λ m. IsLegal N.guest m.past) }
    ensures stands { IfSome result.outcome.machine (λ m.
        StandsAs result.outcome.end N.guest m.past) }
    ensures sends { IfSome result.outcome.machine (λ m.
        SendsAs result.outcome.end (stream_of N.guest m.past) N.ports (O.told result.out)) }
    ensures later { N.faults ≤ O.faults result.out }
    ensures risen { result.outcome.end ≡ OutcomeEnd.Sink → Rose N.faults (O.faults result.out) }
{
    let Ready {
        machine,
        rings,
        collector,
    } = ready;
    let shared = Shared::new(Bench::new(machine, out), collector, rings);
    run_all(rt, alloc, &shared, clock, gate);
    let (bench, collector, rings) = shared.into_parts();
    conclude(alloc, bench, collector, &rings, clock)
}

/// Runs a guest with each vCPU, the reaper and the migrator in a thread of its own, and puts its
/// stream. Once all are joined the end is found, where need be by driving the run on. The machine
/// of the run comes back; there is none only for want of memory before the first event.
pub fn live_run<
    N: Name,
    O: Outlet + Send,
    C: Clock + Sync,
    G: Gate + Sync,
    R: Threads + Wait + Sync,
>(
    rt: &R,
    alloc: Global,
    guest: Guest,
    set: RingSet,
    out: O,
    clock: &C,
    gate: &G,
) -> RunOutcome<N, O>
    requires guest { guest ≡ N.guest }
    requires valid { IsValid guest }
    requires set { N.rings ≡ set.rings }
    requires one_each { length set.rings ≡ vcpu_count guest }
    requires size { set.size ≡ guest.settings.ring }
    requires ports { O.told out ≡ N.ports }
    requires faults { O.faults out ≡ N.faults }
    ensures none { result.outcome.machine ≡ None
        → HasNone result.outcome.end (O.told out) (O.told result.out) }
    ensures unput { result.outcome.machine ≡ None → result.out ≡ out }
    ensures legal { IfSome result.outcome.machine (λ m. IsLegal N.guest m.past) }
    ensures stands { IfSome result.outcome.machine (λ m.
        StandsAs result.outcome.end N.guest m.past) }
    ensures sends { IfSome result.outcome.machine (λ m.
        SendsAs result.outcome.end (stream_of N.guest m.past) (O.told out) (O.told result.out)) }
    ensures later { O.faults out ≤ O.faults result.out }
    ensures risen { result.outcome.end ≡ OutcomeEnd.Sink
        → Rose (O.faults out) (O.faults result.out) }
{
    match make_ready(alloc, guest, set) {
        Ok(ready) => run(rt, alloc, ready, out, clock, gate),
        Err(_) => RunOutcome {
            outcome: Outcome {
                machine: None,
                end: OutcomeEnd::Memory,
            },
            out,
        },
    }
}
