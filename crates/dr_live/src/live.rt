ghost use Rattle.std.specs.Prelude.{◌≡◌, None, length};
ghost use Rattle.dr_types.specs.Ports.{Rose};
ghost use Rattle.dr_types.specs.Scripts.{vcpu_count};
ghost use Rattle.dr_types.specs.Validity.{IsValid};
ghost use Rattle.dr_plain.specs.Top.{RunSays};

use dr_io::{Clock, Gate, Outlet};
use dr_live_run::live_run;
use dr_machine::rings_for;
use dr_plain::{Finished, finish};
use dr_ring::Name;
use dr_ring_set::RingSet;
use dr_run::{Outcome, RunOutcome};
use dr_types::{Guest, Status};
use std::alloc::Global;
use std::marker::Brand;
use std::sync::Wait;
use std::thread::Threads;

/// Runs a guest in threads over rings that the name fixes.
fn live_named<N: Name, O: Outlet + Send, C: Clock + Sync, G: Gate + Sync, R: Threads + Wait + Sync>(
    rt: &R,
    alloc: Global,
    guest: Guest,
    set: RingSet,
    out: O,
    clock: &C,
    gate: &G,
) -> Finished<O>
    requires guest { guest ≡ N.guest }
    requires valid { IsValid guest }
    requires set { N.rings ≡ set.rings }
    requires one_each { length set.rings ≡ vcpu_count guest }
    requires size { set.size ≡ guest.settings.ring }
    requires ports { O.told out ≡ N.ports }
    requires faults { O.faults out ≡ N.faults }
    ensures says { RunSays result.status guest result.kept (O.told out) (O.told result.out) }
    ensures outlet { result.status ≡ Status.Outlet → Rose (O.faults out) (O.faults result.out) }
    ensures unput { result.kept ≡ None → result.out ≡ out }
{
    let RunOutcome { outcome, out } = live_run::<N, O, C, G, R>(
        rt, alloc, guest, set, out, clock, gate,
    );
    let Outcome { machine, end } = outcome;
    match machine {
        Some(machine) => finish(alloc, machine, end, out),
        None => Finished {
            status: Status::Memory,
            out,
            kept: None,
        },
    }
}

/// Runs a guest in threads over new rings, and puts all that its run leaves.
pub fn live<O: Outlet + Send, C: Clock + Sync, G: Gate + Sync, R: Threads + Wait + Sync>(
    rt: &R,
    alloc: Global,
    guest: Guest,
    out: O,
    clock: &C,
    gate: &G,
) -> Finished<O>
    requires { IsValid guest }
    ensures says { RunSays result.status guest result.kept (O.told out) (O.told result.out) }
    ensures outlet { result.status ≡ Status.Outlet → Rose (O.faults out) (O.faults result.out) }
    ensures unput { result.kept ≡ None → result.out ≡ out }
{
    match rings_for(alloc, &guest) {
        Ok(set) => live_named::<Brand, O, C, G, R>(rt, alloc, guest, set, out, clock, gate),
        Err(_) => Finished {
            status: Status::Memory,
            out,
            kept: None,
        },
    }
}
