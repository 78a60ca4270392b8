ghost use Rattle.std.specs.Prelude.{◌≡◌, All, Some, None, IfSome, length};
ghost use Rattle.dr_types.specs.Ports.{Rose};
ghost use Rattle.dr_types.specs.Scripts.{vcpu_count};
ghost use Rattle.dr_types.specs.Validity.{IsValid};
ghost use Rattle.dr_history.specs.Times.{times};
ghost use Rattle.dr_plain.specs.Top.{RunSays, SchedulesAs};

use crate::leaving::{Finished, finish};
use dr_io::{Clock, Outlet};
use dr_machine::rings_for;
use dr_ring::Name;
use dr_ring_set::RingSet;
use dr_run::{Outcome, RunOutcome, step_run};
use dr_types::{Guest, Status};
use std::alloc::Global;
use std::marker::Brand;

/// Runs a guest over rings that the name fixes.
#[tactic(auto, using(dr_run::proofs::Ending::ends_stand))]
fn step_named<N: Name, O: Outlet, C: Clock>(
    alloc: Global,
    guest: Guest,
    set: RingSet,
    out: O,
    clock: &C,
) -> Finished<O>
    requires guest { guest ≡ N.guest }
    requires valid { IsValid guest }
    requires set { N.rings ≡ set.rings }
    requires one_each { length set.rings ≡ vcpu_count guest }
    requires size { set.size ≡ guest.settings.ring }
    requires ports { O.told out ≡ N.ports }
    requires faults { O.faults out ≡ N.faults }
    ensures says { RunSays result.status guest result.kept (O.told out) (O.told result.out) }
    ensures scheduled { IfSome result.kept (λ k. SchedulesAs result.status k.guest k.past) }
    ensures times { IfSome result.kept (λ k. All (C.reads clock.now) (times k.past)) }
    ensures outlet { result.status ≡ Status.Outlet → Rose (O.faults out) (O.faults result.out) }
    ensures unput { result.kept ≡ None → result.out ≡ out }
{
    let RunOutcome { outcome, out } = step_run::<N, O, C>(alloc, guest, set, out, clock);
    let Outcome { machine, end } = outcome;
    match machine {
        Some(machine) => finish(alloc, machine, end, out),
        None => Finished {
            status: Status::Memory,
            out,
            kept: None,
        },
    }
}

/// Runs a guest over new rings, and puts all that its run leaves.
pub fn step<O: Outlet, C: Clock>(alloc: Global, guest: Guest, out: O, clock: &C) -> Finished<O>
    requires { IsValid guest }
    ensures says { RunSays result.status guest result.kept (O.told out) (O.told result.out) }
    ensures scheduled { IfSome result.kept (λ k. SchedulesAs result.status k.guest k.past) }
    ensures times { IfSome result.kept (λ k. All (C.reads clock.now) (times k.past)) }
    ensures outlet { result.status ≡ Status.Outlet → Rose (O.faults out) (O.faults result.out) }
    ensures unput { result.kept ≡ None → result.out ≡ out }
{
    match rings_for(alloc, &guest) {
        Ok(set) => step_named::<Brand, O, C>(alloc, guest, set, out, clock),
        Err(_) => Finished {
            status: Status::Memory,
            out,
            kept: None,
        },
    }
}
