ghost use Rattle.std.specs.Prelude.{◌≡◌, ◌≤◌, Some};
ghost use Rattle.dr_types.specs.Ports.{Rose};
ghost use Rattle.dr_types.specs.Validity.{IsValid};
ghost use Rattle.dr_history.specs.Stream.{stream_of};
ghost use Rattle.dr_run.specs.Outcomes.{EndsAs, SendsAs, StandsAs};
ghost use Rattle.dr_plain.specs.Ended.{left_of};
ghost use Rattle.dr_plain.specs.Top.{IsRunOf, RunSays, SchedulesAs};

use crate::ending::put_after;
use dr_command_io::status_of_puts;
use dr_io::Outlet;
use dr_machine::{Kept, Machine};
use dr_ring::Name;
use dr_run::OutcomeEnd;
use dr_types::Status;
use std::alloc::Global;

/// How a run ended whose ports are put, with its outlet, and what is kept of its machine: nothing
/// where there was none, for want of memory.
#[derive(Drop)]
pub struct Finished<O: Outlet> {
    pub status: Status,
    pub out: O,
    pub kept: Option<Kept>,
}

/// What a machine keeps is all that its run says of it.
fn keep<N: Name>(machine: Machine<N>) -> Kept
    ensures is { result ≡ left_of N.guest machine }
    ensures run { IsRunOf N.guest result }
    ensures valid { IsValid N.guest }
{
    let _recall_guest = machine.guest();
    let kept = machine.keep();
    kept.history().recall_lines();
    kept
}

/// Puts what stands after the stream of a run, and keeps what is left of its machine.
#[tactic(auto, using(crate::proofs::Finishing::run_schedules))]
pub fn finish<N: Name, O: Outlet>(
    alloc: Global,
    machine: Machine<N>,
    end: OutcomeEnd,
    mut out: O,
) -> Finished<O>
    requires stands { StandsAs end N.guest machine.past }
    requires sends { SendsAs end (stream_of N.guest machine.past) N.ports (O.told out) }
    requires later { N.faults ≤ O.faults out }
    requires risen { end ≡ OutcomeEnd.Sink → Rose N.faults (O.faults out) }
    ensures kept { result.kept ≡ Some (left_of N.guest machine) }
    ensures says { RunSays result.status N.guest result.kept N.ports (O.told result.out) }
    ensures scheduled { EndsAs end N.guest machine.past
        → SchedulesAs result.status N.guest machine.past }
    ensures outlet { result.status ≡ Status.Outlet → Rose N.faults (O.faults result.out) }
{
    let status = status_of_puts(put_after(alloc, &machine, end, &mut out));
    Finished {
        status,
        out,
        kept: Some(keep(machine)),
    }
}
