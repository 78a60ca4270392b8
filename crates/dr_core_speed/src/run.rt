//! A run over some guests, one after the other.

ghost use Rattle.std.specs.Prelude.{◌≡◌, IfOk};
ghost use Rattle.dr_types.specs.Validity.{IsValid};
ghost use Rattle.dr_history.specs.Legality.{IsLegal};

use crate::counts::Counts;
use crate::fault::{RunFault, refusal};
use crate::request::Request;
use crate::sample::sample_guest;
use dr_core::Core;
use dr_simulation::migrate;
use dr_types::Guest;
use std::alloc::Global;

/// A judge that took a whole migration of a guest, of so many events and a few more.
fn run_guest(alloc: Global, guest: &Guest, wanted: u32) -> Result<Core, RunFault>
    requires { IsValid guest.now }
    ensures { IfOk result (λ core. IsLegal core.guest core.past) }
{
    let mut core = Core::new(alloc, guest)?;
    match migrate(alloc, &mut core, wanted) {
        Ok(()) => {
            let _recall_history = core.log().history();
            Ok(core)
        }
        Err(fault) => Err(refusal(&core, fault)),
    }
}

/// The counts of a run in which the guests share the events. The guests are alike.
pub fn run(alloc: Global, request: Request) -> Result<Counts, RunFault> {
    let guest = sample_guest(alloc)?;
    let mut counts = Counts::none();
    for _ in 0..request.guests {
        let core = run_guest(alloc, &guest, request.share())?;
        let _recall_few = core.log().history().len();
        counts.add(core.log().events());
    }
    Ok(counts)
}
