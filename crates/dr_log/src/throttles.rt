ghost use Rattle.std.specs.Prelude.{◌≡◌, ◌<◌, List, reverse};
ghost use Rattle.dr_history.specs.declared.event.Event.{Event};
ghost use Rattle.dr_history.specs.Throttles.{throttle_due};
ghost use Rattle.dr_history.specs.Rules.{throttles_due, may_end};
ghost use Rattle.dr_state.specs.Whole.{IsStateOf, IsNamed};

use dr_history::Event;
use dr_state::State;
use dr_types::Guest;

/// The vCPU for which a throttle is due.
pub fn throttle_due(guest: &Guest, state: &State) -> Option<u64>
    ensures { (past : List Event) → IsStateOf guest.now past state.now
        → result ≡ throttle_due guest.now past }
{
    if guest.settings.quota == 0 || state.rounds.stopped {
        return None;
    }
    match state.throttles.next {
        Some(v) if v < guest.scripts.len() as u64 => Some(v),
        _ => None,
    }
}
