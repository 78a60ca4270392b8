ghost use Rattle.std.specs.Prelude.{◌≡◌, ◌%◌, List, IfSome};
ghost use Rattle.dr_types.specs.Pages.{page_of_address};
ghost use Rattle.dr_history.specs.Memory.{page_bytes, loaded};
ghost use Rattle.dr_history.specs.declared.event.Event.{Event};
ghost use Rattle.dr_history.specs.Rules.{reads_memory};
ghost use Rattle.dr_state.specs.Whole.{IsStateOf};
ghost use Rattle.dr_log.specs.Sizes.{IsSized};

use dr_history::Event;
use dr_slots::page_of_address;
use dr_state::State;
use dr_types::Guest;

/// The eight bytes from an address of a space on, as a number; zero where the address lies in no
/// slot.
pub fn loaded_at(guest: &Guest, state: &State, space: u32, address: u64) -> u64
    requires { IsSized guest.now state.now }
    ensures { (past : List Event) → IsStateOf guest.now past state.now
        → IfSome (page_of_address guest.now space address) (λ page.
        result ≡ loaded (page_bytes guest.now page past) (address % 4096)) }
{
    match page_of_address(guest, space, address) {
        Some(page) => state.load(page, (address % 4096) as u32),
        None => 0,
    }
}
