ghost use Rattle.std.specs.Prelude.{◌≡◌, ◌<◌, ◌≤◌, ◌&&◌, nat_le, List, vec_len};
ghost use Rattle.std.specs.List.{list_any};
ghost use Rattle.dr_history.specs.declared.event.Event.{Event};
ghost use Rattle.dr_history.specs.Lookback.{below};
ghost use Rattle.dr_history.specs.Rules.{deposits_pushed, deposits_some, deposits_entry};
ghost use Rattle.dr_history.specs.Rules.{resets_deposited};
ghost use Rattle.dr_state.specs.Whole.{IsStateOf, IsNamed};
ghost use Rattle.dr_log.specs.Tests.{deposited_at};

use dr_history::Event;
use dr_state::{OpenedEntry, State};
use dr_types::Guest;

fn deposited_at(entries: &[OpenedEntry], k: u64) -> bool
    ensures { result ≡ deposited_at entries.now k }
{
    if k < entries.len() as u64 {
        entries[k as usize].deposited
    } else {
        false
    }
}

#[tactic(auto, using(crate::proofs::Numbers::any_more))]
fn deposited_between(entries: &[OpenedEntry], from: u64, to: u64) -> bool
    requires { from ≤ to }
    ensures { result ≡ list_any (λ k. nat_le from k && deposited_at entries.now k) (below to) }
{
    let mut found = false;
    for k in from..to {
        let deposited = deposited_at(entries, k);
        found = found || deposited;
    }
    found
}

/// The entry of the vCPU is deposited.
pub fn is_deposited(guest: &Guest, state: &State, v: u32, k: u64) -> bool
    requires { v < vec_len state.now.entries.rows }
    ensures { (past : List Event) → IsStateOf guest.now past state.now
        → result ≡ list_any (deposits_entry v k) past }
{
    deposited_at(state.entries.of(v), k)
}

/// Some entry of the vCPU from one number up to another is deposited.
pub fn some_deposited(guest: &Guest, state: &State, v: u32, from: u64, to: u64) -> bool
    requires vcpu { v < vec_len state.now.entries.rows }
    requires order { from < to }
    ensures { (past : List Event) → IsStateOf guest.now past state.now
        → result ≡ list_any (deposits_some v from to) past }
{
    deposited_between(state.entries.of(v), from, to)
}
