//! How many pages of zeros are to be copied together.
ghost use Rattle.std.specs.Prelude.{◌≡◌, ◌<◌, ◌+◌, ◌==◌, ◌&&◌, ◌^◌, ℕ, List, All, drop, length};
ghost use Rattle.dr_types.specs.Pages.{page_count};
ghost use Rattle.dr_history.specs.declared.event.Event.{Event};
ghost use Rattle.dr_history.specs.Memory.{zero_page};
ghost use Rattle.dr_state.specs.Whole.{IsStateOf};
ghost use Rattle.dr_turns.specs.Due.{zeros_from, zeros_to_copy};
ghost use Rattle.dr_log.specs.Sizes.{IsSized};

use dr_state::{Answer, State};
use dr_types::Guest;

/// A page is zero in memory.
fn is_zero(guest: &Guest, state: &State, page: u32) -> bool
    requires { IsSized guest.now state.now }
    ensures { (past : List Event) → IsStateOf guest.now past state.now
        → page < page_count guest.now → result ≡ zero_page guest.now page past }
{
    page < state.protection.permissions.pages() && state.is_zero(page)
}

/// A page has this number, and is zero in memory.
fn is_zero_at(guest: &Guest, state: &State, page: u32, number: u64) -> bool
    requires { IsSized guest.now state.now }
    ensures { (past : List Event) → IsStateOf guest.now past state.now
        → page < page_count guest.now
        → result ≡ (page == number && zero_page guest.now page past) }
{
    u64::from(page) == number && is_zero(guest, state, page)
}

/// How many of these pages, from the first on, are zero and rise by one from a number on.
fn zeros_from(guest: &Guest, state: &State, first: u32, pages: &[u32]) -> usize
    requires { IsSized guest.now state.now }
    ensures { (past : List Event) → IsStateOf guest.now past state.now
        → All (λ page. page < page_count guest.now) pages.now
        → result ≡ zeros_from guest.now past first pages.now }
{
    for at in 0..pages.len() {
        if !is_zero_at(guest, state, pages[at], u64::from(first) + at as u64) {
            return at;
        }
    }
    pages.len()
}

/// What is left of an answer's pages once so many are copied.
fn left_of(answer: &Answer, copies: u64) -> &[u32]
    ensures { result.now ≡ drop copies answer.now.pages }
{
    let pages = answer.pages.as_slice();
    if copies < pages.len() as u64 {
        &pages[copies as usize..]
    } else {
        &[]
    }
}

/// How many pages of zeros are to be copied together, from a page on.
pub fn zeros_to_copy(guest: &Guest, state: &State, page: u32) -> u64
    requires { IsSized guest.now state.now }
    ensures { (past : List Event) → IsStateOf guest.now past state.now
        → result ≡ zeros_to_copy guest.now past page }
{
    match &state.rounds.answer {
        Some(answer) => {
            zeros_from(guest, state, page, left_of(answer, state.rounds.copies)) as u64
        }
        None => 0,
    }
}
