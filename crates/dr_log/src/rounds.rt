ghost use Rattle.std.specs.Prelude.{◌≡◌, ◌<◌, ◌==◌, ◌&&◌, nat_le, if◌then◌else◌, List, slice_get};
ghost use Rattle.std.specs.Prelude.{length, None};
ghost use Rattle.dr_history.specs.declared.event.Event.{Event};
ghost use Rattle.dr_history.specs.Lookback.{since, is_number};
ghost use Rattle.dr_history.specs.Kinds.{is_synced};
ghost use Rattle.dr_history.specs.Rounds.{last_synced, few_answered, round_copied, is_next_copy};
ghost use Rattle.dr_history.specs.Rules.{asks_in_turn, copies_next, stops_when_few};
ghost use Rattle.dr_history.specs.Rules.{switches_when_copied};
ghost use Rattle.dr_history_law.specs.Copies.{copies, pages_of};
ghost use Rattle.dr_state.specs.Rounds.{rounds_of};
ghost use Rattle.dr_state.specs.Whole.{IsStateOf};
ghost use Rattle.dr_turns.specs.Due.{page_to_copy, round_of};
ghost use Rattle.dr_log.specs.Answered.{answered_count};

use dr_history::Event;
use dr_state::{Answer, Rounds, State};
use dr_types::Guest;

/// So many copies are all of an open round.
fn is_copied(answer: &Answer, copies: u64) -> bool
    ensures { result ≡ (answer.now.opens && nat_le (length answer.now.pages) copies) }
{
    answer.opens && answer.pages.len() as u64 <= copies
}

/// The last answer opened a round, each page of which is copied since.
pub fn round_copied(guest: &Guest, state: &State) -> bool
    ensures { (past : List Event) → IsStateOf guest.now past state.now
        → result ≡ round_copied guest.now (last_synced past) (since is_synced past) }
{
    match &state.rounds.answer {
        Some(answer) => is_copied(answer, state.rounds.copies),
        None => false,
    }
}

fn at(numbers: &[u32], at: usize) -> Option<u32>
    ensures { result ≡ slice_get numbers.now at }
{
    numbers.get(at).copied()
}

/// The page stands at a place of an open round of this number.
fn is_copied_next(answer: &Answer, copies: u64, r: u32, page: u32) -> bool
    ensures { let next = slice_get answer.now.pages copies in
        result ≡ (answer.now.round == r && answer.now.opens && is_number page next) }
{
    let next = at(answer.pages.as_slice(), copies as usize);
    answer.round == r && answer.opens && next == Some(page)
}

/// The page is the next that the open round of this number has to copy.
pub fn is_next_copy(guest: &Guest, state: &State, r: u32, page: u32) -> bool
    ensures { (past : List Event) → IsStateOf guest.now past state.now
        → result ≡ is_next_copy guest.now r page (last_synced past) (since is_synced past) }
{
    match &state.rounds.answer {
        Some(answer) => is_copied_next(answer, state.rounds.copies, r, page),
        None => false,
    }
}

/// The page of the last answer that is to be copied next.
pub fn next_copied(guest: &Guest, state: &State) -> Option<u32>
    ensures { (past : List Event) → IsStateOf guest.now past state.now
        → result ≡ slice_get (pages_of (last_synced past)) (copies past) }
{
    match &state.rounds.answer {
        Some(answer) => at(answer.pages.as_slice(), state.rounds.copies as usize),
        None => None,
    }
}

/// The page at a place of an open round.
fn left_at(answer: &Answer, copies: u64) -> Option<u32>
    ensures { result ≡ (if answer.now.opens then slice_get answer.now.pages copies else None) }
{
    if answer.opens {
        at(answer.pages.as_slice(), copies as usize)
    } else {
        None
    }
}

/// The page of the open round that is to be copied next.
pub fn next_to_copy(guest: &Guest, state: &State) -> Option<u32>
    ensures { (past : List Event) → IsStateOf guest.now past state.now
        → result ≡ page_to_copy guest.now past }
{
    match &state.rounds.answer {
        Some(answer) => left_at(answer, state.rounds.copies),
        None => None,
    }
}

/// The number of the last answer.
pub fn answered_round(guest: &Guest, state: &State) -> u32
    ensures { (past : List Event) → IsStateOf guest.now past state.now
        → result ≡ round_of (last_synced past) }
{
    match &state.rounds.answer {
        Some(answer) => answer.round,
        None => 0,
    }
}

/// How many pages the last answer has.
pub fn answered_count(guest: &Guest, state: &State) -> Option<u64>
    ensures { (past : List Event) → IsStateOf guest.now past state.now
        → result ≡ answered_count (last_synced past) }
{
    match &state.rounds.answer {
        Some(answer) => Some(answer.pages.len() as u64),
        None => None,
    }
}

/// The last answer has at most threshold pages.
pub fn few_answered(guest: &Guest, rounds: &Rounds) -> bool
    ensures { (past : List Event) → rounds.now ≡ rounds_of guest.now past
        → result ≡ few_answered guest.now (last_synced past) }
{
    match &rounds.answer {
        Some(answer) => answer.pages.len() <= guest.settings.threshold as usize,
        None => false,
    }
}
