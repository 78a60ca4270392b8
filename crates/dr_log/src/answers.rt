ghost use Rattle.std.specs.Prelude.{◌≡◌, ◌<◌, ◌≤◌, ◌^◌, true, List, All, IfOk, length};
ghost use Rattle.dr_types.specs.Pages.{page_count};
ghost use Rattle.dr_history.specs.declared.event.Event.{Event};
ghost use Rattle.dr_history.specs.Dirty.{dirty_pages};
ghost use Rattle.dr_history.specs.Rules.{same_numbers, answers_covered, answers_dirty};
ghost use Rattle.dr_state.specs.Whole.{IsStateOf};
ghost use Rattle.dr_log.specs.Sizes.{IsSized};
ghost use Rattle.dr_bitmap.specs.Members.{members, least_from};
ghost use Rattle.dr_history.specs.Lookback.{is_number};

use dr_bitmap::Bitmap;
use dr_history::Event;
use dr_state::State;
use dr_types::{Guest, Listed, Memory, PageList};
use std::alloc::Global;

/// A number is the least member from another on.
fn comes_next(set: &Bitmap, from: u32, page: u32) -> bool
    ensures is { result ≡ is_number page (least_from from (members set.now)) }
    ensures within { result ≡ true → page < length set.now }
{
    match set.next_from(from) {
        Some(member) => member == page,
        None => false,
    }
}

/// These are the members, rising.
#[tactic(auto, using(crate::proofs::Sets::member_steps))]
fn are_members(pages: &[u32], set: &Bitmap) -> bool
    ensures { result ≡ same_numbers pages.now (members set.now) }
{
    let _recall_len = set.len();
    let mut from = 0;
    for at in 0..pages.len() {
        if !comes_next(set, from, pages[at]) {
            return false;
        }
        from = pages[at] + 1;
    }
    set.next_from(from).is_none()
}

/// These are the dirty pages, rising.
pub fn are_dirty(guest: &Guest, state: &State, pages: &[u32]) -> bool
    ensures { (past : List Event) → IsStateOf guest.now past state.now
        → result ≡ same_numbers pages.now (dirty_pages guest.now past) }
{
    are_members(pages, &state.protection.dirty)
}

/// The members, rising.
#[tactic(auto, using(dr_bitmap::proofs::Walks::walk_steps))]
fn member_list(alloc: Global, set: &Bitmap) -> Result<PageList, Memory>
    ensures { IfOk result (λ pages. pages ≡ members set.now) }
{
    let _recall_len = set.len();
    let mut pages = Listed::new(alloc);
    let mut from = 0;
    while let Some(page) = set.next_from(from) {
        pages.push(page)?;
        from = page + 1;
    }
    Ok(pages)
}

/// The dirty pages, rising.
pub fn dirty_numbers(guest: &Guest, state: &State, alloc: Global) -> Result<PageList, Memory>
    requires { IsSized guest.now state.now }
    ensures pages { (past : List Event) → IsStateOf guest.now past state.now
        → IfOk result (λ pages. pages ≡ dirty_pages guest.now past) }
    ensures small { IfOk result (λ pages. All (λ page. page < 2 ^ 32) pages) }
    ensures few { IfOk result (λ pages. length pages ≤ page_count guest.now) }
{
    member_list(alloc, &state.protection.dirty)
}
