//! The simulated migration of a guest, from the first operation to the switch-over.

ghost use Rattle.std.specs.Prelude.{◌≡◌, ◌≤◌, true, OnOk};
ghost use Rattle.dr_history.specs.Rules.{may_end};

use crate::asks::{
    dirty_pages, events, has_few, last_round, next_copy, rounds, throttle_us, vcpus,
};
use crate::rings::reap_all;
use crate::vcpus::{kick_all, turn};
use dr_core::{Core, CoreFault};
use dr_history::Event;
use dr_types::limits::{MOST_OPS, MOST_PAGES};
use std::alloc::Global;

/// How many operations a vCPU executes in its turn.
const TURN_OPS: u32 = 8;

/// How many pages are copied between two turns.
const TURN_COPIES: u32 = 64;

/// Copies pages of the last answer, at most so many.
fn copy(core: &mut Core, most: u32) -> Result<(), CoreFault> {
    let r = last_round(core);
    for _ in 0..most {
        match next_copy(core) {
            Some(page) => core.step(Event::Copied { r, page })?,
            None => return Ok(()),
        }
    }
    Ok(())
}

/// Tells each vCPU how long it is to sleep.
fn throttle_all(core: &mut Core) -> Result<(), CoreFault> {
    for v in 0..vcpus(core) {
        let us = throttle_us(core, v);
        core.step(Event::Throttled { v, us })?;
    }
    Ok(())
}

/// A round is asked, the vCPUs are kicked, the rings are emptied, and the round is answered with
/// all dirty pages. Time goes by a microsecond an event.
fn round(alloc: Global, core: &mut Core) -> Result<(), CoreFault> {
    let r = last_round(core).saturating_add(1);
    core.step(Event::Asked { r })?;
    kick_all(core)?;
    reap_all(core)?;
    let pages = dirty_pages(core, alloc)?;
    let at = events(core);
    core.step(Event::Synced { r, at, pages })
}

/// A round before the stop, after which the vCPUs are throttled.
fn live_round(alloc: Global, core: &mut Core) -> Result<(), CoreFault> {
    round(alloc, core)?;
    throttle_all(core)
}

/// The vCPUs go on while pages are copied: one turn, and more up to this number of events or the
/// end of all scripts. Then the last pages are copied.
fn span(core: &mut Core, wanted: u64) -> Result<(), CoreFault> {
    for _ in 0..MOST_OPS {
        let before = events(core);
        turn(core, TURN_OPS)?;
        copy(core, TURN_COPIES)?;
        let after = events(core);
        if after >= wanted || after == before {
            break;
        }
    }
    copy(core, MOST_PAGES)
}

/// How many events there are to be when a round is asked: each round after the first and before
/// the last has the same share.
fn share(wanted: u32, r: u32, last: u32) -> u64
    requires { 2 ≤ last }
{
    u64::from(wanted) * u64::from(r) / u64::from(last - 1)
}

/// The rounds after the first and before the last, up to an answer with few pages.
fn middle_rounds(alloc: Global, core: &mut Core, wanted: u32) -> Result<(), CoreFault> {
    let last = rounds(core);
    for r in 2..last {
        span(core, share(wanted, r, last))?;
        live_round(alloc, core)?;
        if has_few(core) {
            break;
        }
    }
    Ok(())
}

/// The last round before the stop: each vCPU executes one operation, so that few pages are dirty.
fn few_round(alloc: Global, core: &mut Core) -> Result<(), CoreFault> {
    copy(core, MOST_PAGES)?;
    turn(core, 1)?;
    live_round(alloc, core)
}

/// The guest is stopped, its last pages are copied, and it switches over.
fn switch_over(alloc: Global, core: &mut Core) -> Result<(), CoreFault> {
    core.step(Event::Stopped)?;
    round(alloc, core)?;
    copy(core, MOST_PAGES)?;
    core.step(Event::Switched)
}

/// A whole migration of so many events and a few more. Where the scripts end before that it has
/// fewer.
pub fn migrate(alloc: Global, core: &mut Core, wanted: u32) -> Result<(), CoreFault>
    ensures { OnOk result (may_end core.new.guest core.new.past ≡ true) }
{
    turn(core, TURN_OPS)?;
    core.step(Event::Start { at: 0 })?;
    live_round(alloc, core)?;
    middle_rounds(alloc, core, wanted)?;
    if !has_few(core) {
        few_round(alloc, core)?;
    }
    switch_over(alloc, core)?;
    core.close()
}
