ghost use Rattle.std.specs.Prelude.{◌≡◌, ◌≤◌, true, None, IfOk, OnOk, OnErr};
ghost use Rattle.dr_history.specs.Protection.{started};
ghost use Rattle.dr_history.specs.Rounds.{unanswered};
ghost use Rattle.dr_turns.specs.Between.{AtTurnsEnd};
ghost use Rattle.dr_turns.specs.Due.{advanced, copied, page_to_copy};

use crate::answering::answer;
use crate::rounds::{copy_together, go_on};
use crate::starts::begin;
use dr_log::Log;
use dr_turns::Advance;
use dr_types::Memory;
use std::alloc::Global;

/// The advance that is due where all that was asked is answered.
fn copy_or_go_on(log: &mut Log) -> Result<Advance, Memory>
    requires end { AtTurnsEnd log.old.guest log.old.past }
    requires started { started log.old.past ≡ true }
    requires answered { unanswered log.old.past ≡ None }
    requires events { 1 ≤ log.old.room.events }
    ensures answer { let guest = log.old.guest in let past = log.old.past in
        IfOk result (λ a. a ≡ (copied guest past (page_to_copy guest past)).0) }
    ensures past { let guest = log.old.guest in let past = log.old.past in
        OnOk result (log.new.past ≡ (copied guest past (page_to_copy guest past)).1) }
    ensures guest { log.new.guest ≡ log.old.guest }
    ensures err { OnErr result (log.new.past ≡ log.old.past) }
{
    match log.page_to_copy() {
        Some(page) => copy_together(log, page),
        None => Ok(go_on(log)),
    }
}

/// The advance that is due.
#[tactic(auto, unfolding(dr_turns::specs::Due::advanced))]
pub fn advance(log: &mut Log, alloc: Global, now: u64) -> Result<Advance, Memory>
    requires end { AtTurnsEnd log.old.guest log.old.past }
    requires events { 1 ≤ log.old.room.events }
    ensures answer { IfOk result (λ a. a ≡ (advanced log.old.guest now log.old.past).0) }
    ensures past { OnOk result (log.new.past ≡ (advanced log.old.guest now log.old.past).1) }
    ensures guest { log.new.guest ≡ log.old.guest }
    ensures err { OnErr result (log.new.past ≡ log.old.past) }
{
    let started = log.started();
    let asked = log.unanswered();
    if started {
        match asked {
            Some(r) => answer(log, alloc, r, now),
            None => copy_or_go_on(log),
        }
    } else {
        Ok(begin(log, now))
    }
}
