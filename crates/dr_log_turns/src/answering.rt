ghost use Rattle.std.specs.Prelude.{◌≡◌, ◌<◌, ◌≤◌, ◌+◌, ◌^◌, false, Some, None, All, IfOk, OnOk};
ghost use Rattle.std.specs.Prelude.{OnErr};
ghost use Rattle.dr_types.specs.Scripts.{vcpu_count};
ghost use Rattle.dr_history.specs.Dirty.{dirty_pages};
ghost use Rattle.dr_history.specs.Rounds.{unanswered};
ghost use Rattle.dr_history.specs.Vcpus.{stopped};
ghost use Rattle.dr_turns.specs.Between.{AtTurnsEnd};
ghost use Rattle.dr_turns.specs.Due.{answered, answered_after, flushed_answer, some_closing};
ghost use Rattle.dr_turns.specs.Due.{throttled_after};
ghost use Rattle.dr_turns.specs.Firsts.{first_kicked, first_unreset};
ghost use Rattle.dr_log_turns.specs.Answered.{HasAnswered};

use crate::closings::is_closing;
use crate::searches::{first_kicked, first_unreset};
use dr_history::Event;
use dr_log::Log;
use dr_turns::Advance;
use dr_types::{Memory, PageList};
use std::alloc::Global;

/// Throttles each vCPU, in order.
fn throttle_vcpus(log: &mut Log)
    requires answered { HasAnswered log.old.guest log.old.past }
    requires quota { 1 ≤ log.old.guest.settings.quota }
    requires runs { stopped log.old.past ≡ false }
    requires events { vcpu_count log.old.guest ≤ log.old.room.events }
    ensures guest { log.new.guest ≡ log.old.guest }
    ensures past { let guest = log.old.guest in
        log.new.past ≡ throttled_after guest (vcpu_count guest) log.old.past }
{
    for v in 0..log.vcpus() {
        log.recall_legal();
        let us = log.throttle(v).us;
        log.take(Event::Throttled { v, us });
    }
}

/// Takes the answer of a round, and after it a throttle for each vCPU, where there is a quota and
/// the guest runs.
fn take_answer(log: &mut Log, r: u32, now: u64, pages: PageList, copy: PageList)
    requires end { AtTurnsEnd log.old.guest log.old.past }
    requires asked { unanswered log.old.past ≡ Some r }
    requires out { first_kicked log.old.guest log.old.past ≡ None }
    requires reset { first_unreset log.old.guest log.old.past ≡ None }
    requires flushed { some_closing log.old.guest log.old.past ≡ false }
    requires pages { pages ≡ dirty_pages log.old.guest log.old.past }
    requires copy { copy ≡ pages }
    requires small { All (λ page. page < 2 ^ 32) pages }
    requires events { 1 + vcpu_count log.old.guest ≤ log.old.room.events }
    ensures guest { log.new.guest ≡ log.old.guest }
    ensures past { log.new.past ≡ answered_after log.old.guest r now log.old.past }
{
    log.recall_legal();
    let throttled = log.guest().settings.quota >= 1 && !log.stopped();
    log.answer(r, now, pages, copy);
    if throttled {
        throttle_vcpus(log);
    }
}

/// Answers the round that was asked, where nothing is closing.
#[tactic(auto, using(dr_types::proofs::Copies::same_list))]
fn answer_flushed(log: &mut Log, alloc: Global, r: u32, now: u64) -> Result<Advance, Memory>
    requires end { AtTurnsEnd log.old.guest log.old.past }
    requires asked { unanswered log.old.past ≡ Some r }
    requires out { first_kicked log.old.guest log.old.past ≡ None }
    requires reset { first_unreset log.old.guest log.old.past ≡ None }
    ensures answer { IfOk result (λ a. a ≡ (flushed_answer log.old.guest now r log.old.past).0) }
    ensures past { OnOk result (log.new.past
        ≡ (flushed_answer log.old.guest now r log.old.past).1) }
    ensures guest { log.new.guest ≡ log.old.guest }
    ensures err { OnErr result (log.new.past ≡ log.old.past) }
{
    if is_closing(log) {
        return Ok(Advance::NotFlushed);
    }
    let _recall_few = log.guest();
    let pages = log.dirty_pages(alloc)?;
    let copy = pages.clone()?;
    log.reserve(1 + u64::from(log.vcpus()))?;
    let count = pages.len() as u32;
    take_answer(log, r, now, pages, copy);
    Ok(Advance::Answered { r, pages: count })
}

/// Answers the round that was asked, where all are out, all is reset and nothing is closing.
pub fn answer(log: &mut Log, alloc: Global, r: u32, now: u64) -> Result<Advance, Memory>
    requires end { AtTurnsEnd log.old.guest log.old.past }
    requires asked { unanswered log.old.past ≡ Some r }
    ensures answer { let guest = log.old.guest in let past = log.old.past in
        IfOk result (λ a. a ≡ (answered guest now r past (first_kicked guest past)).0) }
    ensures past { let guest = log.old.guest in let past = log.old.past in
        OnOk result (log.new.past ≡ (answered guest now r past (first_kicked guest past)).1) }
    ensures guest { log.new.guest ≡ log.old.guest }
    ensures err { OnErr result (log.new.past ≡ log.old.past) }
{
    match first_kicked(log) {
        Some(v) => Ok(Advance::NotOut { v }),
        None => match first_unreset(log) {
            Some(v) => Ok(Advance::NotReset {
                v,
                k: log.resets(v),
            }),
            None => answer_flushed(log, alloc, r, now),
        },
    }
}
