ghost use Rattle.std.specs.Prelude.{◌≡◌, ◌≤◌, ◌<◌, ◌+◌, ◌∷◌, true, false, None, Some};
ghost use Rattle.std.specs.Prelude.{IfOk, OnOk, OnErr};
ghost use Rattle.std.specs.List.{list_any};
ghost use Rattle.dr_history.specs.declared.event.Event.{Event};
ghost use Rattle.dr_history.specs.Kinds.{is_switched};
ghost use Rattle.dr_history.specs.Protection.{started};
ghost use Rattle.dr_history.specs.Rounds.{asks, unanswered, last_synced, few_answered};
ghost use Rattle.dr_history.specs.Vcpus.{stopped};
ghost use Rattle.dr_event_law.specs.May.{MayFollow};
ghost use Rattle.dr_turns.specs.Between.{AtTurnsEnd};
ghost use Rattle.dr_turns.specs.Due.{after_copies, after_stop, asked, copied, copies_from};
ghost use Rattle.dr_turns.specs.Due.{next_round, page_to_copy, round_of, zeros_to_copy};

use crate::searches::first_unpaced_recently;
use dr_history::Event;
use dr_log::Log;
use dr_turns::Advance;
use dr_types::Memory;

/// Copies the page of the open round that is next.
fn copy(log: &mut Log, page: u32) -> Advance
    requires end { AtTurnsEnd log.old.guest log.old.past }
    requires answered { unanswered log.old.past ≡ None }
    requires page_to_copy { page_to_copy log.old.guest log.old.past ≡ Some page }
    requires events { 1 ≤ log.old.room.events }
    ensures answer { result ≡ Advance.Copied (round_of (last_synced log.old.past)) page }
    ensures past { let r = round_of (last_synced log.old.past) in
        log.new.past ≡ Event.Copied r page ∷ log.old.past }
    ensures guest { log.new.guest ≡ log.old.guest }
    ensures events { log.old.room.events ≤ log.new.room.events + 1 }
{
    log.recall_legal();
    let r = log.answered_round();
    log.take(Event::Copied { r, page });
    Advance::Copied { r, page }
}

/// Copies so many pages of the open round, from the next one on, each of which is zero.
fn copy_each(log: &mut Log, first: u32, count: u32)
    requires end { AtTurnsEnd log.old.guest log.old.past }
    requires started { started log.old.past ≡ true }
    requires answered { unanswered log.old.past ≡ None }
    requires page_to_copy { page_to_copy log.old.guest log.old.past ≡ Some first }
    requires zeros { zeros_to_copy log.old.guest log.old.past first ≡ count }
    requires events { count ≤ log.old.room.events }
    ensures past { let r = round_of (last_synced log.old.past) in
        log.new.past ≡ copies_from r first count log.old.past }
    ensures guest { log.new.guest ≡ log.old.guest }
{
    log.recall_legal();
    let _recall_few = log.guest();
    for k in 0..count {
        let _copied = copy(log, first + k);
    }
}

/// Copies so many pages of the open round together, from the next one on, each of which is zero.
/// All memory is made first.
fn copy_zeros(log: &mut Log, first: u32, count: u64) -> Result<Advance, Memory>
    requires end { AtTurnsEnd log.old.guest log.old.past }
    requires started { started log.old.past ≡ true }
    requires answered { unanswered log.old.past ≡ None }
    requires page_to_copy { page_to_copy log.old.guest log.old.past ≡ Some first }
    requires zeros { zeros_to_copy log.old.guest log.old.past first ≡ count }
    requires some { 1 ≤ count }
    ensures answer { let r = round_of (last_synced log.old.past) in
        IfOk result (λ a. a ≡ Advance.Blank r first count) }
    ensures past { let r = round_of (last_synced log.old.past) in
        OnOk result (log.new.past ≡ copies_from r first count log.old.past) }
    ensures guest { log.new.guest ≡ log.old.guest }
    ensures err { OnErr result (log.new.past ≡ log.old.past) }
{
    log.recall_legal();
    let _recall_few = log.guest();
    log.reserve(count)?;
    let r = log.answered_round();
    let count = count as u32;
    copy_each(log, first, count);
    Ok(Advance::Blank { r, first, count })
}

/// Copies the page of the open round that is next, or where it is zero, as many pages as are zero
/// from there on and rise by one.
pub fn copy_together(log: &mut Log, page: u32) -> Result<Advance, Memory>
    requires end { AtTurnsEnd log.old.guest log.old.past }
    requires started { started log.old.past ≡ true }
    requires answered { unanswered log.old.past ≡ None }
    requires page_to_copy { page_to_copy log.old.guest log.old.past ≡ Some page }
    requires events { 1 ≤ log.old.room.events }
    ensures answer { let guest = log.old.guest in let past = log.old.past in
        IfOk result (λ a. a ≡ (copied guest past (Some page)).0) }
    ensures past { let guest = log.old.guest in let past = log.old.past in
        OnOk result (log.new.past ≡ (copied guest past (Some page)).1) }
    ensures guest { log.new.guest ≡ log.old.guest }
    ensures err { OnErr result (log.new.past ≡ log.old.past) }
{
    let count = log.zeros_to_copy(page);
    if count == 0 {
        Ok(copy(log, page))
    } else {
        copy_zeros(log, page, count)
    }
}

/// Asks the next round.
fn ask(log: &mut Log) -> Advance
    requires follows { MayFollow log.old.guest log.old.past (Event.Asked (asks log.old.past + 1)) }
    requires events { 1 ≤ log.old.room.events }
    ensures answer { result ≡ (asked log.old.past).0 }
    ensures past { log.new.past ≡ (asked log.old.past).1 }
    ensures guest { log.new.guest ≡ log.old.guest }
{
    log.recall_legal();
    let r = log.asks() as u32 + 1;
    log.take(Event::Asked { r });
    Advance::Asked { r }
}

/// After the stop the last round is asked, and after its copies the guest switches over.
#[tactic(auto, using(crate::proofs::Used::for_go_on_stopped))]
fn go_on_stopped(log: &mut Log) -> Advance
    requires end { AtTurnsEnd log.old.guest log.old.past }
    requires answered { unanswered log.old.past ≡ None }
    requires page_to_copy { page_to_copy log.old.guest log.old.past ≡ None }
    requires here { list_any is_switched log.old.past ≡ false }
    requires stopped { stopped log.old.past ≡ true }
    requires events { 1 ≤ log.old.room.events }
    ensures answer { result ≡ (after_stop log.old.past).0 }
    ensures past { log.new.past ≡ (after_stop log.old.past).1 }
    ensures guest { log.new.guest ≡ log.old.guest }
{
    log.recall_legal();
    if log.asked_since_stop() {
        log.take(Event::Switched);
        Advance::Switched
    } else {
        ask(log)
    }
}

/// Stops the guest.
#[tactic(auto, using(dr_turns_law::proofs::Going::stop_follows))]
fn stop(log: &mut Log) -> Advance
    requires end { AtTurnsEnd log.old.guest log.old.past }
    requires answered { unanswered log.old.past ≡ None }
    requires here { list_any is_switched log.old.past ≡ false }
    requires runs { stopped log.old.past ≡ false }
    requires few { few_answered log.old.guest (last_synced log.old.past) ≡ true }
    requires events { 1 ≤ log.old.room.events }
    ensures answer { result ≡ Advance.Stopping }
    ensures past { log.new.past ≡ Event.Stopped ∷ log.old.past }
    ensures guest { log.new.guest ≡ log.old.guest }
{
    log.recall_legal();
    log.take(Event::Stopped);
    Advance::Stopping
}

/// Asks the next round, where each vCPU is paced since the last one.
#[tactic(auto, using(crate::proofs::Used::for_ask_next))]
fn ask_next(log: &mut Log) -> Advance
    requires end { AtTurnsEnd log.old.guest log.old.past }
    requires started { started log.old.past ≡ true }
    requires answered { unanswered log.old.past ≡ None }
    requires page_to_copy { page_to_copy log.old.guest log.old.past ≡ None }
    requires here { list_any is_switched log.old.past ≡ false }
    requires runs { stopped log.old.past ≡ false }
    requires many { few_answered log.old.guest (last_synced log.old.past) ≡ false }
    requires more { asks log.old.past < log.old.guest.settings.rounds }
    requires events { 1 ≤ log.old.room.events }
    ensures answer { result ≡ (next_round log.old.guest log.old.past).0 }
    ensures past { log.new.past ≡ (next_round log.old.guest log.old.past).1 }
    ensures guest { log.new.guest ≡ log.old.guest }
{
    log.recall_legal();
    if log.asks() == 0 {
        return ask(log);
    }
    match first_unpaced_recently(log) {
        None => ask(log),
        Some(v) => Advance::NotPaced {
            v,
            done: log.recent_ops(v) as u32,
        },
    }
}

/// What is due where nothing is left to copy.
pub fn go_on(log: &mut Log) -> Advance
    requires end { AtTurnsEnd log.old.guest log.old.past }
    requires started { started log.old.past ≡ true }
    requires answered { unanswered log.old.past ≡ None }
    requires page_to_copy { page_to_copy log.old.guest log.old.past ≡ None }
    requires events { 1 ≤ log.old.room.events }
    ensures answer { result ≡ (after_copies log.old.guest log.old.past).0 }
    ensures past { log.new.past ≡ (after_copies log.old.guest log.old.past).1 }
    ensures guest { log.new.guest ≡ log.old.guest }
{
    let switched = log.switched();
    let stopped = log.stopped();
    let few = log.few_answered();
    let more = log.asks() < u64::from(log.guest().settings.rounds);
    if switched {
        Advance::Finished
    } else if stopped {
        go_on_stopped(log)
    } else if few {
        stop(log)
    } else if more {
        ask_next(log)
    } else {
        Advance::Budget
    }
}
