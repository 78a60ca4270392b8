ghost use Rattle.std.specs.Prelude.{◌≡◌, ◌++◌, true, Option};
ghost use Rattle.dr_history.specs.Legality.{broken, first_failing};
ghost use Rattle.dr_history.specs.Rules.{write_follows, names_exist};
ghost use Rattle.dr_rules.specs.Named.{IsNamed};
ghost use Rattle.dr_rules.specs.Judging.{execution_rules, ring_rules, round_rules};

use crate::answers::{answers_covered, answers_dirty};
use crate::deposits::{deposits_pushed, resets_deposited};
use crate::execution::{
    follows_script, not_switched, op_before_stop, op_has_buffer, op_has_room, op_not_kicked,
};
use crate::memory::reads_memory;
use crate::names::{names_exist, write_follows};
use crate::paces::{flush_has_cause, starts_paced};
use crate::protection::{
    exits_with_reason, fills_writable, opens_protected, pushes_next, write_is_cached,
};
use crate::rounds::{asks_in_turn, copies_next, stops_when_few, switches_when_copied};
use crate::throttles::throttles_due;
use dr_history::Event;
use dr_log::Log;

/// The least rule that an event breaks after those of the log.
#[tactic(auto, using(crate::proofs::Tests::named))]
pub fn broken(log: &Log, e: &Event) -> Option<u32>
    ensures { result ≡ broken log.now.guest log.now.past e.now }
{
    if !write_follows(log, e) {
        return Some(1);
    }
    if !names_exist(log, e) {
        return Some(2);
    }
    broken_of_named(log, e)
}

/// The least rule that an event breaks whose names exist.
#[tactic(auto, using(crate::proofs::Groups::breaks_execution, crate::proofs::Groups::breaks_later))]
fn broken_of_named(log: &Log, e: &Event) -> Option<u32>
    requires follows { write_follows log.now.guest log.now.past e.now ≡ true }
    requires exist { names_exist log.now.guest log.now.past e.now ≡ true }
    requires named { IsNamed log.now.guest e.now }
    ensures { result ≡ broken log.now.guest log.now.past e.now }
{
    match broken_in_execution(log, e) {
        Some(rule) => Some(rule),
        None => broken_later(log, e),
    }
}

/// The least of rules 3 to 9 that an event breaks.
fn broken_in_execution(log: &Log, e: &Event) -> Option<u32>
    requires named { IsNamed log.now.guest e.now }
    ensures { result ≡ first_failing 3 (execution_rules log.now.guest log.now.past e.now) }
{
    if !not_switched(log, e) {
        return Some(3);
    }
    if !follows_script(log, e) {
        return Some(4);
    }
    if !reads_memory(log, e) {
        return Some(5);
    }
    if !op_before_stop(log, e) {
        return Some(6);
    }
    if !op_not_kicked(log, e) {
        return Some(7);
    }
    if !op_has_room(log, e) {
        return Some(8);
    }
    if !op_has_buffer(log, e) {
        return Some(9);
    }
    None
}

/// The least rule from 10 on that an event breaks.
#[tactic(auto, using(crate::proofs::Groups::breaks_ring, crate::proofs::Groups::breaks_round))]
fn broken_later(log: &Log, e: &Event) -> Option<u32>
    requires named { IsNamed log.now.guest e.now }
    ensures { let past = log.now.past in
        result ≡ first_failing 10
        (ring_rules log.now.guest past e.now ++ round_rules log.now.guest past e.now) }
{
    match broken_on_rings(log, e) {
        Some(rule) => Some(rule),
        None => broken_in_rounds(log, e),
    }
}

/// The least of rules 10 to 17 that an event breaks.
fn broken_on_rings(log: &Log, e: &Event) -> Option<u32>
    requires named { IsNamed log.now.guest e.now }
    ensures { result ≡ first_failing 10 (ring_rules log.now.guest log.now.past e.now) }
{
    if !write_is_cached(log, e) {
        return Some(10);
    }
    if !opens_protected(log, e) {
        return Some(11);
    }
    if !fills_writable(log, e) {
        return Some(12);
    }
    if !pushes_next(log, e) {
        return Some(13);
    }
    if !exits_with_reason(log, e) {
        return Some(14);
    }
    if !deposits_pushed(log, e) {
        return Some(15);
    }
    if !resets_deposited(log, e) {
        return Some(16);
    }
    if !flush_has_cause(log, e) {
        return Some(17);
    }
    None
}

/// The least of rules 18 to 25 that an event breaks.
fn broken_in_rounds(log: &Log, e: &Event) -> Option<u32>
    requires named { IsNamed log.now.guest e.now }
    ensures { result ≡ first_failing 18 (round_rules log.now.guest log.now.past e.now) }
{
    if !starts_paced(log, e) {
        return Some(18);
    }
    if !asks_in_turn(log, e) {
        return Some(19);
    }
    if !answers_covered(log, e) {
        return Some(20);
    }
    if !answers_dirty(log, e) {
        return Some(21);
    }
    if !throttles_due(log, e) {
        return Some(22);
    }
    if !copies_next(log, e) {
        return Some(23);
    }
    if !stops_when_few(log, e) {
        return Some(24);
    }
    if !switches_when_copied(log, e) {
        return Some(25);
    }
    None
}
