ghost use Rattle.std.specs.Prelude.{◌≡◌};
ghost use Rattle.dr_history.specs.Rules.{asks_in_turn, copies_next, stops_when_few};
ghost use Rattle.dr_history.specs.Rules.{switches_when_copied};

use dr_history::Event;
use dr_log::Log;

/// Rule 19: rounds are asked in turn, one of them after the stop.
#[tactic(auto, unfolding(dr_history::specs::Rules::asks_in_turn))]
pub fn asks_in_turn(log: &Log, e: &Event) -> bool
    ensures { result ≡ asks_in_turn log.now.guest log.now.past e.now }
{
    match e {
        Event::Asked { r } => {
            let copied = log.round_copied();
            let paced = log.all_paced_recently();
            let may = if log.stopped() {
                !log.asked_since_stop()
            } else {
                *r <= log.guest().settings.rounds && (*r < 2 || (copied && paced))
            };
            log.started()
                && *r > 0
                && u64::from(*r - 1) == log.asks()
                && log.unanswered().is_none()
                && may
        }
        _ => true,
    }
}

/// Rule 23: a Copied is of the next page of the open round.
#[tactic(auto, unfolding(dr_history::specs::Rules::copies_next))]
pub fn copies_next(log: &Log, e: &Event) -> bool
    ensures { result ≡ copies_next log.now.guest log.now.past e.now }
{
    match e {
        Event::Copied { r, page } => {
            let next = log.is_next_copy(*r, *page);
            log.unanswered().is_none() && next
        }
        _ => true,
    }
}

/// Rule 24: the guest is stopped once, when few pages are left.
#[tactic(auto, unfolding(dr_history::specs::Rules::stops_when_few))]
pub fn stops_when_few(log: &Log, e: &Event) -> bool
    ensures { result ≡ stops_when_few log.now.guest log.now.past e.now }
{
    match e {
        Event::Stopped => { !log.stopped() && log.unanswered().is_none() && log.few_answered() }
        _ => true,
    }
}

/// Rule 25: the guest switches over when the round after the stop is copied.
#[tactic(auto, unfolding(dr_history::specs::Rules::switches_when_copied))]
pub fn switches_when_copied(log: &Log, e: &Event) -> bool
    ensures { result ≡ switches_when_copied log.now.guest log.now.past e.now }
{
    match e {
        Event::Switched => {
            let copied = log.round_copied();
            log.stopped() && log.synced_since_stop() && log.unanswered().is_none() && copied
        }
        _ => true,
    }
}
