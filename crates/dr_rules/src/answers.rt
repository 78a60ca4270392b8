ghost use Rattle.std.specs.Prelude.{◌≡◌};
ghost use Rattle.dr_history.specs.Rules.{answers_covered, answers_dirty};

use dr_history::Event;
use dr_log::Log;

/// Rule 20: an answer comes when all that was opened before it was asked is reset and flushed.
#[tactic(auto, unfolding(dr_history::specs::Rules::answers_covered))]
pub fn answers_covered(log: &Log, e: &Event) -> bool
    ensures { result ≡ answers_covered log.now.guest log.now.past e.now }
{
    match e {
        Event::Synced { r, .. } => {
            let kicked = log.some_kicked();
            let covered = log.all_covered();
            let closing = log.has_closing();
            log.unanswered() == Some(*r) && !kicked && covered && !closing
        }
        _ => true,
    }
}

/// Rule 21: an answer has exactly the dirty pages, rising.
#[tactic(auto, unfolding(dr_history::specs::Rules::answers_dirty))]
pub fn answers_dirty(log: &Log, e: &Event) -> bool
    ensures { result ≡ answers_dirty log.now.guest log.now.past e.now }
{
    match e {
        Event::Synced { pages, .. } => log.are_dirty(pages.as_slice()),
        _ => true,
    }
}
