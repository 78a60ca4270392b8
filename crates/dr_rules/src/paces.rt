ghost use Rattle.std.specs.Prelude.{◌≡◌};
ghost use Rattle.dr_history.specs.Rules.{flush_has_cause, starts_paced};

use dr_history::Event;
use dr_log::Log;

/// Rule 17: a flush comes where a page is closing.
#[tactic(auto, unfolding(dr_history::specs::Rules::flush_has_cause))]
pub fn flush_has_cause(log: &Log, e: &Event) -> bool
    ensures { result ≡ flush_has_cause log.now.guest log.now.past e.now }
{
    match e {
        Event::Flushed => log.has_closing(),
        _ => true,
    }
}

/// Rule 18: logging starts once, when each vCPU is paced.
#[tactic(auto, unfolding(dr_history::specs::Rules::starts_paced))]
pub fn starts_paced(log: &Log, e: &Event) -> bool
    ensures { result ≡ starts_paced log.now.guest log.now.past e.now }
{
    match e {
        Event::Start { .. } => {
            let paced = log.all_paced();
            !log.started() && paced
        }
        _ => true,
    }
}
