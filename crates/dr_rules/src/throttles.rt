ghost use Rattle.std.specs.Prelude.{◌≡◌, reverse};
ghost use Rattle.dr_history.specs.Rules.{throttles_due, may_end, owes_write};
ghost use Rattle.dr_rules.specs.Named.{IsNamed};

use dr_history::Event;
use dr_log::Log;

/// Rule 22: a Throttled comes exactly where it is due, as long as the formula says.
#[tactic(auto, unfolding(dr_history::specs::Rules::throttles_due))]
pub fn throttles_due(log: &Log, e: &Event) -> bool
    requires { IsNamed log.now.guest e.now }
    ensures { result ≡ throttles_due log.now.guest log.now.past e.now }
{
    match log.throttle_due() {
        Some(v) => match e {
            Event::Throttled { v: w, us } => {
                u64::from(*w) == v && log.guest().settings.quota >= 1 && *us == log.throttle(*w).us
            }
            _ => false,
        },
        None => !matches!(e, Event::Throttled { .. }),
    }
}

/// Rule 26: no write and no throttle is owed.
pub fn may_end(log: &Log) -> bool
    ensures { result ≡ may_end log.now.guest log.now.past }
{
    let due = log.throttle_due();
    let owes = matches!(
        log.events().last(),
        Some(Event::Opened { .. } | Event::Filled { .. })
    );
    !owes && due.is_none()
}
