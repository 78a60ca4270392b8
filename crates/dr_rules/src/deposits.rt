ghost use Rattle.std.specs.Prelude.{◌≡◌};
ghost use Rattle.dr_history.specs.Rules.{deposits_pushed, resets_deposited};
ghost use Rattle.dr_rules.specs.Named.{IsNamed};

use dr_history::Event;
use dr_log::Log;

/// Rule 15: a Deposited has pushed numbers, each for the first time.
#[tactic(auto, unfolding(dr_history::specs::Rules::deposits_pushed))]
pub fn deposits_pushed(log: &Log, e: &Event) -> bool
    requires { IsNamed log.now.guest e.now }
    ensures { result ≡ deposits_pushed log.now.guest log.now.past e.now }
{
    match e {
        Event::Deposited { v, from, to } => {
            let pushes = log.pushes(*v);
            if *from < *to && *to <= pushes {
                !log.some_deposited(*v, *from, *to)
            } else {
                false
            }
        }
        _ => true,
    }
}

/// Rule 16: a Reset is of the next entry, which was deposited.
#[tactic(auto, unfolding(dr_history::specs::Rules::resets_deposited))]
pub fn resets_deposited(log: &Log, e: &Event) -> bool
    requires { IsNamed log.now.guest e.now }
    ensures { result ≡ resets_deposited log.now.guest log.now.past e.now }
{
    match e {
        Event::Reset { v, k } => {
            let resets = log.resets(*v);
            let deposited = log.deposited(*v, *k);
            *k == resets && deposited
        }
        _ => true,
    }
}
