ghost use Rattle.std.specs.Prelude.{◌≡◌};
ghost use Rattle.dr_history.specs.Rules.{reads_memory};

use dr_history::Event;
use dr_log::Log;
use dr_slots::page_of_address;

/// Rule 5: a Read gives what memory has.
#[tactic(auto, unfolding(dr_history::specs::Rules::reads_memory))]
pub fn reads_memory(log: &Log, e: &Event) -> bool
    ensures { result ≡ reads_memory log.now.guest log.now.past e.now }
{
    match e {
        Event::Read {
            space,
            addr,
            value,
            ..
        } => match page_of_address(log.guest(), *space, *addr) {
            Some(page) => *value == log.load(page, (*addr % 4096) as u32),
            None => false,
        },
        _ => true,
    }
}
