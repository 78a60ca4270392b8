ghost use Rattle.std.specs.Prelude.{◌≡◌, ◌≤◌, ◌∷◌, true};
ghost use Rattle.dr_history.specs.declared.event.Event.{Event};
ghost use Rattle.dr_turns.specs.Between.{AtTurnsEnd};
ghost use Rattle.dr_turns.specs.Due.{some_closing};

use dr_history::Event;
use dr_log::Log;

/// Some page was reset and waits for a flush.
#[tactic(auto, unfolding(dr_turns::specs::Due::some_closing))]
pub fn is_closing(log: &Log) -> bool
    ensures { result ≡ some_closing log.now.guest log.now.past }
{
    log.has_closing()
}

/// Drops all permissions that vCPUs have.
#[tactic(auto, using(dr_turns_law::proofs::Flushing::flush_follows))]
pub fn flush(log: &mut Log)
    requires end { AtTurnsEnd log.old.guest log.old.past }
    requires closing { some_closing log.old.guest log.old.past ≡ true }
    requires events { 1 ≤ log.old.room.events }
    ensures past { log.new.past ≡ Event.Flushed ∷ log.old.past }
    ensures guest { log.new.guest ≡ log.old.guest }
{
    log.recall_legal();
    log.take(Event::Flushed);
}
