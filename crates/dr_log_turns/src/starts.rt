ghost use Rattle.std.specs.Prelude.{◌≡◌, ◌≤◌, false};
ghost use Rattle.dr_history.specs.Protection.{started};
ghost use Rattle.dr_turns.specs.Between.{AtTurnsEnd};
ghost use Rattle.dr_turns.specs.Due.{begun};
ghost use Rattle.dr_turns.specs.Firsts.{first_unpaced};

use crate::searches::first_unpaced;
use dr_history::Event;
use dr_log::Log;
use dr_turns::Advance;

/// Logging begins, where each vCPU is paced.
#[tactic(auto, using(dr_turns_law::proofs::Starting::start_follows))]
pub fn begin(log: &mut Log, now: u64) -> Advance
    requires end { AtTurnsEnd log.old.guest log.old.past }
    requires fresh { started log.old.past ≡ false }
    requires events { 1 ≤ log.old.room.events }
    ensures answer { let found = first_unpaced log.old.guest log.old.past log.old.past in
        result ≡ (begun now log.old.past found).0 }
    ensures past { let found = first_unpaced log.old.guest log.old.past log.old.past in
        log.new.past ≡ (begun now log.old.past found).1 }
    ensures guest { log.new.guest ≡ log.old.guest }
{
    match first_unpaced(log) {
        Some(v) => Advance::NotPaced {
            v,
            done: log.next_number(v),
        },
        None => {
            log.recall_legal();
            log.take(Event::Start { at: now });
            Advance::Started
        }
    }
}
