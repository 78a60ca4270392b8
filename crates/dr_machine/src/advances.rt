ghost use Rattle.std.specs.Prelude.{◌≡◌, IfOk, OnOk, OnErr};
ghost use Rattle.dr_turns.specs.Between.{AtTurnsEnd};
ghost use Rattle.dr_turns.specs.Due.{advanced};

use crate::seated::SeatedLog;
use dr_log_turns::advance;
use dr_ring::Name;
use dr_turns::Advance;
use dr_types::Memory;
use std::alloc::Global;

impl<N: Name> SeatedLog<N> {
    /// Makes the advance that is due. An `Err` changes no history, and comes for want of memory
    /// alone.
    pub(crate) fn advance(&mut self, alloc: Global, now: u64) -> Result<Advance, Memory>
        requires end { AtTurnsEnd N.guest self.old.past }
        ensures answer { IfOk result (λ a. a ≡ (advanced N.guest now self.old.past).0) }
        ensures appended { OnOk result (self.new.past ≡ (advanced N.guest now self.old.past).1) }
        ensures seats { self.new.seats ≡ self.old.seats }
        ensures past { OnErr result (self.new.past ≡ self.old.past) }
    {
        self.log.reserve(1)?;
        let due = advance(&mut self.log, alloc, now)?;
        self.log.recall_legal();
        Ok(due)
    }
}
