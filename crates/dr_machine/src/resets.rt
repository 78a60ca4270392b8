ghost use Rattle.std.specs.Prelude.{◌≡◌, ◌<◌, ◌≤◌, ◌∷◌, true};
ghost use Rattle.dr_types.specs.Scripts.{vcpu_count};
ghost use Rattle.dr_history.specs.declared.event.Event.{Event};
ghost use Rattle.dr_history.specs.Entries.{resets};
ghost use Rattle.dr_turns.specs.Between.{AtTurnsEnd};
ghost use Rattle.dr_turns.specs.Due.{some_closing};
ghost use Rattle.dr_turns_law.specs.Deposits.{next_deposited};

use crate::seated::SeatedLog;
use dr_history::Event;
use dr_log_turns::flush;
use dr_ring::Name;
use dr_ring_set::Rings;

impl<N: Name> SeatedLog<N> {
    /// Resets the vCPU's next entry, in its ring and as an event.
    #[tactic(auto, using(crate::proofs::Used::for_reset))]
    pub(crate) fn reset_next(&mut self, rings: &Rings<N>, v: u32)
        requires vcpu { v < vcpu_count N.guest }
        requires end { AtTurnsEnd N.guest self.old.past }
        requires deposited { next_deposited v self.old.past ≡ true }
        requires events { 1 ≤ self.old.room.events }
        requires room { 1 ≤ self.old.room.closing }
        ensures past { self.new.past ≡ Event.Reset v (resets v self.old.past) ∷ self.old.past }
        ensures end { AtTurnsEnd N.guest self.new.past }
    {
        self.recall_legal();
        let k = self.log.resets(v);
        // The entry that comes out of the ring decides nothing: which page is protected follows
        // from the events, and the type of the seats keeps that the ring has these events' entries.
        match self.seats.reset_next(rings, v) {
            Some(_) => self.log.take(Event::Reset { v, k }),
            None => unreachable!(),
        }
    }

    /// Drops all permissions that vCPUs have.
    #[tactic(auto, using(crate::proofs::Used::for_flush))]
    pub(crate) fn flush(&mut self)
        requires end { AtTurnsEnd N.guest self.old.past }
        requires closing { some_closing N.guest self.old.past ≡ true }
        requires events { 1 ≤ self.old.room.events }
        ensures past { self.new.past ≡ Event.Flushed ∷ self.old.past }
        ensures end { AtTurnsEnd N.guest self.new.past }
    {
        self.recall_legal();
        flush(&mut self.log);
    }
}
