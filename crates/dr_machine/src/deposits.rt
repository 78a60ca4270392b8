ghost use Rattle.std.specs.Prelude.{◌≡◌, ◌<◌, ◌≤◌, ◌∷◌, ◌+◌, None, length};
ghost use Rattle.dr_history.specs.declared.event.Event.{Event};
ghost use Rattle.dr_turns.specs.Between.{AtTurnsEnd};
ghost use Rattle.dr_turns_law.specs.Deposits.{first_twice};

use crate::seated::SeatedLog;
use dr_history::Event;
use dr_ring::Name;
use dr_ring_set::{Batch, Rings};

/// Why a batch wasn't deposited. It is handed back.
#[derive(Drop)]
pub enum DepositFault<N: Name> {
    /// The entry of this number was deposited before, and none of the batch before it.
    Twice { batch: Batch<N>, k: u64 },
    /// There is no memory.
    Memory { batch: Batch<N> },
}

impl<N: Name> SeatedLog<N> {
    /// Deposits a batch of which no entry was deposited before: its vCPU's seat learns that they
    /// were harvested.
    pub(crate) fn deposit_fresh(&mut self, rings: &Rings<N>, batch: Batch<N>)
        requires end { AtTurnsEnd N.guest self.old.past }
        requires some { 0 < length batch.entries }
        requires fresh { let to = batch.first + length batch.entries in
            first_twice batch.vcpu batch.first self.old.past to ≡ None }
        requires events { 1 ≤ self.old.room.events }
        ensures past { let to = batch.first + length batch.entries in
            self.new.past ≡ Event.Deposited batch.vcpu batch.first to ∷ self.old.past }
        ensures end { AtTurnsEnd N.guest self.new.past }
    {
        self.recall_legal();
        let Batch {
            vcpu,
            first,
            entries,
            note,
            name: _,
        } = batch;
        let to = first + entries.len() as u64;
        // The entries stay in the ring, and the batch's own copies go: the seat now knows that
        // these numbers were harvested, so a reset finds each of them, and the list of events has
        // the rest.
        self.seats.learn(rings, vcpu, note);
        self.log.take(Event::Deposited {
            v: vcpu,
            from: first,
            to,
        });
    }
}
