ghost use Rattle.std.specs.Prelude.{◌≡◌, ◌<◌, ◌≤◌, [], map, length, IfOk, OnOk};
ghost use Rattle.dr_types.specs.Scripts.{vcpu_count};
ghost use Rattle.dr_types.specs.Validity.{IsValid};
ghost use Rattle.dr_history.specs.Legality.{IsLegalSoFar};
ghost use Rattle.dr_ring.specs.Seats.{new_kernel};
ghost use Rattle.dr_seat_law.specs.Seats.{AreSeats};
ghost use Rattle.dr_machine.specs.Answers.{IsNoteOf};
ghost use Rattle.dr_machine.specs.Tied.{AreRingsFor};

use dr_history::History;
use dr_log::Log;
use dr_ring::{Name, Note};
use dr_ring_set::{KernelSeatList, KernelSeats, Rings};
use dr_slots::Slots;
use dr_types::{Guest, Memory};
use std::alloc::Global;
use std::marker::Model;

/// A log of the guest that the name fixes, with the kernel seats of its rings. Its type keeps that
/// each seat has pushed and reset what the events say.
#[derive(Drop)]
pub(crate) struct SeatedLog<N: Name> {
    pub(crate) log: Log,
    pub(crate) seats: KernelSeats<N>,
    pub(crate) slots: Slots,
}

impl<N: Name> Model for SeatedLog<N> {
    ghost use Rattle.dr_machine.specs.Tied.{AreTied, SeatedView};

    ghost Value = { SeatedView };

    ghost view = { λ l. record { past = l.log.past; seats = l.seats; room = l.log.room } };

    ghost invariant = { λ l. AreTied N.guest N.rings l.slots l.log l.seats };
}

impl<N: Name> SeatedLog<N> {
    /// A log of which nothing has happened. `Err` for want of memory alone.
    pub(crate) fn new(
        alloc: Global,
        guest: &Guest,
        seats: KernelSeats<N>,
    ) -> Result<SeatedLog<N>, Memory>
        requires guest { guest.now ≡ N.guest }
        requires valid { IsValid guest.now }
        requires rings { AreRingsFor N.guest N.rings }
        requires seats { seats ≡ map new_kernel N.rings }
        ensures past { IfOk result (λ seated. seated.past ≡ []) }
        ensures seats { IfOk result (λ seated. seated.seats ≡ seats) }
    {
        let slots = Slots::new(alloc, &guest.slots)?;
        let log = Log::new(alloc, guest)?;
        Ok(SeatedLog { log, seats, slots })
    }

    /// The log alone.
    pub(crate) fn log(&self) -> &Log
        ensures guest { result.now.guest ≡ N.guest }
        ensures past { result.now.past ≡ self.now.past }
    {
        &self.log
    }

    /// What has happened is legal so far, for a guest within the limits.
    pub(crate) fn recall_legal(&self)
        ensures legal { IsLegalSoFar N.guest self.now.past }
        ensures valid { IsValid N.guest }
    {
        self.log.recall_legal();
    }

    /// There is one seat for each vCPU, and each has pushed and reset what the events say.
    #[tactic(auto, using(crate::proofs::Machines::one_seat_each))]
    pub(crate) fn recall_seats(&self)
        ensures seats { AreSeats N.guest self.now.past self.now.seats }
        ensures one_each { length self.now.seats ≡ vcpu_count N.guest }
        ensures rings { AreRingsFor N.guest N.rings }
    {
        self.seats.recall_named();
    }

    /// Room for so many more events. An `Err` changes neither history nor seats.
    pub(crate) fn reserve(&mut self, more: u64) -> Result<(), Memory>
        ensures past { self.new.past ≡ self.old.past }
        ensures seats { self.new.seats ≡ self.old.seats }
        ensures ok { OnOk result (more ≤ self.new.room.events) }
    {
        self.log.reserve(more)
    }

    /// Room for a page that a reset closes. An `Err` changes neither history nor seats.
    pub(crate) fn make_closing_room(&mut self) -> Result<(), Memory>
        ensures past { self.new.past ≡ self.old.past }
        ensures seats { self.new.seats ≡ self.old.seats }
        ensures events { self.new.room.events ≡ self.old.room.events }
        ensures ok { OnOk result (1 ≤ self.new.room.closing) }
    {
        self.log.make_closing_room()
    }

    /// A copy of what v's kernel seat knows.
    pub(crate) fn note(&mut self, rings: &Rings<N>, v: u32) -> Note
        requires { v < vcpu_count N.guest }
        ensures stays { self.new ≡ self.old }
        ensures note { IsNoteOf N.rings self.old.seats v result }
    {
        self.seats.note(rings, v)
    }

    /// The guest, its history and the seats, without the name.
    pub(crate) fn into_parts(self) -> (Guest, History, KernelSeatList)
        ensures guest { result.0 ≡ N.guest }
        ensures past { result.1.past ≡ self.past }
        ensures seats { result.2 ≡ self.seats }
    {
        let SeatedLog { log, seats, .. } = self;
        let (guest, history) = log.into_parts();
        (guest, history, seats.into_seats())
    }
}
