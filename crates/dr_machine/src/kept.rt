ghost use Rattle.std.specs.Prelude.{◌≡◌, length};
ghost use Rattle.dr_types.specs.Scripts.{vcpu_count};
ghost use Rattle.dr_types.specs.Validity.{IsValid};
ghost use Rattle.dr_history.specs.Legality.{IsLegal};
ghost use Rattle.dr_seat_law.specs.Seats.{AreSeats};

use dr_history::History;
use dr_ring_set::KernelSeatList;
use dr_types::Guest;
use std::marker::Model;

/// What is left of a machine, without the name: its guest, what has happened to it, and the kernel
/// seats of its rings, one for each vCPU. Its type keeps that the guest is valid, that the history
/// is legal for it, and that each seat has pushed and reset what the events say. Only a machine
/// makes one.
#[derive(Drop)]
pub struct Kept {
    guest: Guest,
    history: History,
    seats: KernelSeatList,
}

impl Model for Kept {
    ghost use Rattle.std.specs.Prelude.{◌≡◌, length};
    ghost use Rattle.dr_types.specs.Scripts.{vcpu_count};
    ghost use Rattle.dr_types.specs.Validity.{IsValid};
    ghost use Rattle.dr_history.specs.Legality.{IsLegal};
    ghost use Rattle.dr_seat_law.specs.Seats.{AreSeats};
    ghost use Rattle.dr_machine.specs.Views.{KeptView};

    ghost Value = { KeptView };

    ghost view = { λ k. record { guest = k.guest; past = k.history.past; seats = k.seats } };

    ghost invariant = { λ k.
        IsValid k.guest × IsLegal k.guest k.history.past
        × AreSeats k.guest k.history.past k.seats × (length k.seats ≡ vcpu_count k.guest) };
}

impl Kept {
    /// Of a machine's parts.
    pub(crate) fn of(guest: Guest, history: History, seats: KernelSeatList) -> Kept
        requires valid { IsValid guest }
        requires legal { IsLegal guest history.past }
        requires seats { AreSeats guest history.past seats }
        requires one_each { length seats ≡ vcpu_count guest }
        ensures guest { result.guest ≡ guest }
        ensures past { result.past ≡ history.past }
        ensures seats { result.seats ≡ seats }
    {
        Kept {
            guest,
            history,
            seats,
        }
    }

    /// The guest, which is valid.
    pub fn guest(&self) -> &Guest
        ensures is { result.now ≡ self.now.guest }
        ensures valid { IsValid result.now }
    {
        &self.guest
    }

    /// What has happened, which is legal for the guest.
    pub fn history(&self) -> &History
        ensures past { result.now.past ≡ self.now.past }
        ensures legal { IsLegal self.now.guest result.now.past }
        ensures seats { AreSeats self.now.guest result.now.past self.now.seats }
        ensures one_each { length self.now.seats ≡ vcpu_count self.now.guest }
    {
        let _recall_guest = &self.guest;
        &self.history
    }
}
