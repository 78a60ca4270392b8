ghost use Rattle.std.specs.Prelude.{◌≡◌, ◌<◌, ◌^◌, ◌⊎◌, map, length, slice_get, Some, true, false};
ghost use mathlib.Core.List.{IsPrefix};
ghost use Rattle.dr_ring.specs.Seats.{user_note, user_learnt};
ghost use Rattle.dr_ring_set.specs.Seated.{IfAt, HasAt, MovesAt, IsHarvest, ring_of_user};

use crate::rings::Rings;
use dr_ring::{Name, Note, UserSeat};
use dr_types::Entry;
use std::marker::{Model, PhantomData};

/// The user seats of one name, in the order of the vCPUs. Each call is that of vCPU v's seat, on
/// v's ring.
#[derive(Drop)]
pub struct UserSeats<N: Name> {
    seats: Vec<UserSeat>,
    name: PhantomData<N>,
}

impl<N: Name> Model for UserSeats<N> {
    ghost use Rattle.std.specs.Prelude.{◌≡◌, ◌<◌, ◌^◌, List, map, length};
    ghost use Rattle.dr_ring.specs.Seats.{UserView};
    ghost use Rattle.dr_ring_set.specs.Seated.{ring_of_user};

    ghost Value = { List UserView };

    ghost view = { λ s. s.seats.items };

    ghost invariant = { λ s.
        (map ring_of_user s.seats.items ≡ N.rings) × (length s.seats.items < 2 ^ 32) };
}

impl<N: Name> UserSeats<N> {
    pub(crate) fn of(seats: Vec<UserSeat>) -> UserSeats<N>
        requires named { map ring_of_user seats.items ≡ N.rings }
        requires few { length seats.items < 2 ^ 32 }
        ensures { result ≡ seats.items }
    {
        UserSeats {
            seats,
            name: PhantomData,
        }
    }

    /// The number of vCPUs, each of which has one seat.
    pub fn vcpus(&self) -> u32
        ensures vcpus { result ≡ length self.now }
        ensures named { result ≡ length N.rings }
    {
        self.seats.len() as u32
    }

    /// Each seat is of its vCPU's ring.
    pub fn recall_named(&self)
        ensures { map ring_of_user self.now ≡ N.rings }
    {
        let _recall_seats = &self.seats;
    }

    /// How many entries of v are harvested.
    pub fn harvested(&self, v: u32) -> u64
        requires { v < length N.rings }
        ensures { IfAt self.now v (λ s. result ≡ length s.harvested) }
    {
        self.seats[v as usize].harvested()
    }

    /// Harvests the next entry of v's ring, if it was pushed.
    pub fn harvest_next(&mut self, rings: &Rings<N>, v: u32) -> Option<Entry>
        requires { v < length N.rings }
        ensures { MovesAt self.old self.new v (λ s t. IsHarvest rings.now.size s t result) }
    {
        self.seats[v as usize].harvest_next(&rings.rings[v as usize])
    }

    /// A copy of what v's seat knows.
    pub fn note(&mut self, rings: &Rings<N>, v: u32) -> Note
        requires { v < length N.rings }
        ensures seats { self.new ≡ self.old }
        ensures note { HasAt self.old v (λ s. result ≡ user_note s) }
        ensures of_user { result.by_kernel ≡ false }
        ensures named { slice_get N.rings v ≡ Some result.ring }
    {
        self.seats[v as usize].note(&rings.rings[v as usize])
    }

    /// Takes in what v's kernel seat knew.
    pub fn learn(&mut self, rings: &Rings<N>, v: u32, note: Note)
        requires vcpu { v < length N.rings }
        requires of_ring { slice_get N.rings v ≡ Some note.ring }
        requires of_kernel { note.by_kernel ≡ true }
        ensures { MovesAt self.old self.new v
            (λ s t. (t ≡ user_learnt s note.entries)
            × (IsPrefix s.harvested note.entries ⊎ IsPrefix note.entries s.harvested)) }
    {
        self.seats[v as usize].learn(&rings.rings[v as usize], note);
    }
}
