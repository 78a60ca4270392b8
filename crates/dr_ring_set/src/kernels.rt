ghost use Rattle.std.specs.Prelude.{◌≡◌, ◌+◌, ◌-◌, ◌^◌, ◌<◌, ◌≤◌, ◌↔◌, [], ◌∷◌, ◌++◌};
ghost use Rattle.std.specs.Prelude.{map, length, slice_get, Some, IsTrue, true, false};
ghost use mathlib.Core.List.{IsPrefix};
ghost use Rattle.dr_ring.specs.Seats.{kernel_note, kernel_learnt};
ghost use Rattle.dr_ring_set.specs.Seated.{IfAt, HasAt, MovesAt, IsReset, ring_of_kernel};

use crate::lists::KernelSeatList;
use crate::rings::Rings;
use dr_ring::{KernelSeat, Name, Note};
use dr_types::{Entry, Listed};
use std::marker::{Model, PhantomData};

/// The kernel seats of one name, in the order of the vCPUs. Each call is that of vCPU v's seat, on
/// v's ring.
#[derive(Drop)]
pub struct KernelSeats<N: Name> {
    seats: Vec<KernelSeat>,
    name: PhantomData<N>,
}

impl<N: Name> Model for KernelSeats<N> {
    ghost use Rattle.std.specs.Prelude.{◌≡◌, List, map};
    ghost use Rattle.dr_ring.specs.Seats.{KernelView};
    ghost use Rattle.dr_ring_set.specs.Seated.{ring_of_kernel};

    ghost Value = { List KernelView };

    ghost view = { λ s. s.seats.items };

    ghost invariant = { λ s. map ring_of_kernel s.seats.items ≡ N.rings };
}

impl<N: Name> KernelSeats<N> {
    pub(crate) fn of(seats: Vec<KernelSeat>) -> KernelSeats<N>
        requires { map ring_of_kernel seats.items ≡ N.rings }
        ensures { result ≡ seats.items }
    {
        KernelSeats {
            seats,
            name: PhantomData,
        }
    }

    /// Pushes an entry into v's ring.
    pub fn push(&mut self, rings: &Rings<N>, v: u32, e: Entry)
        requires vcpu { v < length N.rings }
        requires room { IfAt self.old v (λ s. length s.pushed < s.reset + rings.now.size) }
        requires count { IfAt self.old v (λ s. length s.pushed < 2 ^ 64 - 1) }
        ensures { MovesAt self.old self.new v
            (λ s t. t ≡ record s { pushed = s.pushed ++ e ∷ [] }) }
    {
        self.seats[v as usize].push(&rings.rings[v as usize], e);
    }

    /// How many entries of v are pushed and not reset.
    pub fn used(&self, v: u32) -> u64
        requires { v < length N.rings }
        ensures { IfAt self.now v (λ s. result ≡ length s.pushed - s.reset) }
    {
        self.seats[v as usize].used()
    }

    /// At least `soft` entries of v are pushed and not reset.
    pub fn soft_full(&self, v: u32, soft: u64) -> bool
        requires { v < length N.rings }
        ensures { IfAt self.now v (λ s. IsTrue result ↔ (soft ≤ length s.pushed - s.reset)) }
    {
        self.used(v) >= soft
    }

    /// Resets the entry at v's reset number, if it was harvested.
    pub fn reset_next(&mut self, rings: &Rings<N>, v: u32) -> Option<Entry>
        requires { v < length N.rings }
        ensures { MovesAt self.old self.new v (λ s t. IsReset rings.now.size s t result) }
    {
        self.seats[v as usize].reset_next(&rings.rings[v as usize])
    }

    /// A copy of what v's seat knows.
    pub fn note(&mut self, rings: &Rings<N>, v: u32) -> Note
        requires { v < length N.rings }
        ensures seats { self.new ≡ self.old }
        ensures note { HasAt self.old v (λ s. result ≡ kernel_note s) }
        ensures of_kernel { result.by_kernel ≡ true }
        ensures named { slice_get N.rings v ≡ Some result.ring }
    {
        self.seats[v as usize].note(&rings.rings[v as usize])
    }

    /// Takes in what v's user seat knew.
    pub fn learn(&mut self, rings: &Rings<N>, v: u32, note: Note)
        requires vcpu { v < length N.rings }
        requires of_ring { slice_get N.rings v ≡ Some note.ring }
        requires of_user { note.by_kernel ≡ false }
        ensures { MovesAt self.old self.new v
            (λ s t. (t ≡ kernel_learnt s note.entries) × IsPrefix note.entries s.pushed) }
    {
        self.seats[v as usize].learn(&rings.rings[v as usize], note);
    }

    /// Each seat is of its vCPU's ring.
    pub fn recall_named(&self)
        ensures { map ring_of_kernel self.now ≡ N.rings }
    {
        let _recall_seats = &self.seats;
    }

    /// The same seats without the name, in the order of the vCPUs.
    pub fn into_seats(self) -> KernelSeatList
        ensures seats { result ≡ self }
        ensures named { map ring_of_kernel self ≡ N.rings }
    {
        let KernelSeats { seats, name: _ } = self;
        Listed::from_vec(seats)
    }
}
