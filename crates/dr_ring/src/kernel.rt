//! The kernel seat of a ring, which pushes and resets.
ghost use Rattle.std.specs.Prelude.{◌≡◌, ◌+◌, ◌-◌, ◌^◌, ◌<◌, ◌≤◌, ◌↔◌, [], ◌∷◌, ◌++◌, length};
ghost use Rattle.std.specs.Prelude.{Some, None, slice_get, IfSome, IsTrue, false};
ghost use mathlib.Core.List.{IsPrefix};
ghost use Rattle.dr_ring.specs.Seats.{kernel_reset, kernel_learnt, kernel_note, LoadsNoReset};
ghost use Rattle.dr_ring.specs.declared.view.Role.TheVariants.{Kernel};

use crate::note::Note;
use crate::ring::Ring;
use crate::words::RawSeat;
use dr_types::{Entry, flags_of, words_entry};
use std::marker::Model;

/// The bit that the user seat sets in the flags of an entry that it has harvested.
const RESET: u32 = 2;

/// The seat of a vCPU at its ring. Clauses see all that it pushed, how many of these it has reset,
/// how many harvests it knows of, and the entry words that it has loaded.
#[derive(Drop)]
pub struct KernelSeat {
    seat: RawSeat,
    pushed: u64,
    reset: u64,
}

impl Model for KernelSeat {
    ghost use Rattle.std.specs.Prelude.{◌≡◌, ◌≤◌, length};
    ghost use Rattle.dr_ring.specs.Seats.{KernelView};
    ghost use Rattle.dr_ring.specs.declared.view.Role.TheVariants.{Kernel};

    ghost Value = { KernelView };

    ghost view = { λ s.
        record {
          ring = s.seat.table_id;
          pushed = s.seat.me.0.entries;
          reset = s.seat.me.0.reset;
          known = s.seat.me.0.known;
          loaded = s.seat.me.0.loaded;
        } };

    ghost invariant = { λ s.
        (s.seat.me.0.role ≡ Kernel) × (s.pushed ≡ length s.seat.me.0.entries)
        × (s.reset ≡ s.seat.me.0.reset) × (s.reset ≤ s.pushed) };
}

impl KernelSeat {
    pub(crate) fn first(seat: RawSeat) -> KernelSeat
        requires role { seat.me.0.role ≡ Kernel }
        requires nothing { (seat.me.0.entries ≡ []) × (seat.me.0.reset ≡ 0) }
        ensures { result
            ≡ record {
              ring = seat.table_id;
              pushed = [];
              reset = 0;
              known = seat.me.0.known;
              loaded = seat.me.0.loaded;
            } }
    {
        KernelSeat {
            seat,
            pushed: 0,
            reset: 0,
        }
    }

    /// Pushes an entry: its offset word first, and then its entry word.
    pub fn push(&mut self, ring: &Ring, e: Entry)
        requires ring { self.old.ring ≡ ring.now.id }
        requires room { length self.old.pushed < self.old.reset + ring.now.size }
        requires count { length self.old.pushed < 2 ^ 64 - 1 }
        ensures { self.new ≡ record self.old { pushed = self.old.pushed ++ e ∷ [] } }
    {
        // The offset first: once the entry word says DIRTY the user seat may read both. Linux has a
        // write barrier between the two stores (`kvm_dirty_ring_push`); here the order is the
        // rule's.
        ring.words.store_offset(&mut self.seat, self.pushed, e);
        ring.words.store_dirty(&mut self.seat, self.pushed, e);
        self.pushed += 1;
    }

    /// How many entries are pushed and not reset.
    pub fn used(&self) -> u64
        ensures { result ≡ length self.now.pushed - self.now.reset }
    {
        self.pushed - self.reset
    }

    /// At least `soft` entries are pushed and not reset.
    pub fn soft_full(&self, soft: u64) -> bool
        ensures { IsTrue result ↔ (soft ≤ length self.now.pushed - self.now.reset) }
    {
        self.used() >= soft
    }

    /// Resets the entry at the reset number, if it was harvested. None where the entry word that
    /// this call loaded there has no RESET bit; never while the seat knows of more harvests than
    /// resets.
    pub fn reset_next(&mut self, ring: &Ring) -> Option<Entry>
        requires { self.old.ring ≡ ring.now.id }
        ensures ring { self.new.ring ≡ self.old.ring }
        ensures entry { IfSome result (λ e. slice_get self.old.pushed self.old.reset ≡ Some e) }
        ensures reset { IfSome result (λ e. self.new ≡ kernel_reset ring.now.size self.old e) }
        ensures none { result ≡ None → LoadsNoReset ring.now.size self.old self.new }
        ensures learnt { result ≡ None → self.old.known ≤ self.old.reset }
    {
        let first = ring.words.load_at_reset(&mut self.seat, self.reset);
        // RESET alone is asked, whatever DIRTY says: to KVM the flags 1X mean harvested.
        if flags_of(first) & RESET == 0 {
            return None;
        }
        let second = ring.words.load_reset_offset(&mut self.seat, self.reset);
        // The store of 0 comes last: it gives the place back, and this seat alone pushes into it.
        ring.words.store_zero(&mut self.seat, self.reset);
        self.reset += 1;
        Some(words_entry(first, second))
    }

    /// A copy of what the seat knows, for the user seat to learn.
    pub fn note(&mut self, ring: &Ring) -> Note
        requires { self.old.ring ≡ ring.now.id }
        ensures seat { self.new ≡ self.old }
        ensures note { result ≡ kernel_note self.old }
    {
        Note::of_kernel(ring.words.kernel_note(&mut self.seat))
    }

    /// Takes in what a user seat knew: all of it was pushed by this seat, which then knows of at
    /// least so many harvests.
    pub fn learn(&mut self, ring: &Ring, note: Note)
        requires ring { self.old.ring ≡ ring.now.id }
        requires of_ring { note.ring ≡ ring.now.id }
        requires of_user { note.by_kernel ≡ false }
        ensures seat { self.new ≡ kernel_learnt self.old note.entries }
        ensures prefix { IsPrefix note.entries self.new.pushed }
    {
        // A seat sees a word of the table, never the other seat's numbers. So what the user seat
        // harvested comes here with its note, by whatever way the batch takes.
        ring.words.kernel_learn(&mut self.seat, note.into_seat());
    }
}
