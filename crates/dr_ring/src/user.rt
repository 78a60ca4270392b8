//! The user seat of a ring, which harvests.
ghost use Rattle.std.specs.Prelude.{◌≡◌, ◌≤◌, ◌⊎◌, [], length, None, IfSome, true};
ghost use mathlib.Core.List.{IsPrefix};
ghost use Rattle.dr_ring.specs.Seats.{user_harvested, user_learnt, user_note, LoadsNoDirty};
ghost use Rattle.dr_ring.specs.declared.view.Role.TheVariants.{User};

use crate::note::Note;
use crate::ring::Ring;
use crate::words::RawSeat;
use dr_types::{Entry, flags_of, words_entry};
use std::marker::Model;

/// The flags of an entry that was pushed and not harvested.
const DIRTY: u32 = 1;

/// The seat of whoever harvests a ring. Clauses see all that it harvested, how many pushes it knows
/// of, and the entry words that it has loaded.
#[derive(Drop)]
pub struct UserSeat {
    seat: RawSeat,
    harvested: u64,
}

impl Model for UserSeat {
    ghost use Rattle.std.specs.Prelude.{◌≡◌, length};
    ghost use Rattle.dr_ring.specs.Seats.{UserView};
    ghost use Rattle.dr_ring.specs.declared.view.Role.TheVariants.{User};

    ghost Value = { UserView };

    ghost view = { λ s.
        record {
          ring = s.seat.table_id;
          harvested = s.seat.me.0.entries;
          known = s.seat.me.0.known;
          loaded = s.seat.me.0.loaded;
        } };

    ghost invariant = { λ s.
        (s.seat.me.0.role ≡ User) × (s.harvested ≡ length s.seat.me.0.entries) };
}

impl UserSeat {
    pub(crate) fn first(seat: RawSeat) -> UserSeat
        requires role { seat.me.0.role ≡ User }
        requires nothing { seat.me.0.entries ≡ [] }
        ensures { result
            ≡ record {
              ring = seat.table_id;
              harvested = [];
              known = seat.me.0.known;
              loaded = seat.me.0.loaded;
            } }
    {
        UserSeat { seat, harvested: 0 }
    }

    /// How many entries the seat has harvested.
    pub fn harvested(&self) -> u64
        ensures { result ≡ length self.now.harvested }
    {
        self.harvested
    }

    /// Harvests the next entry, if it was pushed. None where the entry word that this call loaded
    /// there was not dirty; never while the seat knows of more pushes than harvests.
    pub fn harvest_next(&mut self, ring: &Ring) -> Option<Entry>
        requires { self.old.ring ≡ ring.now.id }
        ensures ring { self.new.ring ≡ self.old.ring }
        ensures some { IfSome result (λ e. self.new ≡ user_harvested ring.now.size self.old e) }
        ensures none { result ≡ None → LoadsNoDirty ring.now.size self.old self.new }
        ensures learnt { result ≡ None → self.old.known ≤ length self.old.harvested }
    {
        let first = ring.words.load_at_harvest(&mut self.seat, self.harvested);
        if flags_of(first) != DIRTY {
            return None;
        }
        let slot = words_entry(first, 0).slot;
        let second = ring
            .words
            .load_harvest_offset(&mut self.seat, self.harvested, slot);
        let e = words_entry(first, second);
        // Read first, marked after: from this store on the kernel seat may reset the place. DIRTY
        // stays set beside RESET, since KVM ignores it there and the slot's word is stored whole.
        ring.words
            .store_harvested(&mut self.seat, self.harvested, e);
        self.harvested += 1;
        Some(e)
    }

    /// A copy of what the seat knows, for the kernel seat to learn.
    pub fn note(&mut self, ring: &Ring) -> Note
        requires { self.old.ring ≡ ring.now.id }
        ensures seat { self.new ≡ self.old }
        ensures note { result ≡ user_note self.old }
    {
        Note::of_user(ring.words.user_note(&mut self.seat))
    }

    /// Takes in what the kernel seat knew: of its pushes and this seat's harvests the one list
    /// begins the other. The seat then knows of at least so many pushes.
    pub fn learn(&mut self, ring: &Ring, note: Note)
        requires ring { self.old.ring ≡ ring.now.id }
        requires of_ring { note.ring ≡ ring.now.id }
        requires of_kernel { note.by_kernel ≡ true }
        ensures seat { self.new ≡ user_learnt self.old note.entries }
        ensures prefix { IsPrefix self.new.harvested note.entries
            ⊎ IsPrefix note.entries self.new.harvested }
    {
        ring.words.user_learn(&mut self.seat, note.into_seat());
    }
}
