//! A copy of what a seat knew, for the other seat to learn.
ghost use Rattle.std.specs.Prelude.{◌≡◌, [], true, false};
ghost use Rattle.dr_ring.specs.Seats.{NoteView, is_kernel_note, note_role};
ghost use Rattle.dr_ring.specs.declared.view.Role.TheVariants.{KernelNote, UserNote};

use crate::words::RawSeat;
use std::marker::Model;

/// What a kernel seat had pushed, or what a user seat had harvested, when the note was cut.
#[derive(Drop)]
pub struct Note {
    seat: RawSeat,
}

impl Model for Note {
    ghost use Rattle.std.specs.Prelude.{◌≡◌, []};
    ghost use Rattle.dr_ring.specs.Seats.{NoteView, is_kernel_note, note_role};

    ghost Value = { NoteView };

    ghost view = { λ n.
        record {
          ring = n.seat.table_id;
          by_kernel = is_kernel_note n.seat.me.0.role;
          entries = n.seat.me.0.entries;
        } };

    ghost invariant = { λ n.
        (n.seat.me.0.role ≡ note_role (is_kernel_note n.seat.me.0.role)) × (n.seat.me.1 ≡ []) };
}

impl Note {
    pub(crate) fn of_kernel(seat: RawSeat) -> Note
        requires role { seat.me.0.role ≡ KernelNote }
        requires no_slots { seat.me.1 ≡ [] }
        ensures { result
            ≡ record { ring = seat.table_id; by_kernel = true; entries = seat.me.0.entries } }
    {
        Note { seat }
    }

    pub(crate) fn of_user(seat: RawSeat) -> Note
        requires role { seat.me.0.role ≡ UserNote }
        requires no_slots { seat.me.1 ≡ [] }
        ensures { result
            ≡ record { ring = seat.table_id; by_kernel = false; entries = seat.me.0.entries } }
    {
        Note { seat }
    }

    pub(crate) fn into_seat(self) -> RawSeat
        ensures ring { result.table_id ≡ self.ring }
        ensures entries { result.me.0.entries ≡ self.entries }
        ensures no_slots { result.me.1 ≡ [] }
        ensures role { result.me.0.role ≡ note_role self.by_kernel }
    {
        let Note { seat } = self;
        seat
    }
}
