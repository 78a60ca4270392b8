//! A kernel seat beside the events: what it has pushed and reset.
#![tactic(auto)]

ghost use Rattle.std.specs.Prelude.{◌≡◌, ◌<◌, ◌+◌, ℕ, List, length, Some, slice_get};
ghost use Rattle.dr_types.specs.declared.entry.Entry.{Entry};
ghost use Rattle.dr_types.specs.declared.guest.Guest.{Guest};
ghost use Rattle.dr_history.specs.declared.event.Event.{Event};
ghost use Rattle.dr_history.specs.Entries.{opens, pushes, used};
ghost use Rattle.dr_history.specs.Legality.{IsLegalSoFar};
ghost use Rattle.dr_ring.specs.Seats.{KernelView};
ghost use Rattle.dr_seat_law.specs.Entries.{entry};
ghost use Rattle.dr_seat_law.specs.Seats.{IsSeatOf};

/// What a seat has pushed are its vCPU's entries, from the first on in their order, as many as
/// there are Pushed events of it.
pub fn pushed_are_entries()
    ensures count { (guest : Guest) (past : List Event) (v : ℕ) (seat : KernelView)
        → IsSeatOf guest v past seat → length seat.pushed ≡ pushes v past }
    ensures entries { (guest : Guest) (past : List Event) (v k : ℕ) (seat : KernelView)
        → IsSeatOf guest v past seat → k < pushes v past
        → slice_get seat.pushed k ≡ entry guest v k past }
{}

/// A seat has room for another entry where fewer are in use than its ring has places.
pub fn seat_has_room()
    ensures { (guest : Guest) (past : List Event) (v size : ℕ) (seat : KernelView)
        → IsSeatOf guest v past seat → IsLegalSoFar guest past → used v past < size
        → length seat.pushed < seat.reset + size }
{}

/// Each opened entry has a slot and an offset.
pub fn entry_exists()
    ensures { (guest : Guest) (past : List Event) (v k : ℕ) → IsLegalSoFar guest past
        → k < opens v past → (e : Entry) × (entry guest v k past ≡ Some e) }
{}
