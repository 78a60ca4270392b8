//! The steps of the two seats, one atomic access each. `n` and `reset` are numbers of entries,
//! which count on; the place of an entry is its number modulo the size.
ghost use Rattle.std.specs.Prelude.{◌≡◌, ◌+◌, ◌*◌, ◌/◌, ◌^◌, ◌<◌, ◌≤◌, ◌⊎◌, []};
ghost use Rattle.std.specs.Prelude.{length, slice_get, Some};
ghost use mathlib.Core.List.{IsPrefix};
ghost use Rattle.dr_types.specs.Words.{first_word};
ghost use Rattle.dr_ring.specs.declared.view.Role.TheVariants.{Kernel, Pushing, Resetting};
ghost use Rattle.dr_ring.specs.declared.view.Role.TheVariants.{User, Dirty, Copied};
ghost use Rattle.dr_ring.specs.declared.view.Role.TheVariants.{KernelNote, UserNote};
ghost use Rattle.dr_ring.specs.Ring.{entry_place, note_view, learnt};
ghost use Rattle.dr_ring.specs.Plays.{IsMoved, IsDirty, HasReset, FindsHarvested, FindsNone};
ghost use Rattle.dr_ring.specs.Plays.{SeesDirty, SeesNone, pushing, pushed_one, reset_one, copied};
ghost use Rattle.dr_ring.specs.Plays.{harvested_one};

use crate::plays::{
    Compare, CopyKernel, CopyUser, Learn, LoadAtHarvest, LoadAtReset, LoadHarvestOffset,
    LoadResetOffset, StoreDirty, StoreHarvested, StoreOffset, StoreZero,
};
use crate::words::{RawSeat, Words};
use dr_types::{Entry, entry_words};

/// The entry word of an entry that is pushed and not harvested.
fn dirty_word(e: Entry) -> u64
    ensures { result ≡ first_word e 1 }
{
    let (first, _) = entry_words(e, 1);
    first
}

/// The entry word of an entry that is harvested and not reset: DIRTY and RESET.
fn harvested_word(e: Entry) -> u64
    ensures { result ≡ first_word e 3 }
{
    let (first, _) = entry_words(e, 3);
    first
}

impl Words {
    fn entry_index(&self, k: u64) -> usize
        ensures place { result ≡ entry_place self.now.size k }
        ensures inside { result + 1 < self.now.table.shared.table_id.words }
    {
        1 + 2 * (k & u64::from(self.size - 1)) as usize
    }

    /// The kernel seat stores the offset of entry `n`, its next.
    pub fn store_offset(&self, seat: &mut RawSeat, n: u64, e: Entry)
        requires own { seat.old.table_id ≡ self.now.table.shared.table_id }
        requires role { seat.old.me.0.role ≡ Kernel }
        requires next { n ≡ length seat.old.me.0.entries }
        requires room { n < seat.old.me.0.reset + self.now.size }
        ensures { IsMoved seat.old seat.new (pushing seat.old.me.0 e.offset) }
    {
        let at = self.entry_index(n) + 1;
        self.table.shared.store::<StoreOffset>(seat, at, e.offset);
    }

    /// The kernel seat stores the entry word of entry `n`, dirty.
    pub fn store_dirty(&self, seat: &mut RawSeat, n: u64, e: Entry)
        requires own { seat.old.table_id ≡ self.now.table.shared.table_id }
        requires role { seat.old.me.0.role ≡ Pushing e.offset }
        requires next { n ≡ length seat.old.me.0.entries }
        requires count { n + 1 < 2 ^ 64 }
        ensures { IsMoved seat.old seat.new (pushed_one seat.old.me.0 e) }
    {
        let at = self.entry_index(n);
        let word = dirty_word(e);
        self.table.shared.store::<StoreDirty>(seat, at, word);
    }

    /// The kernel seat loads the entry word at its reset number.
    pub fn load_at_reset(&self, seat: &mut RawSeat, reset: u64) -> u64
        requires own { seat.old.table_id ≡ self.now.table.shared.table_id }
        requires role { seat.old.me.0.role ≡ Kernel }
        requires next { reset ≡ seat.old.me.0.reset }
        ensures harvested { HasReset result
            → FindsHarvested (entry_place self.now.size reset) result seat.old seat.new }
        ensures other { ¬ HasReset result
            → FindsNone (entry_place self.now.size reset) result seat.old seat.new }
    {
        let at = self.entry_index(reset);
        self.table.shared.load::<LoadAtReset>(seat, at)
    }

    /// The kernel seat loads the offset there.
    pub fn load_reset_offset(&self, seat: &mut RawSeat, reset: u64) -> u64
        requires own { seat.old.table_id ≡ self.now.table.shared.table_id }
        requires role { seat.old.me.0.role ≡ Resetting }
        requires next { reset ≡ seat.old.me.0.reset }
        ensures seat { IsMoved seat.old seat.new seat.old.me.0 }
        ensures value { (e : Entry)
            → slice_get seat.old.me.0.entries reset ≡ Some e → result ≡ e.offset }
    {
        let at = self.entry_index(reset) + 1;
        self.table.shared.load::<LoadResetOffset>(seat, at)
    }

    /// The kernel seat stores 0 there.
    pub fn store_zero(&self, seat: &mut RawSeat, reset: u64)
        requires own { seat.old.table_id ≡ self.now.table.shared.table_id }
        requires role { seat.old.me.0.role ≡ Resetting }
        requires next { reset ≡ seat.old.me.0.reset }
        ensures { IsMoved seat.old seat.new (reset_one seat.old.me.0) }
    {
        let at = self.entry_index(reset);
        self.table.shared.store::<StoreZero>(seat, at, 0);
    }

    /// The user seat loads the entry word of entry `n`, its next.
    pub fn load_at_harvest(&self, seat: &mut RawSeat, n: u64) -> u64
        requires own { seat.old.table_id ≡ self.now.table.shared.table_id }
        requires role { seat.old.me.0.role ≡ User }
        requires next { n ≡ length seat.old.me.0.entries }
        ensures dirty { IsDirty result
            → SeesDirty (entry_place self.now.size n) result seat.old seat.new }
        ensures other { ¬ IsDirty result
            → SeesNone (entry_place self.now.size n) result seat.old seat.new }
    {
        let at = self.entry_index(n);
        self.table.shared.load::<LoadAtHarvest>(seat, at)
    }

    /// The user seat loads the offset there.
    pub fn load_harvest_offset(&self, seat: &mut RawSeat, n: u64, slot: u32) -> u64
        requires own { seat.old.table_id ≡ self.now.table.shared.table_id }
        requires role { seat.old.me.0.role ≡ Dirty slot }
        requires next { n ≡ length seat.old.me.0.entries }
        ensures { IsMoved seat.old seat.new
            (copied seat.old.me.0 (record { slot = slot; offset = result })) }
    {
        let at = self.entry_index(n) + 1;
        self.table.shared.load::<LoadHarvestOffset>(seat, at)
    }

    /// The user seat stores the entry word there, harvested.
    pub fn store_harvested(&self, seat: &mut RawSeat, n: u64, e: Entry)
        requires own { seat.old.table_id ≡ self.now.table.shared.table_id }
        requires role { seat.old.me.0.role ≡ Copied e }
        requires next { n ≡ length seat.old.me.0.entries }
        ensures { IsMoved seat.old seat.new (harvested_one seat.old.me.0 e) }
    {
        let at = self.entry_index(n);
        let word = harvested_word(e);
        self.table.shared.store::<StoreHarvested>(seat, at, word);
    }

    /// A copy of what the kernel seat knows.
    pub fn kernel_note(&self, seat: &mut RawSeat) -> RawSeat
        requires own { seat.old.table_id ≡ self.now.table.shared.table_id }
        requires role { seat.old.me.0.role ≡ Kernel }
        ensures kept { IsMoved seat.old seat.new seat.old.me.0 }
        ensures own { result.table_id ≡ seat.old.table_id }
        ensures note { result.me ≡ (note_view KernelNote seat.old.me.0, []) }
    {
        self.table.shared.split_seat::<CopyKernel>(seat)
    }

    /// A copy of what the user seat knows.
    pub fn user_note(&self, seat: &mut RawSeat) -> RawSeat
        requires own { seat.old.table_id ≡ self.now.table.shared.table_id }
        requires role { seat.old.me.0.role ≡ User }
        ensures kept { IsMoved seat.old seat.new seat.old.me.0 }
        ensures own { result.table_id ≡ seat.old.table_id }
        ensures note { result.me ≡ (note_view UserNote seat.old.me.0, []) }
    {
        self.table.shared.split_seat::<CopyUser>(seat)
    }

    /// The kernel seat takes in a user seat's note, and then compares the note's list with its own.
    pub fn kernel_learn(&self, seat: &mut RawSeat, note: RawSeat)
        requires own { seat.old.table_id ≡ self.now.table.shared.table_id }
        requires of_ring { note.table_id ≡ self.now.table.shared.table_id }
        requires no_slots { note.me.1 ≡ [] }
        requires role { seat.old.me.0.role ≡ Kernel }
        requires of_user { note.me.0.role ≡ UserNote }
        ensures moved { IsMoved seat.old seat.new (learnt seat.old.me.0 note.me.0) }
        ensures prefix { IsPrefix note.me.0.entries seat.old.me.0.entries }
    {
        self.table.shared.join_seat::<Learn>(seat, note);
        self.table.shared.load::<Compare>(seat, 0);
    }

    /// The user seat takes in a kernel seat's note, and then compares the note's list with its own.
    pub fn user_learn(&self, seat: &mut RawSeat, note: RawSeat)
        requires own { seat.old.table_id ≡ self.now.table.shared.table_id }
        requires of_ring { note.table_id ≡ self.now.table.shared.table_id }
        requires no_slots { note.me.1 ≡ [] }
        requires role { seat.old.me.0.role ≡ User }
        requires of_kernel { note.me.0.role ≡ KernelNote }
        ensures moved { IsMoved seat.old seat.new (learnt seat.old.me.0 note.me.0) }
        ensures prefix { IsPrefix seat.old.me.0.entries note.me.0.entries
            ⊎ IsPrefix note.me.0.entries seat.old.me.0.entries }
    {
        self.table.shared.join_seat::<Learn>(seat, note);
        self.table.shared.load::<Compare>(seat, 0);
    }
}
