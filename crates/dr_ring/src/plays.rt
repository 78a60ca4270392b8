//! What each kind of step on the words tells the seat that makes it.
ghost use Rattle.dr_ring.specs.Plays.{offers, pushes, finds, reads, resets, sees, copies, harvests};
ghost use Rattle.dr_ring.specs.Plays.{compares};
ghost use Rattle.dr_ring.specs.Ring.{note_view, learnt, spent_view};
ghost use Rattle.dr_ring.specs.declared.view.Role.TheVariants.{Kernel, User, KernelNote, UserNote};

use crate::view::View;
use atomic_table::{Join, Play, Split};

/// The kernel seat stores the offset of its next entry.
pub struct StoreOffset;

impl Play<u8, View> for StoreOffset {
    ghost then = { offers };
}

/// The kernel seat stores its next entry word, dirty.
pub struct StoreDirty;

impl Play<u8, View> for StoreDirty {
    ghost then = { pushes };
}

/// The kernel seat loads the entry word at its reset number.
pub struct LoadAtReset;

impl Play<u8, View> for LoadAtReset {
    ghost then = { finds };
}

/// The kernel seat loads the offset there.
pub struct LoadResetOffset;

impl Play<u8, View> for LoadResetOffset {
    ghost then = { reads };
}

/// The kernel seat stores 0 there.
pub struct StoreZero;

impl Play<u8, View> for StoreZero {
    ghost then = { resets };
}

/// The user seat loads the entry word at its harvest number.
pub struct LoadAtHarvest;

impl Play<u8, View> for LoadAtHarvest {
    ghost then = { sees };
}

/// The user seat loads the offset there.
pub struct LoadHarvestOffset;

impl Play<u8, View> for LoadHarvestOffset {
    ghost then = { copies };
}

/// The user seat stores the entry word there, harvested.
pub struct StoreHarvested;

impl Play<u8, View> for StoreHarvested {
    ghost then = { harvests };
}

/// A seat compares the list of the note that it learnt with its own.
pub struct Compare;

impl Play<u8, View> for Compare {
    ghost then = { compares };
}

/// Makes the kernel seat and the user seat of a new ring's only one.
pub struct Pair;

impl Split<View> for Pair {
    ghost left = { λ v. record v { role = Kernel } };

    ghost right = { λ v. record v { role = User } };
}

/// Copies what the kernel seat knows into a note.
pub struct CopyKernel;

impl Split<View> for CopyKernel {
    ghost left = { λ v. v };

    ghost right = { note_view KernelNote };
}

/// Copies what the user seat knows into a note.
pub struct CopyUser;

impl Split<View> for CopyUser {
    ghost left = { λ v. v };

    ghost right = { note_view UserNote };
}

/// A seat takes in what a note knows, and the note is spent.
pub struct Learn;

impl Join<View> for Learn {
    ghost both = { learnt };

    ghost spent = { spent_view };
}
