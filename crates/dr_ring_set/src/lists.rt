//! Lists that contracts see as those of their elements.
use crate::batch::Batch;
use dr_ring::{KernelSeat, Note};
use dr_types::{Entry, Listed};

/// Entries in their order.
pub type EntryList = Listed<Entry>;

/// Notes in their order.
pub type NoteList = Listed<Note>;

/// Kernel seats in the order of the vCPUs.
pub type KernelSeatList = Listed<KernelSeat>;

/// Batches in their order.
pub type BatchList<N> = Listed<Batch<N>>;
