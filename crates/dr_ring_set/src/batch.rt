ghost use Rattle.std.specs.Prelude.{◌≡◌, ◌+◌, ◌^◌, ◌<◌, [], ◌↔◌, IsTrue, Some, length, slice_get};
ghost use Rattle.std.specs.Prelude.{false};
ghost use Rattle.dr_ring_set.specs.Batches.{StandFrom};

use crate::lists::EntryList;
use dr_ring::{Name, Note};
use std::marker::PhantomData;

/// Entries of vCPU `vcpu` that were harvested one after the other, the first of them with number
/// `first`, and the note of its user seat that was taken after their harvest.
#[derive(Drop)]
pub struct Batch<N: Name> {
    pub vcpu: u32,
    pub first: u64,
    pub entries: EntryList,
    pub note: Note,
    pub name: PhantomData<N>,
    pub ghost of_user: { note.by_kernel ≡ false },
    pub ghost of_ring: { slice_get N.rings vcpu ≡ Some note.ring },
    pub ghost stand: { StandFrom first entries note.entries },
    pub ghost counted: { first + length entries < 2 ^ 64 },
}

impl<N: Name> Batch<N> {
    /// There is no entry in it.
    pub fn is_empty(&self) -> bool
        ensures { IsTrue result ↔ (self.now.entries ≡ []) }
    {
        self.entries.is_empty()
    }
}
