//! A dirty ring, as its two seats share it.
ghost use Rattle.std.specs.Prelude.{◌≡◌, ◌≤◌, [], IfOk};
ghost use Rattle.std.specs.Int.{IsPowerOfTwo};
ghost use Rattle.dr_ring.specs.Seats.{RingView, IsOfSize, new_kernel, new_user};

use crate::kernel::KernelSeat;
use crate::user::UserSeat;
use crate::words::Words;
use dr_types::Memory;
use std::alloc::Global;
use std::marker::Model;

/// The words of a dirty ring. Its type keeps that they are always those of what was pushed,
/// harvested and reset: no access can be made that breaks the rule of the ring.
#[derive(Drop)]
pub struct Ring {
    pub(crate) words: Words,
}

impl Model for Ring {
    ghost use Rattle.dr_ring.specs.Seats.{RingView};

    ghost Value = { RingView };

    ghost view = { λ r. record { id = r.words.table.shared.table_id; size = r.words.size } };
}

impl Ring {
    /// A ring of `size` places and its two seats. All words are 0, and nothing was pushed.
    pub fn new(alloc: Global, size: u32) -> Result<(Ring, KernelSeat, UserSeat), Memory>
        requires power { IsPowerOfTwo size }
        requires least { 4 ≤ size }
        requires most { size ≤ 65536 }
        ensures ring { IfOk result (λ t. t.0.size ≡ size) }
        ensures kernel { IfOk result (λ t. t.1 ≡ new_kernel t.0.id) }
        ensures user { IfOk result (λ t. t.2 ≡ new_user t.0.id) }
    {
        let (words, mut seat) = Words::new(alloc, size)?;
        let user = words.pair(&mut seat);
        Ok((
            Ring { words },
            KernelSeat::first(seat),
            UserSeat::first(user),
        ))
    }

    /// How many places a ring has is a fact of its identity.
    pub fn recall_size(&self)
        ensures { IsOfSize self.now.size self.now.id }
    {
        let _recall_size = self.words.size;
    }
}
