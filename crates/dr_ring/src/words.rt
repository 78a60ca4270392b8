//! The words of a ring, under the rule that they keep.
ghost use Rattle.std.specs.Prelude.{◌≡◌, ◌+◌, ◌-◌, ◌*◌, ◌%◌, ◌<◌, ◌≤◌, ℕ, bit_and, [], IfOk};
ghost use Rattle.std.specs.Int.{IsPowerOfTwo};
ghost use Rattle.dr_ring.specs.Ring.{opening_view};
ghost use Rattle.dr_ring.specs.declared.view.Role.TheVariants.{Both, Kernel, User};

use crate::plays::Pair;
use crate::view::View;
use atomic_table::{Seat, Table, TableRule};
use dr_types::Memory;
use std::alloc::Global;

/// The rule of a ring's words, over the numbers and lists of `IsRing`. The key is the ring's size.
pub struct RingRule;

impl TableRule<u8, View, u32> for RingRule {
    ghost use Rattle.dr_ring.specs.Ring.{Holds, opening_view};

    ghost holds = { Holds };

    ghost first = { λ _. opening_view };
}

/// A seat or a note of a ring, as its table knows it.
pub type RawSeat = Seat<u8, View>;

/// The words of a ring: a spare one, then an entry word and an offset word for each place.
#[derive(Drop)]
pub struct Words {
    pub table: Table<u8, View, u32, RingRule, Global>,
    pub size: u32,
    ghost keyed: { table.shared.key ≡ size },
    ghost wide: { table.shared.table_id.words ≡ 1 + 2 * size },
    ghost sized: { (0 < size) × (size ≤ 65536) },
    ghost masked: { (k : ℕ) → bit_and k (size - 1) ≡ k % size },
}

impl Words {
    /// The words of a new ring, all 0, and its only seat.
    pub fn new(alloc: Global, size: u32) -> Result<(Words, RawSeat), Memory>
        requires some { 0 < size }
        requires most { size ≤ 65536 }
        requires power { IsPowerOfTwo size }
        ensures size { IfOk result (λ t. t.0.size ≡ size) }
        ensures own { IfOk result (λ t. t.1.table_id ≡ t.0.table.shared.table_id) }
        ensures seat { IfOk result (λ t. t.1.me ≡ (opening_view, [])) }
    {
        let zeros = Vec::from_elem(alloc, 0u64, 1 + 2 * size as usize)?;
        let (table, seat) = Table::of_words(alloc, zeros.as_slice(), &size)?;
        Ok((Words { table, size }, seat))
    }

    /// Makes the kernel seat of the only seat, and hands out the user seat.
    pub fn pair(&self, seat: &mut RawSeat) -> RawSeat
        requires own { seat.old.table_id ≡ self.now.table.shared.table_id }
        requires role { seat.old.me.0.role ≡ Both }
        ensures own { seat.new.table_id ≡ seat.old.table_id }
        ensures of_ring { result.table_id ≡ seat.old.table_id }
        ensures kernel { seat.new.me ≡ (record seat.old.me.0 { role = Kernel }, seat.old.me.1) }
        ensures user { result.me ≡ (record seat.old.me.0 { role = User }, []) }
    {
        self.table.shared.split_seat::<Pair>(seat)
    }
}
