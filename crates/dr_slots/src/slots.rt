ghost use Rattle.std.specs.Prelude.{◌≡◌, ◌/◌, ◌<◌, Some, IfOk, IfSome};
ghost use Rattle.dr_types.specs.Pages.{page_of_frame, pages_of_slots};
ghost use Rattle.dr_types.specs.Validity.{AreSlots};
ghost use Rattle.dr_slots.specs.Places.{place_of, page_at_place};

use crate::rows::{frame_page, page_place, place_page};
use dr_types::{Entry, Memory, SlotList, SlotRow};
use std::alloc::Global;
use std::marker::Model;

/// The slots of a guest, in the order of their lines.
#[derive(Debug, Drop)]
pub struct Slots {
    rows: Vec<SlotRow>,
}

impl Model for Slots {
    ghost use Rattle.std.specs.Prelude.{List, ◌≤◌, ◌<◌, ◌^◌, All};
    ghost use Rattle.dr_types.specs.declared.guest.SlotRow.{SlotRow};
    ghost use Rattle.dr_types.specs.Pages.{pages_of_slots, slot_field};

    ghost Value = { List SlotRow };

    ghost view = { λ slots. slots.rows.items };

    ghost invariant = { λ slots. (pages_of_slots slots.rows.items ≤ 16384)
        × All (λ row. slot_field row < 2 ^ 32) slots.rows.items };
}

impl Slots {
    /// The slots of these rows. `Memory` where an allocation was refused.
    pub fn new(alloc: Global, rows: &SlotList) -> Result<Slots, Memory>
        requires { AreSlots rows.now }
        ensures { IfOk result (λ slots. slots ≡ rows.now) }
    {
        Ok(Slots {
            rows: Vec::from_slice(alloc, rows.as_slice())?,
        })
    }

    /// The page that an address of a space, in bytes, lies in; `None` where it lies in no slot.
    pub fn page_of(&self, space: u32, addr: u64) -> Option<u32>
        ensures is { result ≡ page_of_frame self.now space (addr / 4096) }
        ensures within { IfSome result (λ page. page < pages_of_slots self.now) }
    {
        self.page_of_frame(space, addr / 4096)
    }

    /// The page of a guest frame of a space; `None` where it lies in no slot.
    pub fn page_of_frame(&self, space: u32, frame: u64) -> Option<u32>
        ensures is { result ≡ page_of_frame self.now space frame }
        ensures within { IfSome result (λ page. page < pages_of_slots self.now) }
    {
        frame_page(&self.rows, space, frame)
    }

    /// Where a page lies.
    pub fn place(&self, page: u32) -> Entry
        requires { page < pages_of_slots self.now }
        ensures { Some result ≡ place_of self.now page }
    {
        page_place(&self.rows, page)
    }

    /// The page of an offset in the slot of this field; `None` where the slot is missing or has
    /// fewer pages.
    pub fn page_at(&self, slot: u32, offset: u64) -> Option<u32>
        ensures { result ≡ page_at_place self.now slot offset }
    {
        place_page(&self.rows, slot, offset)
    }
}
