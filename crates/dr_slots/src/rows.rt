//! The searches over the rows of the slots.

ghost use Rattle.std.specs.Prelude.{◌≡◌, ◌<◌, ◌^◌, Some, IfSome, All};
ghost use Rattle.dr_types.specs.Pages.{page_of_frame as page_in_rows, pages_of_slots};
ghost use Rattle.dr_types.specs.Pages.{slot_field, has_frame};
ghost use Rattle.dr_slots.specs.Places.{place_of, page_at_place};

use dr_types::{Entry, SlotRow};

/// The field that names a slot in a ring entry: its space above its id.
pub fn slot_field(row: &SlotRow) -> u32
    requires { slot_field row.now < 2 ^ 32 }
    ensures { result ≡ slot_field row.now }
{
    row.space * 65536 + row.id
}

/// The slot has this frame of this space.
fn has_frame(row: &SlotRow, space: u32, frame: u64) -> bool
    ensures { result ≡ has_frame row.now space frame }
{
    row.space == space && row.base <= frame && frame - row.base < u64::from(row.pages)
}

/// How many pages the rows have together.
#[tactic(auto, using(crate::proofs::Pages::pages_from_row))]
pub fn pages_in(rows: &[SlotRow]) -> u32
    requires { pages_of_slots rows.now < 2 ^ 32 }
    ensures { result ≡ pages_of_slots rows.now }
{
    let mut count = 0;
    for row in rows {
        count += row.pages;
    }
    count
}

/// Looks for the slot of a guest frame of a space, and counts the pages before it.
#[tactic(auto, using(crate::proofs::Pages::page_from_row, crate::proofs::Pages::pages_from_row))]
fn find_frame(rows: &[SlotRow], space: u32, frame: u64) -> Option<u32>
    requires { pages_of_slots rows.now < 2 ^ 32 }
    ensures { result ≡ page_in_rows rows.now space frame }
{
    let mut first = 0;
    for row in rows {
        if has_frame(row, space, frame) {
            return Some(first + (frame - row.base) as u32);
        }
        first += row.pages;
    }
    None
}

/// The page of a guest frame of a space, where it lies in a slot.
pub fn frame_page(rows: &[SlotRow], space: u32, frame: u64) -> Option<u32>
    requires { pages_of_slots rows.now < 2 ^ 32 }
    ensures is { result ≡ page_in_rows rows.now space frame }
    ensures within { IfSome result (λ page. page < pages_of_slots rows.now) }
{
    find_frame(rows, space, frame)
}

/// Where a page lies.
pub fn page_place(rows: &[SlotRow], page: u32) -> Entry
    requires page { page < pages_of_slots rows.now }
    requires fields { All (λ row. slot_field row < 2 ^ 32) rows.now }
    ensures { Some result ≡ place_of rows.now page }
{
    let mut offset = page;
    for row in rows {
        if offset < row.pages {
            return Entry {
                slot: slot_field(row),
                offset: u64::from(offset),
            };
        }
        offset -= row.pages;
    }
    unreachable!()
}

/// The page of an offset in the slot of this field, where it is there and has that many pages.
pub fn place_page(rows: &[SlotRow], slot: u32, offset: u64) -> Option<u32>
    requires pages { pages_of_slots rows.now < 2 ^ 32 }
    requires fields { All (λ row. slot_field row < 2 ^ 32) rows.now }
    ensures { result ≡ page_at_place rows.now slot offset }
{
    let mut first = 0;
    for row in rows {
        if slot_field(row) == slot {
            return if offset < u64::from(row.pages) {
                Some(first + offset as u32)
            } else {
                None
            };
        }
        first += row.pages;
    }
    None
}
