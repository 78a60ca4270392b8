ghost use Rattle.std.specs.Prelude.{◌≡◌, ◌+◌, ◌^◌, ◌<◌, ◌≤◌, ◌==◌, IfOk, IfSome, OnOk, find};
ghost use Rattle.std.specs.List.{list_any};
ghost use Rattle.dr_types.specs.Pages.{slot_field, pages_of_slots};
ghost use Rattle.dr_types.specs.Validity.{meet};
ghost use Rattle.dr_guestfile_lines.specs.Reading.{Gives};
ghost use Rattle.dr_guestfile.specs.SlotLines.{AreInBounds, slot_of, apart_from, admitted};
ghost use Rattle.dr_guestfile.specs.SlotLines.{is_same_slot, slots_in};

use dr_guestfile_lines::{Line, Lines, number, spaced_number};
use dr_slots::{pages_in, slot_field};
use dr_types::limits::{GREATEST_SLOT_ID, MOST_COPIES, MOST_PAGES, MOST_SLOTS};
use dr_types::{FileFault, SlotList, SlotRow, What};
use std::alloc::Global;

/// The frame after the last that a slot may have.
pub const FRAMES_END: u64 = 1 << 52;

/// `slot ID BASE PAGES`, where ID may have the prefix of its space.
#[tactic(auto, unfolding(crate::specs::SlotLines::slot_of))]
fn slot(version: u32, line: Line<'_>) -> Result<SlotRow, FileFault>
    ensures line { result ≡ slot_of version line.entry }
    ensures field { IfOk result (λ row. slot_field row < 2 ^ 32) }
    ensures ends { IfOk result (λ row. row.base + row.pages ≤ 2 ^ 52) }
{
    let no = line.number;
    let (id, base, pages) = line
        .words
        .after_first()
        .three()
        .ok_or(FileFault::Line { no })?;
    let (space, id) = spaced_number(version, id, u64::from(GREATEST_SLOT_ID)).ok_or(
        FileFault::Number { no },
    )?;
    let base = number(base, 0, u64::MAX).ok_or(FileFault::Number { no })?;
    let pages = number(pages, 1, u64::from(u32::MAX)).ok_or(FileFault::Number { no })?;
    if base > FRAMES_END || base + pages > FRAMES_END {
        return Err(FileFault::Number { no });
    }
    Ok(SlotRow {
        space,
        id: id as u32,
        base,
        pages: pages as u32,
    })
}

/// The slots share a frame of one space.
fn meets(a: &SlotRow, b: &SlotRow) -> bool
    requires first { a.now.base + a.now.pages < 2 ^ 64 }
    requires second { b.now.base + b.now.pages < 2 ^ 64 }
    ensures { result ≡ meet a.now b.now }
{
    a.space == b.space
        && (a.base < b.base + u64::from(b.pages) && b.base < a.base + u64::from(a.pages))
}

/// One of the slots has this one's space and id.
fn has_slot(rows: &[SlotRow], row: SlotRow) -> bool
    ensures { result ≡ list_any (λ slot. is_same_slot slot row) rows.now }
{
    rows.iter()
        .any(|slot| slot.space == row.space && slot.id == row.id)
}

/// The first of the slots that meets this one.
#[tactic(auto, using(crate::proofs::SlotParts::found_fits))]
fn first_meeting(rows: &[SlotRow], row: SlotRow) -> Option<SlotRow>
    requires slots { AreInBounds rows.now }
    requires ends { row.base + row.pages ≤ 2 ^ 52 }
    ensures first { result ≡ find (λ slot. meet slot row) rows.now }
    ensures field { IfSome result (λ slot. slot_field slot < 2 ^ 32) }
{
    rows.iter().copied().find(|slot| meets(slot, &row))
}

/// The fault of a slot that meets an earlier one.
fn stand_apart(earlier: &[SlotRow], row: SlotRow) -> Result<(), FileFault>
    requires slots { AreInBounds earlier.now }
    requires field { slot_field row < 2 ^ 32 }
    requires ends { row.base + row.pages ≤ 2 ^ 52 }
    ensures { result ≡ apart_from (find (λ slot. meet slot row) earlier.now) row }
{
    match first_meeting(earlier, row) {
        None => Ok(()),
        Some(slot) => Err(FileFault::Overlap {
            a: slot_field(&slot),
            b: slot_field(&row),
        }),
    }
}

/// The faults of a slot after earlier ones.
#[tactic(auto, unfolding(crate::specs::SlotLines::admitted))]
fn admit(rounds: u32, earlier: &[SlotRow], row: SlotRow, no: u64) -> Result<(), FileFault>
    requires slots { AreInBounds earlier.now }
    requires field { slot_field row < 2 ^ 32 }
    requires ends { row.base + row.pages ≤ 2 ^ 52 }
    ensures faults { result ≡ admitted rounds earlier.now row no }
    ensures pages { OnOk result (pages_of_slots earlier.now + row.pages ≤ 16384) }
{
    if earlier.len() >= MOST_SLOTS {
        return Err(FileFault::TooLarge {
            what: What::Slots,
            no,
        });
    }
    if has_slot(earlier, row) {
        return Err(FileFault::SlotTwice { no });
    }
    stand_apart(earlier, row)?;
    let pages = u64::from(pages_in(earlier)) + u64::from(row.pages);
    if pages > u64::from(MOST_PAGES) {
        return Err(FileFault::TooLarge {
            what: What::Pages,
            no,
        });
    }
    if pages * (u64::from(rounds) + 1) > MOST_COPIES {
        return Err(FileFault::TooLarge {
            what: What::Copies,
            no,
        });
    }
    Ok(())
}

/// The slot lines, of which there is one at least. `Memory` where an allocation was refused.
pub fn slots(
    alloc: Global,
    input: &mut Lines<'_>,
    version: u32,
    rounds: u32,
) -> Result<SlotList, FileFault>
    ensures { Gives result input.new (slots_in version rounds input.old) }
{
    let mut rows = SlotList::new(alloc);
    while let Some(line) = input.next_if(b"slot") {
        let no = line.number;
        let row = slot(version, line)?;
        admit(rounds, rows.as_slice(), row, no)?;
        rows.push(row)?;
    }
    if rows.is_empty() {
        return Err(input.refuse());
    }
    Ok(rows)
}
