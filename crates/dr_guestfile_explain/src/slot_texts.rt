use crate::found::Found;
use crate::line_texts::plain;
use crate::scene::{Above, SlotLine, field_of, slot_of};
use dr_guestfile::Keyword;
use dr_guestfile_lines::hex_word;
use dr_types::{Memory, SlotRow, Text, space_prefix};
use std::alloc::Global;

/// What is said of a slot line whose ID stands above.
pub fn twice_text(alloc: Global, above: &Above<'_>, found: &Found<'_>) -> Result<Text, Memory> {
    let Some(slot) = slot_of(above.version, found) else {
        return plain(
            alloc,
            "a slot with this ID stands above, and each ID may stand once",
        );
    };
    let Some(earlier) = above.slot_line(field_of(slot)) else {
        return plain(
            alloc,
            "a slot with this ID stands above, and each ID may stand once",
        );
    };
    let line = found.quoted(alloc)?;
    let (no, id) = (earlier.no, slot.id);
    let prefix = space_prefix(slot.space);
    let whole = if above.version == 2 {
        " in each space"
    } else {
        ""
    };
    let text = format!(in alloc;
        "{line}: slot {prefix}{id} stands on line {no} already, and each ID may stand once{whole}"
    )?;
    Ok(Text::from_string(text))
}

/// What is said of two slots that share a frame, where their lines are not both found.
pub fn sharing_text(alloc: Global, a: u32, b: u32) -> Result<Text, Memory> {
    let (first, second) = (space_prefix(a / 65_536), space_prefix(b / 65_536));
    let (a, b) = (a % 65_536, b % 65_536);
    let text = format!(in alloc; "slots {first}{a} and {second}{b} share guest frames")?;
    Ok(Text::from_string(text))
}

/// What is said of a slot line that shares a frame with an earlier one.
pub fn overlap_text(
    alloc: Global,
    earlier: &SlotLine<'_>,
    later: &SlotLine<'_>,
) -> Result<Text, Memory> {
    let line = later.found.quoted(alloc)?;
    let (no, id) = (earlier.no, earlier.slot.id);
    let prefix = space_prefix(earlier.slot.space);
    let text = format!(in alloc; "{line} shares guest frames with slot {prefix}{id} of line {no}")?;
    Ok(Text::from_string(text))
}

/// How far a frame lies from a slot; 0 where it lies in it.
fn distance(slot: SlotRow, frame: u64) -> u64 {
    let end = slot.base.saturating_add(u64::from(slot.pages));
    if frame < slot.base {
        slot.base - frame
    } else {
        frame.saturating_add(1).saturating_sub(end)
    }
}

/// The slot of a space that lies nearest to a frame.
fn nearest(above: &Above<'_>, space: u32, frame: u64) -> Option<SlotRow> {
    let mut best = None;
    let mut least = u64::MAX;
    for line in above.slots.iter() {
        let here = distance(line.slot, frame);
        if line.slot.space == space && here < least {
            best = Some(line.slot);
            least = here;
        }
    }
    best
}

/// What is said of an op whose page lies in no slot, where that can't be seen.
fn no_slot(alloc: Global, found: &Found<'_>) -> Result<Text, Memory> {
    let line = found.quoted(alloc)?;
    let text = format!(in alloc; "{line}: the page lies in no slot")?;
    Ok(Text::from_string(text))
}

/// What is said of an op in a space that has no slots.
fn no_space(alloc: Global, space: u32, found: &Found<'_>) -> Result<Text, Memory> {
    let line = found.quoted(alloc)?;
    let text = format!(in alloc; "{line}: no slot stands in space {space}")?;
    Ok(Text::from_string(text))
}

/// An address outside of the slots, of which this one is the nearest.
fn far_address(
    alloc: Global,
    slot: SlotRow,
    found: &Found<'_>,
    address: u64,
) -> Result<Text, Memory> {
    let line = found.quoted(alloc)?;
    let id = slot.id;
    let end = slot.base.saturating_add(u64::from(slot.pages));
    let first = slot.base.saturating_mul(4096);
    let last = end
        .saturating_sub(1)
        .saturating_mul(4096)
        .saturating_add(4095);
    let prefix = space_prefix(slot.space);
    let text = format!(in alloc;
        "{line}: address {prefix}{address} lies in no slot; the nearest, slot {prefix}{id}, has the addresses {prefix}{first} to {prefix}{last}"
    )?;
    Ok(Text::from_string(text))
}

/// A frame outside of the slots, of which this one is the nearest.
fn far_frame(alloc: Global, slot: SlotRow, found: &Found<'_>, frame: u64) -> Result<Text, Memory> {
    let line = found.quoted(alloc)?;
    let (id, first) = (slot.id, slot.base);
    let last = first
        .saturating_add(u64::from(slot.pages))
        .saturating_sub(1);
    let prefix = space_prefix(slot.space);
    let text = format!(in alloc;
        "{line}: frame {prefix}{frame} lies in no slot; the nearest, slot {prefix}{id}, has the frames {prefix}{first} to {prefix}{last}"
    )?;
    Ok(Text::from_string(text))
}

/// What is said of an op whose page, of a space with slots, lies in none of them.
fn beside_text(
    alloc: Global,
    slot: SlotRow,
    found: &Found<'_>,
    number: u64,
) -> Result<Text, Memory> {
    let is_fill = found.keyword() == Some(Keyword::Fill);
    let frame = if is_fill { number } else { number / 4096 };
    if distance(slot, frame) == 0 {
        no_slot(alloc, found)
    } else if is_fill {
        far_frame(alloc, slot, found, number)
    } else {
        far_address(alloc, slot, found, number)
    }
}

/// What is said of an op whose page lies in no slot.
pub fn unmapped_text(alloc: Global, above: &Above<'_>, found: &Found<'_>) -> Result<Text, Memory> {
    let Some((space, number)) = found.spaced_number(above.version) else {
        return no_slot(alloc, found);
    };
    let frame = match found.keyword() {
        Some(Keyword::Fill) => number,
        _ => number / 4096,
    };
    match nearest(above, space, frame) {
        Some(slot) => beside_text(alloc, slot, found, number),
        None if above.version == 2 => no_space(alloc, space, found),
        None => no_slot(alloc, found),
    }
}

/// How many bytes an op loads or stores.
fn bytes_of(found: &Found<'_>) -> u64 {
    match found.keyword() {
        Some(Keyword::Write) => match hex_word(found.third, 8) {
            Some((bytes, _)) => u64::from(bytes),
            None => 0,
        },
        Some(Keyword::Read | Keyword::Store) => 8,
        _ => 0,
    }
}

/// What is said of an op whose bytes don't lie in one page.
pub fn crossing_text(alloc: Global, version: u32, found: &Found<'_>) -> Result<Text, Memory> {
    let bytes = bytes_of(found);
    let (space, address) = found.spaced_number(version).unwrap_or((0, 0));
    if bytes == 0 || (address % 4096).saturating_add(bytes) <= 4096 {
        return plain(alloc, "the bytes don't lie in one page of 4096 bytes");
    }
    let last = (address / 4096 * 4096).saturating_add(4096_u64.saturating_sub(bytes));
    let line = found.quoted(alloc)?;
    let prefix = space_prefix(space);
    let text = format!(in alloc;
        "{line}: the {bytes} bytes from {prefix}{address} on don't lie in one page of 4096 bytes; in this page they may begin at {prefix}{last} at most"
    )?;
    Ok(Text::from_string(text))
}
