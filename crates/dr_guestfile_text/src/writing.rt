ghost use Rattle.std.specs.Prelude.{◌≡◌, ◌++◌, ◌∷◌, [], IfOk, OnOk, map, codes, decimal};
ghost use Rattle.std.specs.Prelude.{string_bytes};
ghost use Rattle.hex.specs.Hex.{encode_lower};
ghost use Rattle.std.specs.List.{flat_map};
ghost use Rattle.dr_types.specs.GuestText.{settings_lines, slot_line, op_line, item_lines};
ghost use Rattle.dr_types.specs.GuestText.{script_lines, guest_text};
ghost use Rattle.dr_types.specs.Lines.{named, line_text, lines_text, low_bytes};
ghost use Rattle.dr_types.specs.Spaces.{space_prefix, spaced_word};

use dr_types::{Guest, Item, Memory, Op, Script, Settings, SlotRow, Text, hex_of, space_prefix};
use std::alloc::Global;

/// A line of a word and a number.
#[tactic(auto, unfolding(dr_types::specs::Lines::line_text))]
fn put_named(alloc: Global, out: &mut Text, name: &str, number: u64) -> Result<(), Memory>
    ensures { OnOk result (out.new ≡ out.old ++ line_text (named name.now number)) }
{
    out.push_str(&format!(in alloc; "{name} {number}\n")?)
}

/// A line of one word.
#[tactic(auto, unfolding(dr_types::specs::Lines::line_text))]
fn put_word(alloc: Global, out: &mut Text, word: &str) -> Result<(), Memory>
    ensures { OnOk result (out.new ≡ out.old ++ line_text (word.now ∷ [])) }
{
    out.push_str(&format!(in alloc; "{word}\n")?)
}

/// A line of a word and a place in an address space.
#[tactic(auto, unfolding(dr_types::specs::Lines::line_text))]
fn put_place(
    alloc: Global,
    out: &mut Text,
    name: &str,
    space: u32,
    place: u64,
) -> Result<(), Memory>
    ensures { OnOk result (out.new ≡
        out.old ++ line_text (name.now ∷ spaced_word space place ∷ [])) }
{
    let prefix = space_prefix(space);
    out.push_str(&format!(in alloc; "{name} {prefix}{place}\n")?)
}

/// A line of a word, a place in an address space, and bytes in hex.
#[tactic(auto, unfolding(dr_types::specs::Lines::line_text))]
fn put_store(
    alloc: Global,
    out: &mut Text,
    name: &str,
    space: u32,
    place: u64,
    bytes: &str,
) -> Result<(), Memory>
    ensures { OnOk result (out.new ≡
        out.old ++ line_text (name.now ∷ spaced_word space place ∷ bytes.now ∷ [])) }
{
    let prefix = space_prefix(space);
    out.push_str(&format!(in alloc; "{name} {prefix}{place} {bytes}\n")?)
}

#[tactic(auto, unfolding(dr_types::specs::Lines::line_text))]
fn put_slot(alloc: Global, out: &mut Text, row: &SlotRow) -> Result<(), Memory>
    ensures { OnOk result (out.new ≡ out.old ++ line_text (slot_line row.now)) }
{
    let prefix = space_prefix(row.space);
    out.push_str(&format!(in alloc; "slot {prefix}{} {} {}\n", row.id, row.base, row.pages)?)
}

fn put_settings(alloc: Global, out: &mut Text, settings: &Settings) -> Result<(), Memory>
    ensures { OnOk result (out.new ≡ out.old ++ lines_text (settings_lines settings.now)) }
{
    put_named(alloc, out, "ring", u64::from(settings.ring))?;
    put_named(alloc, out, "reserve", u64::from(settings.reserve))?;
    put_named(alloc, out, "buffer", u64::from(settings.buffer))?;
    put_named(alloc, out, "pace", u64::from(settings.pace))?;
    put_named(alloc, out, "threshold", u64::from(settings.threshold))?;
    put_named(alloc, out, "rounds", u64::from(settings.rounds))?;
    put_named(alloc, out, "quota", settings.quota)?;
    Ok(())
}

fn put_op(alloc: Global, out: &mut Text, op: &Op) -> Result<(), Memory>
    ensures { OnOk result (out.new ≡ out.old ++ line_text (op_line op.now)) }
{
    match *op {
        Op::W {
            space,
            addr,
            len,
            value,
        } => {
            let hex = hex_of(alloc, len, value)?;
            put_store(alloc, out, "w", space, addr, &hex)
        }
        Op::F { space, gfn, byte } => {
            let hex = hex::encode(alloc, &[byte])?;
            put_store(alloc, out, "f", space, gfn, &hex)
        }
        Op::R { space, addr } => put_place(alloc, out, "r", space, addr),
        Op::A { n } => put_named(alloc, out, "a", n),
        Op::S { space, addr } => put_place(alloc, out, "s", space, addr),
        Op::Nap { us } => put_named(alloc, out, "nap", u64::from(us)),
        Op::Halt => put_word(alloc, out, "halt"),
    }
}

#[tactic(auto, using(crate::proofs::WritingParts::more_line))]
fn put_slots(alloc: Global, out: &mut Text, rows: &[SlotRow]) -> Result<(), Memory>
    ensures { OnOk result (out.new ≡ out.old ++ lines_text (map slot_line rows.now)) }
{
    for row in rows {
        put_slot(alloc, out, row)?;
    }
    Ok(())
}

#[tactic(auto, using(crate::proofs::WritingParts::more_line))]
fn put_ops(alloc: Global, out: &mut Text, ops: &[Op]) -> Result<(), Memory>
    ensures { OnOk result (out.new ≡ out.old ++ lines_text (map op_line ops.now)) }
{
    for op in ops {
        put_op(alloc, out, op)?;
    }
    Ok(())
}

fn put_item(alloc: Global, out: &mut Text, item: &Item) -> Result<(), Memory>
    ensures { OnOk result (out.new ≡ out.old ++ lines_text (item_lines item.now)) }
{
    match item {
        Item::One(op) => put_op(alloc, out, op),
        Item::Rep { n, body } => {
            put_named(alloc, out, "rep", u64::from(*n))?;
            put_ops(alloc, out, body.as_slice())?;
            put_word(alloc, out, "end")
        }
    }
}

#[tactic(auto, using(crate::proofs::WritingParts::more_lines))]
fn put_items(alloc: Global, out: &mut Text, items: &[Item]) -> Result<(), Memory>
    ensures { OnOk result (out.new ≡ out.old ++ lines_text (flat_map item_lines items.now)) }
{
    for item in items {
        put_item(alloc, out, item)?;
    }
    Ok(())
}

fn put_script(alloc: Global, out: &mut Text, script: &Script) -> Result<(), Memory>
    ensures { OnOk result (out.new ≡ out.old ++ lines_text (script_lines script.now)) }
{
    put_word(alloc, out, "vcpu")?;
    put_items(alloc, out, script.as_slice())
}

#[tactic(auto, using(crate::proofs::WritingParts::more_lines))]
fn put_scripts(alloc: Global, out: &mut Text, scripts: &[Script]) -> Result<(), Memory>
    ensures { OnOk result (out.new ≡ out.old ++ lines_text (flat_map script_lines scripts.now)) }
{
    for script in scripts {
        put_script(alloc, out, script)?;
    }
    Ok(())
}

/// The canonical text of a guest. `Memory` where an allocation was refused.
#[tactic(auto, using(crate::proofs::WritingParts::whole_text))]
pub fn write_guest(alloc: Global, guest: &Guest) -> Result<Text, Memory>
    ensures { IfOk result (λ text. text ≡ guest_text guest.now) }
{
    let mut out = Text::new(alloc);
    put_named(alloc, &mut out, "dirtyguest", u64::from(guest.version))?;
    put_settings(alloc, &mut out, &guest.settings)?;
    put_slots(alloc, &mut out, guest.slots.as_slice())?;
    put_scripts(alloc, &mut out, guest.scripts.as_slice())?;
    Ok(out)
}
