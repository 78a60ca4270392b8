//! The ops that a script stands for.
#![tactic(auto)]

mod reader;
#[cfg(test)]
mod tests;

ghost use Rattle.std.specs.Prelude.{◌≡◌, ℕ, List, Some, IfSome, ◌<◌, length, drop, slice_get};
ghost use Rattle.dr_types.specs.Scripts.{written_out, repeated, expanded, operation, vcpu_count};
ghost use Rattle.dr_types.specs.Scripts.{next_acc as acc_after};
ghost use Rattle.dr_types.specs.Validity.{IsScript, IsValid};
ghost use Rattle.dr_types.specs.declared.guest.Guest.{Guest};
ghost use Rattle.dr_types.specs.declared.guest.SlotRow.{SlotRow};
ghost use Rattle.dr_types.specs.declared.guest.Op.{Op};
ghost use Rattle.dr_types.specs.declared.guest.Item.{Item};
ghost use Rattle.dr_script.specs.Places.{AllRun};
ghost use Rattle.dr_script.specs.Fits.{IsOpOrHalt};
ghost use Rattle.dr_script.specs.Halts.{HaltsLast};

use dr_types::{Item, Op, OpList, Script};
pub use reader::Reader;

/// How many ops an item stands for.
#[tactic(auto, using(crate::proofs::Repeats::length_repeated))]
fn item_len(item: &Item) -> u128
    ensures { result ≡ length (written_out item.now) }
{
    match item {
        Item::One(_) => 1,
        Item::Rep { n, body } => u128::from(*n) * body.len() as u128,
    }
}

/// The op of this number of what an item stands for.
fn op_of_item(item: &Item, i: u32) -> Option<Op>
    ensures { result ≡ slice_get (written_out item.now) i }
{
    match item {
        Item::One(op) => if i == 0 { Some(*op) } else { None },
        Item::Rep { n, body } => repeated_op(body, *n, i),
    }
}

fn op_of_body(body: &OpList, i: usize) -> Option<Op>
    ensures { result ≡ slice_get body.now i }
{
    body.as_slice().get(i).copied()
}

/// The op of this number of a body that is repeated.
#[tactic(auto, using(crate::proofs::Repeats::at_repeated, crate::proofs::Repeats::past_repeated))]
fn repeated_op(body: &OpList, times: u32, i: u32) -> Option<Op>
    ensures { result ≡ slice_get (repeated times body.now) i }
{
    if u128::from(i) >= u128::from(times) * body.len() as u128 {
        return None;
    }
    op_of_body(body, i as usize % body.len())
}

/// The op of this number, from 0, of the script with each repetition written out; `None` past its
/// end.
#[tactic(auto, using(crate::proofs::Repeats::in_item, crate::proofs::Repeats::past_item))]
pub fn op_at(script: &Script, i: u32) -> Option<Op>
    ensures { result ≡ slice_get (expanded script.now) i }
{
    let mut left = i;
    for item in script.as_slice() {
        let len = item_len(item);
        if u128::from(left) < len {
            return op_of_item(item, left);
        }
        left -= len as u32;
    }
    None
}

/// The register after an op, where loaded is what a read gives.
pub fn next_acc(acc: u64, op: Op, loaded: u64) -> u64
    ensures { result ≡ acc_after acc (Some op) loaded }
{
    match op {
        Op::R { .. } => loaded,
        Op::A { n } => acc.wrapping_add(n),
        _ => acc,
    }
}

/// A reader that has gone on so many times gives the op of that number.
pub fn reader_gives_op_of_number()
    ensures { (script : List Item) (i : ℕ) →
        slice_get (drop i (expanded script)) 0 ≡ slice_get (expanded script) i }
{}

/// A valid guest's scripts can be read.
pub fn valid_scripts_run()
    ensures { (slots : List SlotRow) (script : List Item) → IsScript slots script → AllRun script }
{}

/// Each op of a valid guest has its numbers in their ranges and its bytes in one page, or is a
/// halt.
pub fn valid_ops_fit()
    ensures { (guest : Guest) (v i : ℕ) → IsValid guest →
        IfSome (operation guest v i) (IsOpOrHalt guest.slots) }
{}

/// Each script of a valid guest ends with a halt, and has no other.
pub fn valid_scripts_halt()
    ensures { (guest : Guest) (v : ℕ) → IsValid guest → v < vcpu_count guest → HaltsLast guest v }
{}
