ghost use Rattle.std.specs.Prelude.{◌≡◌, ◌/◌};
ghost use Rattle.dr_guestfile.specs.OpLines.{placed, write_of, fill_of, read_of, add_of, store_of};
ghost use Rattle.dr_guestfile.specs.OpLines.{nap_of, halt_of, op_of, going_on, op_of_body};

use crate::keyword::Keyword;
use dr_guestfile_lines::{Words, hex_byte, hex_word, number, spaced_number};
use dr_slots::Slots;
use dr_types::limits::LONGEST_NAP_US;
use dr_types::{FileFault, Op};

/// Where the places that the ops of a file name may lie.
#[derive(Drop)]
pub struct Places<'a> {
    /// The version of the file, which says what spaces a word may name.
    pub version: u32,
    /// The slots of the guest.
    pub slots: &'a Slots,
}

/// The faults of so many bytes from an address of a space.
fn place(slots: &Slots, space: u32, address: u64, bytes: u32, no: u64) -> Result<(), FileFault>
    ensures { result ≡ placed slots.now space address bytes no }
{
    if slots.page_of(space, address).is_none() {
        return Err(FileFault::Unmapped { no });
    }
    if address % 4096 + u64::from(bytes) > 4096 {
        return Err(FileFault::CrossPage { no });
    }
    Ok(())
}

/// `w ADDR HEX`
#[tactic(auto, unfolding(crate::specs::OpLines::write_of))]
fn write(places: &Places<'_>, arguments: Words<'_>, no: u64) -> Result<Op, FileFault>
    ensures { result ≡ write_of places.now.version places.now.slots.now arguments.entry no }
{
    let (address, bytes) = arguments.two().ok_or(FileFault::Line { no })?;
    let (space, addr) = spaced_number(places.version, address, u64::MAX).ok_or(FileFault::Number {
        no,
    })?;
    let (len, value) = hex_word(bytes, 8).ok_or(FileFault::Number { no })?;
    place(places.slots, space, addr, len, no)?;
    Ok(Op::W {
        space,
        addr,
        len,
        value,
    })
}

/// `f GFN HH`
#[tactic(auto, unfolding(crate::specs::OpLines::fill_of))]
fn fill(places: &Places<'_>, arguments: Words<'_>, no: u64) -> Result<Op, FileFault>
    ensures { result ≡ fill_of places.now.version places.now.slots.now arguments.entry no }
{
    let (frame, byte) = arguments.two().ok_or(FileFault::Line { no })?;
    let (space, gfn) = spaced_number(places.version, frame, u64::MAX).ok_or(FileFault::Number {
        no,
    })?;
    let byte = hex_byte(byte).ok_or(FileFault::Number { no })?;
    if places.slots.page_of_frame(space, gfn).is_none() {
        return Err(FileFault::Unmapped { no });
    }
    Ok(Op::F { space, gfn, byte })
}

/// `r ADDR`
#[tactic(auto, unfolding(crate::specs::OpLines::read_of))]
fn read(places: &Places<'_>, arguments: Words<'_>, no: u64) -> Result<Op, FileFault>
    ensures { result ≡ read_of places.now.version places.now.slots.now arguments.entry no }
{
    let address = arguments.one().ok_or(FileFault::Line { no })?;
    let (space, addr) = spaced_number(places.version, address, u64::MAX).ok_or(FileFault::Number {
        no,
    })?;
    place(places.slots, space, addr, 8, no)?;
    Ok(Op::R { space, addr })
}

/// `a N`
#[tactic(auto, unfolding(crate::specs::OpLines::add_of))]
fn add(arguments: Words<'_>, no: u64) -> Result<Op, FileFault>
    ensures { result ≡ add_of arguments.entry no }
{
    let word = arguments.one().ok_or(FileFault::Line { no })?;
    let n = number(word, 0, u64::MAX).ok_or(FileFault::Number { no })?;
    Ok(Op::A { n })
}

/// `s ADDR`
#[tactic(auto, unfolding(crate::specs::OpLines::store_of))]
fn store(places: &Places<'_>, arguments: Words<'_>, no: u64) -> Result<Op, FileFault>
    ensures { result ≡ store_of places.now.version places.now.slots.now arguments.entry no }
{
    let address = arguments.one().ok_or(FileFault::Line { no })?;
    let (space, addr) = spaced_number(places.version, address, u64::MAX).ok_or(FileFault::Number {
        no,
    })?;
    place(places.slots, space, addr, 8, no)?;
    Ok(Op::S { space, addr })
}

/// `nap US`
#[tactic(auto, unfolding(crate::specs::OpLines::nap_of))]
fn nap(arguments: Words<'_>, no: u64) -> Result<Op, FileFault>
    ensures { result ≡ nap_of arguments.entry no }
{
    let word = arguments.one().ok_or(FileFault::Line { no })?;
    let us = number(word, 0, u64::from(LONGEST_NAP_US)).ok_or(FileFault::Number { no })?;
    Ok(Op::Nap { us: us as u32 })
}

/// `halt`
#[tactic(auto, unfolding(crate::specs::OpLines::halt_of))]
fn halt(arguments: Words<'_>, no: u64) -> Result<Op, FileFault>
    ensures { result ≡ halt_of arguments.entry no }
{
    if arguments.is_empty() {
        Ok(Op::Halt)
    } else {
        Err(FileFault::Line { no })
    }
}

/// The op of a line that begins with this keyword.
#[tactic(auto, unfolding(crate::specs::OpLines::op_of))]
pub fn op(
    places: &Places<'_>,
    keyword: Option<Keyword>,
    arguments: Words<'_>,
    no: u64,
) -> Result<Op, FileFault>
    ensures { result ≡ op_of places.now.version places.now.slots.now keyword arguments.entry no }
{
    match keyword {
        Some(Keyword::Write) => write(places, arguments, no),
        Some(Keyword::Fill) => fill(places, arguments, no),
        Some(Keyword::Read) => read(places, arguments, no),
        Some(Keyword::Add) => add(arguments, no),
        Some(Keyword::Store) => store(places, arguments, no),
        Some(Keyword::Nap) => nap(arguments, no),
        Some(Keyword::Halt) => halt(arguments, no),
        _ => Err(FileFault::Line { no }),
    }
}

/// The op, unless it ends the script.
fn no_halt(op: Op, no: u64) -> Result<Op, FileFault>
    ensures { result ≡ going_on no op }
{
    match op {
        Op::Halt => Err(FileFault::Line { no }),
        _ => Ok(op),
    }
}

/// The op of a line in a repeated part, where `halt` may not stand.
#[tactic(auto, unfolding(crate::specs::OpLines::op_of_body))]
pub fn body_op(
    places: &Places<'_>,
    keyword: Option<Keyword>,
    arguments: Words<'_>,
    no: u64,
) -> Result<Op, FileFault>
    ensures { result
        ≡ op_of_body places.now.version places.now.slots.now keyword arguments.entry no }
{
    let op = op(places, keyword, arguments, no)?;
    no_halt(op, no)
}
