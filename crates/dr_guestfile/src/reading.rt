ghost use Rattle.std.specs.Prelude.{◌≡◌, IfOk};
ghost use Rattle.dr_types.specs.Validity.{IsValid};
ghost use Rattle.dr_guestfile_lines.specs.Reading.{Reads, Answers};
ghost use Rattle.dr_guestfile_lines.specs.Words.{two_words};
ghost use Rattle.dr_guestfile.specs.GuestTexts.{version_said, version_of, magic_in, guest_of};
ghost use Rattle.dr_guestfile.specs.ScriptLines.{scripts_in};

use crate::ops::Places;
use crate::scripts::scripts;
use crate::settings::settings;
use crate::slot_lines::slots;
use dr_guestfile_lines::{Lines, Words};
use dr_slots::Slots;
use dr_types::{FileFault, Guest, ScriptList};
use std::alloc::Global;

/// The version that a word says.
fn version_said(word: &[u8]) -> Option<u32>
    ensures { result ≡ version_said word.now }
{
    if word == b"1".as_slice() {
        Some(1)
    } else if word == b"2".as_slice() {
        Some(2)
    } else {
        None
    }
}

/// The version that the words of the first line say: `dirtyguest 1` or `dirtyguest 2`.
fn version(words: Words<'_>) -> Option<u32>
    ensures { result ≡ version_of (two_words words.entry) }
{
    let (name, version) = words.two()?;
    if name != b"dirtyguest".as_slice() {
        return None;
    }
    version_said(version)
}

/// The version of a file, from its first line.
fn magic(input: &mut Lines<'_>) -> Result<u32, FileFault>
    ensures { Reads result input.new (magic_in input.old) }
{
    let Ok(line) = input.need_line() else {
        return Err(FileFault::Magic { no: 1 });
    };
    let no = line.number;
    version(line.words).ok_or(FileFault::Magic { no })
}

/// The scripts of a file of this version, for a guest with these slots.
fn read_scripts(
    alloc: Global,
    version: u32,
    slots: &Slots,
    input: &mut Lines<'_>,
) -> Result<ScriptList, FileFault>
    ensures { Answers result (scripts_in version slots.now input.old) }
{
    scripts(alloc, &Places { version, slots }, input)
}

/// The guest that a text says, or the text's first fault in the order of its lines. `Memory` where
/// an allocation was refused.
#[tactic(auto, unfolding(crate::specs::GuestTexts::guest_in))]
pub fn read_guest(alloc: Global, text: &[u8]) -> Result<Guest, FileFault>
    ensures value { Answers result (guest_of text.now) }
    ensures valid { IfOk result IsValid }
{
    let mut input = Lines::of(text);
    let version = magic(&mut input)?;
    let settings = settings(&mut input)?;
    let rows = slots(alloc, &mut input, version, settings.rounds)?;
    let slots = Slots::new(alloc, &rows)?;
    let scripts = read_scripts(alloc, version, &slots, &mut input)?;
    Ok(Guest {
        version,
        settings,
        slots: rows,
        scripts,
    })
}
