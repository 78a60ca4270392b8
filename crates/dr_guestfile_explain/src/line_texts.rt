use crate::found::Found;
use crate::scene::{Scene, Seen, Spot};
use dr_guestfile::Keyword;
use dr_types::{Memory, Text};
use std::alloc::Global;

/// A text that is always the same.
pub fn plain(alloc: Global, text: &str) -> Result<Text, Memory> {
    let mut out = Text::new(alloc);
    out.push_str(text)?;
    Ok(out)
}

/// How a line with this keyword is written.
fn form(keyword: Keyword) -> &'static str {
    match keyword {
        Keyword::Dirtyguest => "dirtyguest 1` or `dirtyguest 2",
        Keyword::Ring => "ring N",
        Keyword::Reserve => "reserve N",
        Keyword::Buffer => "buffer N",
        Keyword::Pace => "pace N",
        Keyword::Threshold => "threshold N",
        Keyword::Rounds => "rounds N",
        Keyword::Quota => "quota N",
        Keyword::Slot => "slot ID BASE PAGES",
        Keyword::Vcpu => "vcpu",
        Keyword::Write => "w ADDR HEX",
        Keyword::Fill => "f GFN HH",
        Keyword::Read => "r ADDR",
        Keyword::Add => "a N",
        Keyword::Store => "s ADDR",
        Keyword::Nap => "nap US",
        Keyword::Rep => "rep N",
        Keyword::End => "end",
        Keyword::Halt => "halt",
    }
}

/// Another line was expected.
fn expected(alloc: Global, wanted: &str, found: &Found<'_>) -> Result<Text, Memory> {
    let line = found.quoted(alloc)?;
    let text = format!(in alloc; "expected {wanted} here, and found {line}")?;
    Ok(Text::from_string(text))
}

/// A line with this keyword was expected.
fn expected_form(alloc: Global, keyword: Keyword, found: &Found<'_>) -> Result<Text, Memory> {
    let wanted = form(keyword);
    let wanted = format!(in alloc; "`{wanted}`")?;
    expected(alloc, wanted.as_str(), found)
}

/// A line that may not stand where a slot line or the first `vcpu` has to.
fn in_slots(alloc: Global, found: &Found<'_>) -> Result<Text, Memory> {
    match found.keyword() {
        Some(Keyword::Slot) => expected_form(alloc, Keyword::Slot, found),
        Some(Keyword::Vcpu) => expected_form(alloc, Keyword::Vcpu, found),
        _ => expected(alloc, "`slot ID BASE PAGES` or `vcpu`", found),
    }
}

/// A line that may not stand in a script.
fn in_script(alloc: Global, found: &Found<'_>) -> Result<Text, Memory> {
    match found.keyword() {
        Some(Keyword::Vcpu) => plain(
            alloc,
            "the script above has no `halt`: it has to end with one before the next `vcpu`",
        ),
        Some(Keyword::End) => plain(alloc, "this `end` closes nothing: no `rep` is open here"),
        Some(
            op @ (Keyword::Write
            | Keyword::Fill
            | Keyword::Read
            | Keyword::Add
            | Keyword::Store
            | Keyword::Nap
            | Keyword::Rep
            | Keyword::Halt),
        ) => expected_form(alloc, op, found),
        _ => expected(
            alloc,
            "an op (`w`, `f`, `r`, `a`, `s`, `nap`, `rep` or `halt`)",
            found,
        ),
    }
}

/// An `end` that may not stand: with words after it, or in an empty `rep`.
fn at_end(alloc: Global, rep: u64, found: &Found<'_>) -> Result<Text, Memory> {
    if !found.second.is_empty() {
        return expected_form(alloc, Keyword::End, found);
    }
    let text = format!(in alloc;
        "the `rep` of line {rep} is empty: an op has to stand before its `end`"
    )?;
    Ok(Text::from_string(text))
}

/// A line that may not stand inside the `rep` of line `rep`, since that is still open.
fn still_open(alloc: Global, what: &str, rep: u64) -> Result<Text, Memory> {
    let text = format!(in alloc; "{what}: the `rep` of line {rep} has no `end` yet")?;
    Ok(Text::from_string(text))
}

/// A line that may not stand in the `rep` of line `rep`.
fn in_repeat(alloc: Global, rep: u64, found: &Found<'_>) -> Result<Text, Memory> {
    match found.keyword() {
        Some(Keyword::End) => at_end(alloc, rep, found),
        Some(Keyword::Rep) => still_open(alloc, "a `rep` may not stand inside another", rep),
        Some(Keyword::Halt) => still_open(alloc, "`halt` may not stand inside a `rep`", rep),
        Some(Keyword::Vcpu) => still_open(alloc, "`vcpu` may not stand inside a `rep`", rep),
        Some(
            op @ (Keyword::Write
            | Keyword::Fill
            | Keyword::Read
            | Keyword::Add
            | Keyword::Store
            | Keyword::Nap),
        ) => expected_form(alloc, op, found),
        _ => expected(
            alloc,
            "an op (`w`, `f`, `r`, `a`, `s` or `nap`) or `end`",
            found,
        ),
    }
}

/// A line that may not stand after a script.
fn after_halt(alloc: Global, found: &Found<'_>) -> Result<Text, Memory> {
    if found.keyword() == Some(Keyword::Vcpu) {
        return expected_form(alloc, Keyword::Vcpu, found);
    }
    let line = found.quoted(alloc)?;
    let text = format!(in alloc;
        "after a `halt` only `vcpu` may stand, for the next script, and this is {line}"
    )?;
    Ok(Text::from_string(text))
}

/// A line that may not stand at this spot.
fn misplaced(alloc: Global, spot: Spot, found: &Found<'_>) -> Result<Text, Memory> {
    match spot {
        Spot::First => expected_form(alloc, Keyword::Dirtyguest, found),
        Spot::Setting(setting) => expected_form(alloc, setting, found),
        Spot::FirstSlot => expected_form(alloc, Keyword::Slot, found),
        Spot::Slots => in_slots(alloc, found),
        Spot::Script => in_script(alloc, found),
        Spot::Repeat { no, .. } => in_repeat(alloc, no, found),
        Spot::Halted => after_halt(alloc, found),
    }
}

/// The file ends where a line with this keyword has to stand.
fn missing_form(alloc: Global, keyword: Keyword) -> Result<Text, Memory> {
    let wanted = form(keyword);
    let text = format!(in alloc; "the file ends here, and `{wanted}` is missing")?;
    Ok(Text::from_string(text))
}

/// The file ends at this spot.
fn missing(alloc: Global, spot: Spot) -> Result<Text, Memory> {
    match spot {
        Spot::First => missing_form(alloc, Keyword::Dirtyguest),
        Spot::Setting(setting) => missing_form(alloc, setting),
        Spot::FirstSlot => missing_form(alloc, Keyword::Slot),
        Spot::Slots => plain(
            alloc,
            "the file ends here, and a script is missing: `vcpu`, its ops and `halt`",
        ),
        Spot::Script => plain(alloc, "the file ends here, and a `halt` is missing"),
        Spot::Repeat { no, .. } => {
            let text = format!(in alloc;
                "the file ends here, and the `rep` of line {no} is not closed: its `end` is missing"
            )?;
            Ok(Text::from_string(text))
        }
        Spot::Halted => plain(alloc, "the file ends here"),
    }
}

/// What is said of a line that may not stand where it does, or that has another number of words.
pub fn line_text(alloc: Global, scene: &Scene<'_>) -> Result<Text, Memory> {
    match scene.seen {
        Seen::Line(found) => misplaced(alloc, scene.above.spot, &found),
        Seen::End => missing(alloc, scene.above.spot),
        Seen::Nothing => plain(
            alloc,
            "this line may not stand here, or has the wrong number of words",
        ),
    }
}
