ghost use Rattle.std.specs.Prelude.{◌≡◌, Some, IfOk, IfSome};
ghost use Rattle.dr_guestfile.specs.FaultLines.{line_of};

use crate::found::Found;
use crate::hints::hint;
use crate::line_texts::{line_text, plain};
use crate::number_texts::{number_text, ring_text};
use crate::scene::{Above, Scene, Seen, scene_at};
use crate::slot_texts::{crossing_text, overlap_text, sharing_text, twice_text, unmapped_text};
use dr_guestfile::named_line;
use dr_types::limits::{MOST_COPIES, MOST_OPS, MOST_PAGES, MOST_SLOTS, MOST_VCPUS};
use dr_types::{FileFault, Memory, Text, What};
use std::alloc::Global;

/// What helps to mend a guest file.
#[derive(Debug, Drop)]
pub struct Explained {
    /// The line of the fault, from 1.
    pub line: Option<u64>,
    /// One line in plain words, without a line feed: what was found, and what may stand there.
    pub text: Text,
}

/// What is said of a first line that says no version of a guest file.
fn magic_text(alloc: Global, seen: Seen<'_>) -> Result<Text, Memory> {
    let Seen::Line(found) = seen else {
        return plain(
            alloc,
            "the file has to begin with the line `dirtyguest 1` or `dirtyguest 2`",
        );
    };
    let line = found.quoted(alloc)?;
    let text = format!(in alloc;
        "the file has to begin with the line `dirtyguest 1` or `dirtyguest 2`, and begins with {line}"
    )?;
    Ok(Text::from_string(text))
}

/// What is said of a `buffer` line that leaves no room in the ring.
fn reserve_text(alloc: Global, above: &Above<'_>, found: &Found<'_>) -> Result<Text, Memory> {
    match (above.ring, above.reserve, found.number()) {
        (Some(ring), Some(reserve), Some(buffer)) if reserve.saturating_add(buffer) >= ring => {
            let text = format!(in alloc;
                "`reserve` and `buffer` together have to be less than `ring`: {reserve} + {buffer} is not less than {ring}"
            )?;
            Ok(Text::from_string(text))
        }
        _ => plain(
            alloc,
            "`reserve` and `buffer` together have to be less than `ring`",
        ),
    }
}

/// What is said where the slots have too many pages.
fn pages_text(alloc: Global, pages: u64) -> Result<Text, Memory> {
    let text = format!(in alloc;
        "the slots up to here have {pages} pages together, and at most {MOST_PAGES} may be"
    )?;
    Ok(Text::from_string(text))
}

/// What is said where the pages may be copied too often.
fn copies_text(alloc: Global, pages: u64, rounds: u64) -> Result<Text, Memory> {
    let copies = pages.saturating_mul(rounds.saturating_add(1));
    let text = format!(in alloc;
        "{pages} pages times ({rounds} rounds + 1) is {copies}, and at most {MOST_COPIES} may be"
    )?;
    Ok(Text::from_string(text))
}

/// What is said where there is one too many of something.
fn one_more_text(alloc: Global, most: usize, what: &str) -> Result<Text, Memory> {
    let text = format!(in alloc; "at most {most} {what} may be, and this is one more")?;
    Ok(Text::from_string(text))
}

/// What is said where the scripts have too many ops.
fn ops_text(alloc: Global, ops: u64) -> Result<Text, Memory> {
    let text = format!(in alloc;
        "all scripts together have {ops} ops up to here, each repetition counted, and at most {MOST_OPS} may be"
    )?;
    Ok(Text::from_string(text))
}

/// What is said where there is too much of something.
fn too_large_text(alloc: Global, what: What, scene: &Scene<'_>) -> Result<Text, Memory> {
    match what {
        What::Slots => one_more_text(alloc, MOST_SLOTS, "slots"),
        What::Pages => pages_text(alloc, scene.pages()),
        What::Copies => copies_text(alloc, scene.pages(), scene.above.rounds.unwrap_or(0)),
        What::Vcpus => one_more_text(alloc, MOST_VCPUS, "vCPUs"),
        What::Ops => ops_text(alloc, scene.ops()),
    }
}

/// What is said of a fault whose line isn't seen.
fn unseen_text(why: FileFault) -> &'static str {
    match why {
        FileFault::RingSize { .. } => "the ring's size has to be a power of two from 4 to 65536",
        FileFault::Reserve { .. } => "`reserve` and `buffer` together have to be less than `ring`",
        FileFault::SlotTwice { .. } => {
            "a slot with this ID stands above, and each ID may stand once"
        }
        FileFault::Unmapped { .. } => "the page lies in no slot",
        FileFault::CrossPage { .. } => "the bytes don't lie in one page of 4096 bytes",
        FileFault::Memory => "out of memory",
        _ => "a word is no number of its place, or out of its range",
    }
}

/// What is said of a fault in a line, over what stands there.
fn found_text(
    alloc: Global,
    above: &Above<'_>,
    found: &Found<'_>,
    why: FileFault,
) -> Result<Text, Memory> {
    match why {
        FileFault::Number { .. } => number_text(alloc, above.version, found),
        FileFault::RingSize { .. } => ring_text(alloc, found),
        FileFault::Reserve { .. } => reserve_text(alloc, above, found),
        FileFault::SlotTwice { .. } => twice_text(alloc, above, found),
        FileFault::Unmapped { .. } => unmapped_text(alloc, above, found),
        FileFault::CrossPage { .. } => crossing_text(alloc, above.version, found),
        _ => plain(alloc, unseen_text(why)),
    }
}

/// What is said of a fault in a line, without a hint.
fn bare_text(alloc: Global, scene: &Scene<'_>, why: FileFault) -> Result<Text, Memory> {
    match (why, scene.seen) {
        (FileFault::Magic { .. }, seen) => magic_text(alloc, seen),
        (FileFault::Line { .. }, _) => line_text(alloc, scene),
        (FileFault::TooLarge { what, .. }, _) => too_large_text(alloc, what, scene),
        (_, Seen::Line(found)) => found_text(alloc, &scene.above, &found, why),
        _ => plain(alloc, unseen_text(why)),
    }
}

/// What is said of a fault in a line, with a hint where there is one.
fn scene_text(alloc: Global, scene: &Scene<'_>, why: FileFault) -> Result<Text, Memory> {
    let mut text = bare_text(alloc, scene, why)?;
    if let Seen::Line(found) = scene.seen {
        text.push_str(hint(&found))?;
    }
    Ok(text)
}

/// What is said of two slots that share a frame.
fn explain_overlap(alloc: Global, file: &[u8], a: u32, b: u32) -> Result<Explained, Memory> {
    let scene = scene_at(alloc, file, u64::MAX)?;
    let earlier = scene.above.slot_line(u64::from(a));
    let Some(later) = scene.above.slot_line(u64::from(b)) else {
        let text = sharing_text(alloc, a, b)?;
        return Ok(Explained { line: None, text });
    };
    let text = match earlier {
        Some(earlier) => overlap_text(alloc, &earlier, &later)?,
        None => sharing_text(alloc, a, b)?,
    };
    Ok(Explained {
        line: Some(later.no),
        text,
    })
}

/// What a person needs to mend a guest file that was refused for this fault: where, what was found
/// there, and what may stand there. Any text and any fault may be given: less is said of a fault
/// that isn't the text's.
pub fn explain(alloc: Global, file: &[u8], why: FileFault) -> Result<Explained, Memory>
    ensures line { IfOk result
        (λ explained. IfSome (line_of why) (λ no. explained.line ≡ Some no)) }
{
    if let FileFault::Overlap { a, b } = why {
        return explain_overlap(alloc, file, a, b);
    }
    let line = named_line(why);
    let text = match line {
        Some(no) => scene_text(alloc, &scene_at(alloc, file, no)?, why)?,
        None => plain(alloc, unseen_text(why))?,
    };
    Ok(Explained { line, text })
}
