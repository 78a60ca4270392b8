ghost use Rattle.std.specs.Prelude.{◌≡◌, ◌++◌, ◌∷◌, [], codes, string_bytes, OnOk, IfOk, All};
ghost use Rattle.std.specs.Prelude.{reverse};
ghost use Rattle.std.specs.List.{flat_map, join_with_byte};
ghost use Rattle.std.specs.Fmt.{decimal};
ghost use Rattle.dr_history.specs.Lines.{event_line, why_word, text};

use crate::event::Event;
use dr_types::{Memory, Why, hex_of, space_prefix};
use std::alloc::Global;
use std::fmt::Write;

/// The word for why a vCPU left the guest.
fn why_word(why: Why) -> &'static str
    ensures { result.now ≡ why_word why }
{
    match why {
        Why::Halted => "halted",
        Why::Stopped => "stopped",
        Why::Kicked => "kicked",
        Why::Full => "full",
        Why::Yield => "yield",
    }
}

/// Adds each page after a space.
fn push_pages(text: &mut String, pages: &[u32]) -> Result<(), Memory>
    ensures { OnOk result (string_bytes text.new
        ≡ string_bytes text.old ++ flat_map (λ page. 32 ∷ decimal page) pages.now) }
{
    for page in pages {
        write!(text, " {page}")?;
    }
    Ok(())
}

/// Adds a Read's line.
#[tactic(auto, unfolding(crate::specs::Lines::event_line, dr_types::specs::Lines::line_text))]
fn push_read(
    text: &mut String,
    v: u32,
    i: u32,
    space: u32,
    addr: u64,
    value: u64,
) -> Result<(), Memory>
    ensures { OnOk result (string_bytes text.new
        ≡ string_bytes text.old ++ event_line (Event.Read v i space addr value)) }
{
    let prefix = space_prefix(space);
    write!(text, "r {v} {i} {prefix}{addr} {value}\n")?;
    Ok(())
}

/// Adds a Write's line.
#[tactic(auto, unfolding(crate::specs::Lines::event_line, dr_types::specs::Lines::line_text))]
fn push_write(
    alloc: Global,
    text: &mut String,
    v: u32,
    i: u32,
    space: u32,
    addr: u64,
    len: u32,
    value: u64,
) -> Result<(), Memory>
    ensures { OnOk result (string_bytes text.new
        ≡ string_bytes text.old ++ event_line (Event.Write v i space addr len value)) }
{
    let hex = hex_of(alloc, len, value)?;
    let prefix = space_prefix(space);
    write!(text, "w {v} {i} {prefix}{addr} {hex}\n")?;
    Ok(())
}

/// Adds a Paint's line.
#[tactic(auto, unfolding(crate::specs::Lines::event_line, dr_types::specs::Lines::line_text))]
fn push_paint(
    alloc: Global,
    text: &mut String,
    v: u32,
    i: u32,
    page: u32,
    byte: u8,
) -> Result<(), Memory>
    ensures { OnOk result (string_bytes text.new
        ≡ string_bytes text.old ++ event_line (Event.Paint v i page byte)) }
{
    let hex = hex::encode(alloc, &[byte])?;
    write!(text, "f {v} {i} {page} {hex}\n")?;
    Ok(())
}

/// Adds the words of a Synced's line before its pages.
fn push_synced_head(text: &mut String, r: u32, at: u64, count: usize) -> Result<(), Memory>
    ensures { OnOk result (string_bytes text.new ≡ string_bytes text.old
        ++ join_with_byte 32 (codes "sync" ∷ decimal r ∷ decimal at ∷ decimal count ∷ [])) }
{
    write!(text, "sync {r} {at} {count}")?;
    Ok(())
}

/// Adds a Synced's line.
#[tactic(auto, using(crate::proofs::Words::synced_line))]
fn push_synced(text: &mut String, r: u32, at: u64, pages: &[u32]) -> Result<(), Memory>
    ensures { OnOk result (string_bytes text.new
        ≡ string_bytes text.old ++ event_line (Event.Synced r at pages.now)) }
{
    push_synced_head(text, r, at, pages.len())?;
    push_pages(text, pages)?;
    write!(text, "\n")?;
    Ok(())
}

/// Adds an event's line.
#[tactic(auto, unfolding(crate::specs::Lines::event_line, dr_types::specs::Lines::line_text))]
pub fn push_event(alloc: Global, text: &mut String, e: &Event) -> Result<(), Memory>
    ensures { OnOk result (string_bytes text.new ≡ string_bytes text.old ++ event_line e.now) }
{
    match e {
        Event::Start { at } => write!(text, "start {at}\n")?,
        Event::Read {
            v,
            i,
            space,
            addr,
            value,
        } => push_read(text, *v, *i, *space, *addr, *value)?,
        Event::Write {
            v,
            i,
            space,
            addr,
            len,
            value,
        } => push_write(alloc, text, *v, *i, *space, *addr, *len, *value)?,
        Event::Paint { v, i, page, byte } => push_paint(alloc, text, *v, *i, *page, *byte)?,
        Event::Local { v, i } => write!(text, "l {v} {i}\n")?,
        Event::Halted { v, i } => write!(text, "h {v} {i}\n")?,
        Event::Opened { v, k, page } => write!(text, "o {v} {k} {page}\n")?,
        Event::Filled { v, page } => write!(text, "c {v} {page}\n")?,
        Event::Pushed { v, k } => write!(text, "p {v} {k}\n")?,
        Event::Exited { v, why } => {
            let word = why_word(*why);
            write!(text, "x {v} {word}\n")?
        }
        Event::Deposited { v, from, to } => write!(text, "d {v} {from} {to}\n")?,
        Event::Reset { v, k } => write!(text, "z {v} {k}\n")?,
        Event::Flushed => write!(text, "flush\n")?,
        Event::Asked { r } => write!(text, "ask {r}\n")?,
        Event::Synced { r, at, pages } => push_synced(text, *r, *at, pages.as_slice())?,
        Event::Copied { r, page } => write!(text, "copy {r} {page}\n")?,
        Event::Throttled { v, us } => write!(text, "t {v} {us}\n")?,
        Event::Stopped => write!(text, "stop\n")?,
        Event::Switched => write!(text, "switched\n")?,
    }
    Ok(())
}

/// The events' lines in their order.
pub fn lines_of(alloc: Global, events: &[Event]) -> Result<String, Memory>
    ensures { IfOk result (λ written. string_bytes written ≡ text (reverse events.now)) }
{
    let mut lines = String::new(alloc);
    for event in events {
        push_event(alloc, &mut lines, event)?;
    }
    Ok(lines)
}
