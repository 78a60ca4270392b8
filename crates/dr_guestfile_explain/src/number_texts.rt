use crate::found::{Found, quoted};
use crate::line_texts::plain;
use dr_guestfile::{FRAMES_END, Keyword, is_ring_size};
use dr_guestfile_lines::{hex_byte, hex_word, number};
use dr_types::limits::{
    GREATEST_BUFFER, GREATEST_PACE, GREATEST_QUOTA, GREATEST_RESERVE, GREATEST_RING,
    GREATEST_SLOT_ID, GREATEST_THRESHOLD, LEAST_RING, LONGEST_NAP_US, MOST_OPS, MOST_PAGES,
    MOST_ROUNDS,
};
use dr_types::{Memory, Text, split_space};
use std::alloc::Global;

/// The numbers that may stand at a place.
#[derive(Clone, Copy)]
struct Wanted {
    what: &'static str,
    low: u64,
    high: u64,
}

fn numbers_from(what: &'static str, low: u64, high: u64) -> Wanted {
    Wanted { what, low, high }
}

fn few_from(what: &'static str, low: u32, high: u32) -> Wanted {
    numbers_from(what, u64::from(low), u64::from(high))
}

/// The numbers that may stand as the second word of a line with this keyword.
fn range_of(keyword: Keyword) -> Option<Wanted> {
    match keyword {
        Keyword::Ring => Some(few_from("a power of two", LEAST_RING, GREATEST_RING)),
        Keyword::Reserve => Some(few_from("a number of entries", 1, GREATEST_RESERVE)),
        Keyword::Buffer => Some(few_from("a number of entries", 0, GREATEST_BUFFER)),
        Keyword::Pace => Some(few_from("a number of ops", 1, GREATEST_PACE)),
        Keyword::Threshold => Some(few_from("a number of pages", 0, GREATEST_THRESHOLD)),
        Keyword::Rounds => Some(few_from("a number of rounds", 1, MOST_ROUNDS)),
        Keyword::Quota => Some(numbers_from("a number of KiB a second", 0, GREATEST_QUOTA)),
        Keyword::Slot => Some(few_from("an ID", 0, GREATEST_SLOT_ID)),
        Keyword::Write | Keyword::Read | Keyword::Store => {
            Some(numbers_from("an address", 0, u64::MAX))
        }
        Keyword::Fill => Some(numbers_from("a frame number", 0, u64::MAX)),
        Keyword::Add => Some(numbers_from("a number", 0, u64::MAX)),
        Keyword::Nap => Some(few_from("a number of microseconds", 0, LONGEST_NAP_US)),
        Keyword::Rep => Some(numbers_from("a number of times", 1, MOST_OPS)),
        Keyword::Dirtyguest | Keyword::Vcpu | Keyword::End | Keyword::Halt => None,
    }
}

/// The words that say how a number is written, where this one isn't written so.
fn how_written(word: &[u8]) -> &'static str {
    if word.iter().all(|byte| byte.is_ascii_digit()) {
        ""
    } else {
        " in decimal digits"
    }
}

/// The word is no number of this range, which the keyword wants; `number` is the word without the
/// prefix that it may have.
fn unfit(
    alloc: Global,
    name: &[u8],
    range: Wanted,
    word: &[u8],
    number: &[u8],
) -> Result<Text, Memory> {
    let name = quoted(alloc, name)?;
    let how = how_written(number);
    let word = quoted(alloc, word)?;
    let Wanted { what, low, high } = range;
    let text = format!(in alloc;
        "{name} wants {what} from {low} to {high}{how}, and {word} is none"
    )?;
    Ok(Text::from_string(text))
}

fn is_unfit(range: Wanted, word: &[u8]) -> bool {
    number(word, range.low, range.high).is_none()
}

/// Some word of the line is wrong.
fn some_word(alloc: Global, found: &Found<'_>) -> Result<Text, Memory> {
    let line = found.quoted(alloc)?;
    let text = format!(in alloc;
        "a word of {line} is no number of its place, or out of its range"
    )?;
    Ok(Text::from_string(text))
}

/// The numbers of a slot line after its ID.
fn slot_text(alloc: Global, found: &Found<'_>) -> Result<Text, Memory> {
    let bases = numbers_from("a BASE", 0, FRAMES_END - 1);
    if is_unfit(bases, found.third) {
        return unfit(alloc, found.first, bases, found.third, found.third);
    }
    let pages = few_from("a number of PAGES", 1, MOST_PAGES);
    if is_unfit(pages, found.fourth) {
        return unfit(alloc, found.first, pages, found.fourth, found.fourth);
    }
    let line = found.quoted(alloc)?;
    let text = format!(in alloc; "{line}: BASE + PAGES may be {FRAMES_END} at most")?;
    Ok(Text::from_string(text))
}

/// The bytes of a `w`.
fn write_text(alloc: Global, found: &Found<'_>) -> Result<Text, Memory> {
    if hex_word(found.third, 8).is_some() {
        return some_word(alloc, found);
    }
    let word = quoted(alloc, found.third)?;
    let text = format!(in alloc;
        "`w` wants 1 to 8 bytes in hex, two digits for each, and {word} is something else"
    )?;
    Ok(Text::from_string(text))
}

/// The byte of an `f`.
fn fill_text(alloc: Global, found: &Found<'_>) -> Result<Text, Memory> {
    if hex_byte(found.third).is_some() {
        return some_word(alloc, found);
    }
    let word = quoted(alloc, found.third)?;
    let text = format!(in alloc;
        "`f` wants one byte in hex, two digits, and {word} is something else"
    )?;
    Ok(Text::from_string(text))
}

/// A number with this keyword may name an address space.
fn is_spaced(keyword: Keyword) -> bool {
    matches!(
        keyword,
        Keyword::Slot | Keyword::Write | Keyword::Fill | Keyword::Read | Keyword::Store
    )
}

/// What is added where a prefix stands that may not: which prefixes may stand in this version.
fn prefix_hint(version: u32, number: &[u8]) -> &'static str {
    if !number.contains(&b':') {
        ""
    } else if version == 2 {
        "; the only prefix is `1:`, which names space 1"
    } else {
        "; in version 1 no prefix may stand, and in version 2 `1:` names space 1"
    }
}

/// The second word of a line whose number may name a space is no such number of this range.
fn unfit_spaced(
    alloc: Global,
    version: u32,
    range: Wanted,
    found: &Found<'_>,
) -> Result<Text, Memory> {
    let (_, number) = split_space(version, found.second);
    let mut text = unfit(alloc, found.first, range, found.second, number)?;
    text.push_str(prefix_hint(version, number))?;
    Ok(text)
}

/// What is said of a line with this keyword whose second word is no number of this range.
fn second_text(
    alloc: Global,
    version: u32,
    keyword: Keyword,
    range: Wanted,
    found: &Found<'_>,
) -> Result<Text, Memory> {
    if is_spaced(keyword) {
        unfit_spaced(alloc, version, range, found)
    } else {
        unfit(alloc, found.first, range, found.second, found.second)
    }
}

/// The number that stands as the second word, after the prefix that it may have.
fn second_number<'a>(version: u32, keyword: Keyword, found: &Found<'a>) -> &'a [u8] {
    if is_spaced(keyword) {
        split_space(version, found.second).1
    } else {
        found.second
    }
}

/// What is said of a line where a word is no number of its place.
pub fn number_text(alloc: Global, version: u32, found: &Found<'_>) -> Result<Text, Memory> {
    let Some(keyword) = found.keyword() else {
        return some_word(alloc, found);
    };
    let Some(range) = range_of(keyword) else {
        return some_word(alloc, found);
    };
    if is_unfit(range, second_number(version, keyword, found)) {
        return second_text(alloc, version, keyword, range, found);
    }
    match keyword {
        Keyword::Slot => slot_text(alloc, found),
        Keyword::Write => write_text(alloc, found),
        Keyword::Fill => fill_text(alloc, found),
        _ => some_word(alloc, found),
    }
}

/// The line says a ring's size that may stand.
fn says_ring_size(found: &Found<'_>) -> bool {
    match found.number() {
        Some(size) => is_ring_size(size),
        None => false,
    }
}

/// What is said of a `ring` line whose number is no power of two in its range.
pub fn ring_text(alloc: Global, found: &Found<'_>) -> Result<Text, Memory> {
    match range_of(Keyword::Ring) {
        Some(range) if found.keyword() == Some(Keyword::Ring) && !says_ring_size(found) => {
            unfit(alloc, found.first, range, found.second, found.second)
        }
        _ => plain(
            alloc,
            "the ring's size has to be a power of two from 4 to 65536",
        ),
    }
}
