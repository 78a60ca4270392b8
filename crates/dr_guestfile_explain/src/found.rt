use dr_guestfile::Keyword;
use dr_guestfile_lines::{Words, decimal, spaced_number};
use dr_types::Memory;
use std::alloc::Global;

/// How many bytes of a word or of a line are quoted at most.
const MOST_QUOTED: usize = 40;

/// A line as it was found: its first words, empty where there is none.
#[derive(Clone, Copy)]
pub struct Found<'a> {
    pub first: &'a [u8],
    pub second: &'a [u8],
    pub third: &'a [u8],
    pub fourth: &'a [u8],
    /// No line may have so many, so the words after it are not looked at.
    pub fifth: &'a [u8],
}

/// The next word, or else an empty one.
fn next_or_empty<'a>(words: &mut Words<'a>) -> &'a [u8] {
    match words.next_word() {
        Some(word) => word,
        None => b"",
    }
}

/// The first bytes, `most` of them where there are more.
fn front(bytes: &[u8], most: usize) -> &[u8] {
    &bytes[..bytes.len().min(most)]
}

/// How a byte is shown: itself where it is printable ASCII.
fn shown(byte: u8) -> char {
    if byte == b' ' || byte.is_ascii_graphic() {
        char::from(byte)
    } else {
        '?'
    }
}

/// The bytes as they are shown, `most` of them where there are more.
fn shown_front(alloc: Global, bytes: &[u8], most: usize) -> Result<String, Memory> {
    let mut text = String::new(alloc);
    for byte in front(bytes, most) {
        text.push(shown(*byte))?;
    }
    Ok(text)
}

/// The bytes between backticks: a long text is cut, and `..` stands for the rest of it.
pub fn quoted(alloc: Global, bytes: &[u8]) -> Result<String, Memory> {
    if bytes.len() > MOST_QUOTED {
        let text = shown_front(alloc, bytes, MOST_QUOTED - 2)?;
        Ok(format!(in alloc; "`{text}..`")?)
    } else {
        let text = shown_front(alloc, bytes, MOST_QUOTED)?;
        Ok(format!(in alloc; "`{text}`")?)
    }
}

/// Adds a word after a space, unless it is empty.
fn push_word(line: &mut Vec<u8>, word: &[u8]) -> Result<(), Memory> {
    if !word.is_empty() {
        line.push(b' ')?;
        line.extend_from_slice(front(word, MOST_QUOTED))?;
    }
    Ok(())
}

impl<'a> Found<'a> {
    /// The line of these words.
    pub fn of(mut words: Words<'a>) -> Found<'a> {
        Found {
            first: next_or_empty(&mut words),
            second: next_or_empty(&mut words),
            third: next_or_empty(&mut words),
            fourth: next_or_empty(&mut words),
            fifth: next_or_empty(&mut words),
        }
    }

    /// The words, empty from the first on that is not there.
    pub fn words(&self) -> [&'a [u8]; 5] {
        [self.first, self.second, self.third, self.fourth, self.fifth]
    }

    /// The keyword that the line begins with.
    pub fn keyword(&self) -> Option<Keyword> {
        Keyword::of(self.first)
    }

    /// The number of the second word.
    pub fn number(&self) -> Option<u64> {
        decimal(self.second)
    }

    /// The space and the number of the second word, in a file of this version.
    pub fn spaced_number(&self, version: u32) -> Option<(u32, u64)> {
        spaced_number(version, self.second, u64::MAX)
    }

    /// The line between backticks, with one space between words.
    pub fn quoted(&self, alloc: Global) -> Result<String, Memory> {
        let mut line = Vec::new(alloc);
        line.extend_from_slice(front(self.first, MOST_QUOTED + 1))?;
        push_word(&mut line, self.second)?;
        push_word(&mut line, self.third)?;
        push_word(&mut line, self.fourth)?;
        if !self.fifth.is_empty() {
            push_word(&mut line, b"..")?;
        }
        quoted(alloc, line.as_slice())
    }
}
