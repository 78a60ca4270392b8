ghost use Rattle.std.specs.Prelude.{◌≡◌, ◌<◌, ◌∷◌, true, false, MatchOption, OnErr, length};
ghost use Rattle.std.specs.Prelude.{position};
ghost use Rattle.std.specs.Str.Lines.{strip_carriage_return};
ghost use Rattle.dr_guestfile_lines.specs.Lines.{is_line_feed, lines_of};
ghost use Rattle.dr_guestfile_lines.specs.Input.{line_at};

use crate::words::Words;
use dr_types::FileFault;
use std::marker::Model;

/// A line that isn't skipped: it has a word, and the first doesn't begin with `#`.
#[derive(Debug, Drop)]
pub struct Line<'a> {
    /// From 1, skipped lines counted.
    pub number: u64,
    pub words: Words<'a>,
}

/// The lines of a text that are still to be read.
#[derive(Debug, Drop)]
pub struct Lines<'a> {
    rest: &'a [u8],
    number: u64,
}

impl<'a> Model for Lines<'a> {
    ghost use Rattle.dr_guestfile_lines.specs.Input.{Input};
    ghost use Rattle.std.specs.Prelude.{◌+◌, ◌<◌, ◌^◌, length};
    ghost use Rattle.dr_guestfile_lines.specs.Input.{input_after};

    ghost Value = { Input };

    ghost view = { λ it. input_after it.number it.rest.now };

    ghost invariant = { λ it. it.number + length it.rest.now + 1 < 2 ^ 64 };
}

/// Where the first line feed stands.
fn first_line_feed(text: &[u8]) -> Option<usize>
    ensures { result ≡ position is_line_feed text.now }
{
    text.iter().position(|byte| *byte == b'\n')
}

/// The first line, and the lines after it.
fn cut_line(text: &[u8]) -> (&[u8], &[u8])
    requires { 0 < length text.now }
    ensures lines { lines_of text.now ≡ result.0.now ∷ lines_of result.1.now }
    ensures shorter { length result.1.now < length text.now }
{
    match first_line_feed(text) {
        Some(at) => (&text[..at], &text[at + 1..]),
        None => (text, &text[text.len()..]),
    }
}

/// The line without one carriage return at its end.
fn without_return(line: &[u8]) -> &[u8]
    ensures { result.now ≡ strip_carriage_return line.now }
{
    match line {
        [front @ .., b'\r'] => front,
        _ => line,
    }
}

/// The line of a number, unless it is skipped.
fn line_of(number: u64, text: &[u8]) -> Option<Line<'_>>
    ensures { result ≡ line_at number text.now }
{
    let text = without_return(text);
    let word = Words::of(text).next_word()?;
    if word.first() == Some(&b'#') {
        return None;
    }
    Some(Line {
        number,
        words: Words::of(text),
    })
}

impl<'a> Lines<'a> {
    ghost use Rattle.dr_guestfile_lines.specs.Input.{input_of};
    ghost use Rattle.dr_guestfile_lines.specs.Reading.{Reads, line_in, next_begins, next_number};

    /// All lines of a text.
    pub fn of(text: &'a [u8]) -> Lines<'a>
        ensures { result ≡ input_of text.now }
    {
        Lines {
            rest: text,
            number: 0,
        }
    }

    /// The same lines, to read ahead.
    fn copy(&self) -> Lines<'a>
        ensures { result ≡ self.now }
    {
        Lines {
            rest: self.rest,
            number: self.number,
        }
    }

    /// Takes the next line that isn't skipped. At the end of the text it answers `Line` with the
    /// number of the line after the last, and nothing changes.
    pub fn need_line(&mut self) -> Result<Line<'a>, FileFault>
        ensures line { Reads result self.new (line_in self.old) }
        ensures end { OnErr result (self.new ≡ self.old) }
    {
        while !self.rest.is_empty() {
            let (text, rest) = cut_line(self.rest);
            self.rest = rest;
            self.number += 1;
            if let Some(line) = line_of(self.number, text) {
                return Ok(line);
            }
        }
        Err(FileFault::Line {
            no: self.number + 1,
        })
    }

    /// Takes the next line, where it begins with this word; else nothing changes.
    pub fn next_if(&mut self, name: &[u8]) -> Option<Line<'a>>
        ensures { MatchOption result
            ((next_begins name.now self.old.lines ≡ false) × (self.new ≡ self.old))
            (λ line. (next_begins name.now self.old.lines ≡ true) ×
            (self.old ≡ record { lines = line ∷ self.new.lines; past = self.new.past })) }
    {
        let mut ahead = self.copy();
        let Ok(line) = ahead.need_line() else {
            return None;
        };
        if !line.words.begins_with(name) {
            return None;
        }
        *self = ahead;
        Some(line)
    }

    /// The fault of a next line that may not stand here, or that is missing.
    pub fn refuse(&self) -> FileFault
        ensures { result ≡ FileFault.Line (next_number self.now) }
    {
        match self.copy().need_line() {
            Ok(line) => FileFault::Line { no: line.number },
            Err(fault) => fault,
        }
    }
}
