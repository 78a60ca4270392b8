ghost use Rattle.std.specs.Prelude.{◌≡◌, ◌≤◌, ◌∷◌, [], MatchOption, length, not, position, IsTrue};
ghost use Rattle.std.specs.Prelude.{◌↔◌};
ghost use Rattle.std.specs.List.{position_or_len};
ghost use Rattle.std.specs.Option.{option_map};
ghost use Rattle.dr_guestfile_lines.specs.Lines.{words_of, is_blank as blank};
ghost use Rattle.dr_guestfile_lines.specs.Words.{one_word, two_words, three_words, words_after};
ghost use Rattle.dr_guestfile_lines.specs.Words.{begins_with as begins};

use std::marker::Model;

/// The words of a line that are still to be read. Spaces and tabs stand between words.
#[derive(Debug, Drop)]
pub struct Words<'a> {
    rest: &'a [u8],
}

impl<'a> Model for Words<'a> {
    ghost use Rattle.std.specs.Prelude.{ℕ, List};
    ghost use Rattle.dr_guestfile_lines.specs.Lines.{words_of};

    ghost Value = { List (List ℕ) };

    ghost view = { λ it. words_of it.rest.now };
}

fn is_blank(byte: u8) -> bool
    ensures { result ≡ blank byte }
{
    byte == b' ' || byte == b'\t'
}

/// Where the first byte stands that is no blank.
fn first_other(bytes: &[u8]) -> Option<usize>
    ensures { result ≡ position (λ byte. not (blank byte)) bytes.now }
{
    bytes.iter().position(|byte| !is_blank(*byte))
}

/// Where the first blank stands.
fn first_blank(bytes: &[u8]) -> Option<usize>
    ensures { result ≡ position blank bytes.now }
{
    bytes.iter().position(|byte| is_blank(*byte))
}

/// How many blanks stand in front.
#[tactic(auto, using(crate::proofs::WordParts::found, crate::proofs::WordParts::not_found))]
fn blanks(bytes: &[u8]) -> usize
    ensures count { result ≡ position_or_len (λ byte. not (blank byte)) bytes.now }
    ensures within { result ≤ length bytes.now }
{
    match first_other(bytes) {
        Some(at) => at,
        None => bytes.len(),
    }
}

/// How long the word in front is.
#[tactic(auto, using(crate::proofs::WordParts::found, crate::proofs::WordParts::not_found))]
fn word_len(bytes: &[u8]) -> usize
    ensures count { result ≡ position_or_len blank bytes.now }
    ensures within { result ≤ length bytes.now }
{
    match first_blank(bytes) {
        Some(at) => at,
        None => bytes.len(),
    }
}

impl<'a> Words<'a> {
    /// All words of a line.
    pub fn of(line: &'a [u8]) -> Words<'a>
        ensures { result ≡ words_of line.now }
    {
        Words { rest: line }
    }

    /// Takes the next word; `None` where there is none.
    pub fn next_word(&mut self) -> Option<&'a [u8]>
        ensures { MatchOption result ((self.old ≡ []) × (self.new ≡ []))
            (λ word. self.old ≡ word.now ∷ self.new) }
    {
        let (_, rest) = self.rest.split_at(blanks(self.rest));
        let (word, rest) = rest.split_at(word_len(rest));
        self.rest = rest;
        if word.is_empty() {
            return None;
        }
        Some(word)
    }

    /// There is no word.
    pub fn is_empty(&self) -> bool
        ensures { IsTrue result ↔ (self.now ≡ []) }
    {
        let mut rest = Words { rest: self.rest };
        rest.next_word().is_none()
    }

    /// The word, where there is exactly one.
    pub fn one(mut self) -> Option<&'a [u8]>
        ensures { option_map (λ word. word.now) result ≡ one_word self.entry }
    {
        let word = self.next_word()?;
        match self.next_word() {
            None => Some(word),
            Some(_) => None,
        }
    }

    /// The words, where there are exactly two.
    pub fn two(mut self) -> Option<(&'a [u8], &'a [u8])>
        ensures { option_map (λ words. (words.0.now, words.1.now)) result ≡ two_words self.entry }
    {
        let first = self.next_word()?;
        let second = self.next_word()?;
        match self.next_word() {
            None => Some((first, second)),
            Some(_) => None,
        }
    }

    /// The words, where there are exactly three.
    pub fn three(mut self) -> Option<(&'a [u8], &'a [u8], &'a [u8])>
        ensures { option_map (λ words. (words.0.now, words.1.now, words.2.now)) result ≡
            three_words self.entry }
    {
        let first = self.next_word()?;
        let second = self.next_word()?;
        let third = self.next_word()?;
        match self.next_word() {
            None => Some((first, second, third)),
            Some(_) => None,
        }
    }

    /// The first word is this one.
    pub fn begins_with(&self, name: &[u8]) -> bool
        ensures { result ≡ begins name.now self.now }
    {
        let mut rest = Words { rest: self.rest };
        match rest.next_word() {
            None => false,
            Some(word) => word == name,
        }
    }

    /// The words after the first.
    pub fn after_first(mut self) -> Words<'a>
        ensures { result ≡ words_after self.entry }
    {
        let _ = self.next_word();
        self
    }
}
