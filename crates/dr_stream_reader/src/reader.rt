ghost use Rattle.std.specs.Prelude.{◌≡◌, ◌-◌, nat_le, [], length, IfOk, IfErr, Some, Ok};
ghost use Rattle.dr_types.specs.declared.fault.StreamFault.TheVariants as fault;
ghost use Rattle.dr_stream_law.specs.Faults.{header_fault};
ghost use Rattle.dr_stream_reader.specs.Reading.{HasHead, HasRead, ReadsNext, SaysNext};

use crate::bytes::{left, number_at, page_in};
use crate::header::{cut, read_header};
use crate::record::{END, PAGE, ROUND, Record};
use crate::standing::Standing;
use dr_types::StreamFault;
use std::marker::Model;

/// How many bytes a record's kind and number have.
const HEAD_BYTES: usize = 8;

/// How many bytes a page's record has.
const PAGE_RECORD_BYTES: usize = 4_104;

/// How many bytes a record of zeros has.
const ZEROS_BYTES: usize = 12;

/// Nothing follows a record of a kind and a number.
fn is_last(rest: &[u8]) -> bool
    ensures { result ≡ nat_le (length rest.now) 8 }
{
    rest.len() <= HEAD_BYTES
}

/// A reader of a migration stream, one record a call. Contracts see all bytes, those that are still
/// to be read, and what the records so far say of the next one.
#[derive(Debug, Drop)]
pub struct StreamReader<'a> {
    bytes: &'a [u8],
    rest: &'a [u8],
    standing: Standing,
}

impl<'a> Model for StreamReader<'a> {
    ghost use Rattle.dr_stream_reader.specs.Reading.{IsReading, Reading, reading_of};

    ghost Value = { Reading };

    ghost view = { λ it. reading_of it.bytes.now it.rest.now it.standing };

    ghost invariant = { λ it. IsReading (reading_of it.bytes.now it.rest.now it.standing) };
}

impl<'a> StreamReader<'a> {
    /// A reader that has read the header; the header's first fault, where it has one.
    pub fn new(bytes: &'a [u8]) -> Result<StreamReader<'a>, StreamFault>
        ensures bytes { IfOk result (λ reader. reader.bytes ≡ bytes.now) }
        ensures begun { IfOk result (λ reader. HasRead [] reader) }
        ensures fault { IfErr result (λ why. header_fault bytes.now ≡ Some why) }
    {
        let standing = read_header(bytes)?;
        Ok(StreamReader {
            bytes,
            rest: left(bytes, 16),
            standing,
        })
    }

    /// What the header and the records so far say of the next one.
    pub fn standing(&self) -> Standing
        ensures { result ≡ self.now.standing }
    {
        self.standing
    }

    /// The place of the next record's first byte.
    pub fn at(&self) -> u64
        ensures { result ≡ length self.now.bytes - length self.now.rest }
    {
        (self.bytes.len() - self.rest.len()) as u64
    }

    /// The next record may not come here.
    fn misplaced(&self) -> StreamFault
        ensures { result ≡ fault.Place (length self.now.bytes - length self.now.rest) }
    {
        StreamFault::Place { at: self.at() }
    }

    /// The round that begins, by the number of its record.
    #[tactic(auto, using(crate::proofs::Next::round_misplaced, crate::proofs::Next::round_comes))]
    fn round(&self, number: u32) -> Result<Option<Record<'a>>, StreamFault>
        requires { HasHead self.now 1 number }
        ensures { SaysNext self.now result }
    {
        if !self.standing.begins_round(number) {
            return Err(self.misplaced());
        }
        Ok(Some(Record::Round(number)))
    }

    /// The page with its bytes, by the number of its record.
    #[tactic(auto, using(crate::proofs::Next::for_page))]
    fn page(&self, page: u32) -> Result<Option<Record<'a>>, StreamFault>
        requires { HasHead self.now 2 page }
        ensures { SaysNext self.now result }
    {
        if !self.standing.names_page(page) {
            return Err(self.misplaced());
        }
        if self.rest.len() < PAGE_RECORD_BYTES {
            return Err(cut(self.bytes));
        }
        let bytes = page_in(self.rest);
        Ok(Some(Record::Page { page, bytes }))
    }

    /// The pages of zeros, by the number of their record.
    #[tactic(auto, using(crate::proofs::Next::for_zeros))]
    fn zeros(&self, first: u32) -> Result<Option<Record<'a>>, StreamFault>
        requires head { HasHead self.now 4 first }
        requires version { self.now.standing.version ≡ 2 }
        ensures { SaysNext self.now result }
    {
        if !self.standing.names_page(first) {
            return Err(self.misplaced());
        }
        if self.rest.len() < ZEROS_BYTES {
            return Err(cut(self.bytes));
        }
        let count = number_at(self.rest, HEAD_BYTES);
        if !self.standing.zeros_fit(first, count) {
            return Err(self.misplaced());
        }
        Ok(Some(Record::Zeros { first, count }))
    }

    /// The end, by the number of its record.
    #[tactic(auto, using(crate::proofs::Next::for_end))]
    fn end(&self, said: u32) -> Result<Option<Record<'a>>, StreamFault>
        requires { HasHead self.now 3 said }
        ensures { SaysNext self.now result }
    {
        let seen = self.standing.records;
        if said != seen {
            return Err(StreamFault::Count { said, seen });
        }
        if !is_last(self.rest) {
            return Err(StreamFault::After {
                at: self.at() + HEAD_BYTES as u64,
            });
        }
        Ok(None)
    }

    /// The next record, of which nothing is read yet; `None` at the end.
    #[tactic(auto, using(crate::proofs::Next::for_peek))]
    fn peek(&self) -> Result<Option<Record<'a>>, StreamFault>
        ensures { SaysNext self.now result }
    {
        if self.rest.len() < HEAD_BYTES {
            return Err(cut(self.bytes));
        }
        let number = number_at(self.rest, 4);
        let kind = number_at(self.rest, 0);
        if kind == ROUND {
            self.round(number)
        } else if kind == PAGE {
            self.page(number)
        } else if kind == END {
            self.end(number)
        } else if self.standing.has_zeros(kind) {
            self.zeros(number)
        } else {
            Err(StreamFault::Kind { at: self.at() })
        }
    }

    /// Goes past a record that comes next.
    fn pass(&mut self, next: Record<'a>)
        requires { SaysNext self.old (Ok (Some next)) }
        ensures { ReadsNext self.old (Ok (Some next.entry)) self.new }
    {
        self.rest = left(self.rest, next.size());
        self.standing = self.standing.after(next);
    }

    /// Reads the next record. `None` at the end; there, and after a fault, nothing is read.
    pub fn next(&mut self) -> Result<Option<Record<'a>>, StreamFault>
        ensures says { SaysNext self.old result }
        ensures reads { ReadsNext self.old result self.new }
    {
        let next = self.peek()?;
        if let Some(next) = next {
            self.pass(next);
        }
        Ok(next)
    }
}
