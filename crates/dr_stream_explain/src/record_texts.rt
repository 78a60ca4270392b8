use crate::before::{Good, write_last};
use crate::coming::write_coming;
use crate::found::Found;
use crate::place_texts::write_place;
use crate::record_words::{PAGE, ZEROS, bytes_of_kind};
use dr_stream_reader::Standing;
use dr_types::StreamFault;
use std::fmt;

/// The record with the fault, and what comes before it.
#[derive(Clone, Copy, Debug, PartialEq, Eq)]
pub struct Spot {
    /// Where the record begins.
    pub at: u64,
    /// What is there.
    pub found: Found,
    /// What the header and the records before it say of it.
    pub standing: Standing,
    /// The last record before it, where there is one.
    pub last: Option<Good>,
}

/// Writes so many bytes.
fn write_bytes<W: fmt::Write>(f: &mut fmt::Formatter<W>, count: u64) -> fmt::Result {
    if count == 1 {
        f.write_str("1 byte")
    } else {
        write!(f, "{count} bytes")
    }
}

impl Spot {
    /// How many bytes the record has, as far as its kind is there.
    fn whole(&self) -> Option<u64> {
        bytes_of_kind(self.standing.version, self.found.kind?)
    }

    /// Writes what the record is, as far as its kind and number are there.
    fn write_record<W: fmt::Write>(&self, f: &mut fmt::Formatter<W>) -> fmt::Result {
        match (self.found.kind, self.found.number) {
            (Some(PAGE), Some(page)) => write!(f, " (page {page})"),
            (Some(ZEROS), Some(first)) => write!(f, " (zeros from page {first})"),
            (Some(kind), _) => write!(f, " (kind {kind})"),
            (None, _) => Ok(()),
        }
    }

    /// Writes that the stream ends inside the record.
    fn write_cut_inside<W: fmt::Write>(&self, f: &mut fmt::Formatter<W>, end: u64) -> fmt::Result {
        write!(
            f,
            "byte {end}: the stream ends inside the record at byte {}",
            self.at
        )?;
        self.write_record(f)?;
        write!(f, ", after {} of ", self.found.left)?;
        match self.whole() {
            Some(whole) => write!(f, "its {whole} bytes"),
            None => f.write_str("at least 8 bytes"),
        }
    }

    /// Writes that the stream ends where a record has to begin, or inside one.
    fn write_cut<W: fmt::Write>(&self, f: &mut fmt::Formatter<W>, end: u64) -> fmt::Result {
        if self.found.left == 0 {
            write!(f, "byte {end}: the stream ends without an end record")?;
            write_coming(f, self.standing)
        } else {
            self.write_cut_inside(f, end)
        }
    }

    /// Writes that the record is of no kind.
    fn write_kind<W: fmt::Write>(&self, f: &mut fmt::Formatter<W>) -> fmt::Result {
        let at = self.at;
        match self.found.kind {
            Some(ZEROS) => write!(f, "byte {at}: zeros (kind 4), which version 1 doesn't have")?,
            Some(kind) => write!(f, "byte {at}: a record of kind {kind}, which is none")?,
            None => write!(f, "byte {at}: a record of no kind")?,
        }
        write_coming(f, self.standing)
    }

    /// Writes that the end counts another number of records.
    fn write_count<W: fmt::Write>(
        &self,
        f: &mut fmt::Formatter<W>,
        said: u32,
        seen: u32,
    ) -> fmt::Result {
        let at = self.at;
        write!(
            f,
            "byte {at}: the end counts {said} page and zero records, and {seen} came before it"
        )
    }

    /// Writes that something comes after the end.
    fn write_after<W: fmt::Write>(&self, f: &mut fmt::Formatter<W>, end: u64) -> fmt::Result {
        write!(
            f,
            "byte {end}: nothing may come after the end record at byte {}, and there is more: ",
            self.at
        )?;
        write_bytes(f, self.found.left.saturating_sub(8))
    }

    /// Writes what is wrong with the record.
    fn write_wrong<W: fmt::Write>(
        &self,
        f: &mut fmt::Formatter<W>,
        fault: StreamFault,
    ) -> fmt::Result {
        match fault {
            StreamFault::Cut { at } => self.write_cut(f, at),
            StreamFault::Kind { .. } => self.write_kind(f),
            StreamFault::Place { .. } => write_place(f, self),
            StreamFault::Count { said, seen } => self.write_count(f, said, seen),
            StreamFault::After { at } => self.write_after(f, at),
            _ => write!(f, "{fault}"),
        }
    }

    /// Writes what is wrong with the record, and which one is the last before it.
    pub fn write_fault<W: fmt::Write>(
        &self,
        f: &mut fmt::Formatter<W>,
        fault: StreamFault,
    ) -> fmt::Result {
        self.write_wrong(f, fault)?;
        if let StreamFault::After { .. } = fault {
            Ok(())
        } else {
            write_last(f, self.last)
        }
    }
}
