ghost use Rattle.std.specs.Prelude.{◌≡◌};

use dr_stream_reader::{Record, StreamReader};
use dr_types::StreamFault;
use std::fmt;

/// A record without its bytes.
#[derive(Clone, Copy, Debug, PartialEq, Eq)]
pub enum Brief {
    /// A round of this number.
    Round(u32),
    /// A page of this number.
    Page(u32),
    /// Zeros from this page on.
    Zeros { first: u32, count: u32 },
}

/// A record that was read, and where it begins.
#[derive(Clone, Copy, Debug, PartialEq, Eq)]
pub struct Good {
    pub at: u64,
    pub record: Brief,
}

/// What a stream has up to its fault, or to its end.
#[derive(Clone, Copy, Debug, PartialEq, Eq)]
pub struct Before {
    /// The last record; `None` where the header alone was read.
    pub last: Option<Good>,
    /// The fault, where there is one.
    pub fault: Option<StreamFault>,
}

/// The record at a place.
fn good_record(at: u64, record: Record<'_>) -> Good
    ensures { result.at ≡ at }
{
    let record = match record {
        Record::Round(round) => Brief::Round(round),
        Record::Page { page, .. } => Brief::Page(page),
        Record::Zeros { first, count } => Brief::Zeros { first, count },
    };
    Good { at, record }
}

/// Reads on to the fault or to the end, at most so many records.
pub fn read_on(reader: &mut StreamReader<'_>, most: usize) -> Before {
    let mut last = None;
    for _ in 0..most {
        let at = reader.at();
        match reader.next() {
            Ok(Some(record)) => last = Some(good_record(at, record)),
            Ok(None) => return Before { last, fault: None },
            Err(why) => {
                let fault = Some(why);
                return Before { last, fault };
            }
        }
    }
    Before { last, fault: None }
}

impl fmt::Display for Good {
    fn fmt<W: fmt::Write>(&self, f: &mut fmt::Formatter<W>) -> fmt::Result {
        let at = self.at;
        match self.record {
            Brief::Round(round) => write!(f, "round {round} at byte {at}"),
            Brief::Page(page) => write!(f, "page {page} at byte {at}"),
            Brief::Zeros { first, count } => {
                write!(f, "zeros from page {first} (count {count}) at byte {at}")
            }
        }
    }
}

/// Writes which record is the last one before the fault.
pub fn write_last<W: fmt::Write>(f: &mut fmt::Formatter<W>, last: Option<Good>) -> fmt::Result {
    match last {
        Some(good) => write!(f, "; the last good record is {good}"),
        None => f.write_str("; only the header comes before it"),
    }
}
