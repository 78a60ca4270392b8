ghost use Rattle.std.specs.Prelude.{◌≡◌, ◌+◌, ◌<◌, ◌^◌, ◌==◌, ◌&&◌};
ghost use Rattle.dr_stream_law.specs.Grammar.{zeros_fit};
ghost use Rattle.dr_stream_reader.specs.Standings.{begins_round, names_page, standing_after, start};
ghost use Rattle.dr_stream_reader.specs.Records.{part_of};

use crate::record::{Record, ZEROS};

/// The greatest number of a round.
const MOST_ROUND: u32 = 65;

/// What the header and the records so far say of the next one.
#[derive(Clone, Copy, Debug, PartialEq, Eq)]
pub struct Standing {
    /// The version of the stream, 1 or 2.
    pub version: u32,
    /// How many pages the image has.
    pub pages: u32,
    /// The number of the last round, or 0 where none has begun.
    pub round: u32,
    /// The least page that may be named next in this round.
    pub least: u32,
    /// How many page and zero records came.
    pub records: u32,
}

impl Standing {
    /// Nothing came but a header of this version and number of pages.
    pub(crate) fn start(version: u32, pages: u32) -> Standing
        ensures { result ≡ start version pages }
    {
        Standing {
            version,
            pages,
            round: 0,
            least: 0,
            records: 0,
        }
    }

    /// A round of this number may begin.
    pub fn begins_round(self, round: u32) -> bool
        ensures { result ≡ begins_round self round }
    {
        self.round < round && round <= MOST_ROUND
    }

    /// This page may be the next one that is named.
    pub fn names_page(self, page: u32) -> bool
        ensures { result ≡ names_page self page }
    {
        page < self.pages && 0 < self.round && self.least <= page
    }

    /// A record of this kind is one of zeros, which version 2 alone has.
    pub(crate) fn has_zeros(self, kind: u32) -> bool
        ensures { result ≡ (kind == 4 && self.version == 2) }
    {
        kind == ZEROS && self.version == 2
    }

    /// There are as many pages from a first one on.
    pub fn zeros_fit(self, first: u32, count: u32) -> bool
        requires { first < self.pages }
        ensures { result ≡ zeros_fit self.pages first count }
    {
        1 <= count && count <= self.pages - first
    }

    /// After one record more.
    pub(crate) fn after(self, next: Record<'_>) -> Standing
        requires least { (standing_after self (part_of next)).least < 2 ^ 32 }
        requires records { self.records + 1 < 2 ^ 32 }
        ensures { result ≡ standing_after self (part_of next.entry) }
    {
        match next {
            Record::Round(round) => Standing {
                round,
                least: 0,
                ..self
            },
            Record::Page { page, .. } => Standing {
                least: page + 1,
                records: self.records + 1,
                ..self
            },
            Record::Zeros { first, count } => Standing {
                least: first + count,
                records: self.records + 1,
                ..self
            },
        }
    }
}
