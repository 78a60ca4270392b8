ghost use Rattle.std.specs.Prelude.{◌≡◌};
ghost use Rattle.dr_stream_reader.specs.Records.{size_of};

/// The kind of a round's record.
pub(crate) const ROUND: u32 = 1;

/// The kind of a page's record.
pub(crate) const PAGE: u32 = 2;

/// The kind of the end record.
pub(crate) const END: u32 = 3;

/// The kind of a record of zeros.
pub(crate) const ZEROS: u32 = 4;

/// A record of a migration stream between the header and the end.
#[derive(Clone, Copy, Debug, PartialEq, Eq)]
pub enum Record<'a> {
    /// A round of this number begins.
    Round(u32),
    /// A page has these 4,096 bytes.
    Page { page: u32, bytes: &'a [u8] },
    /// The pages from a first one on are zero.
    Zeros { first: u32, count: u32 },
}

impl Record<'_> {
    /// How many bytes it has in the stream.
    pub fn size(self) -> usize
        ensures { result ≡ size_of self.entry }
    {
        match self {
            Record::Round(_) => 8,
            Record::Page { .. } => 4104,
            Record::Zeros { .. } => 12,
        }
    }
}
