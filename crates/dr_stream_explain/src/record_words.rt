ghost use Rattle.std.specs.Prelude.{◌≡◌, ◌==◌};
ghost use Rattle.dr_stream_explain.specs.Kinds.{bytes_of_kind};

/// The kind of the record of a round.
pub const ROUND: u32 = 1;

/// The kind of the record of a page.
pub const PAGE: u32 = 2;

/// The kind of the record at the end.
pub const END: u32 = 3;

/// The kind of the record of zeros.
pub const ZEROS: u32 = 4;

/// The greatest number of a round.
pub const GREATEST_ROUND: u32 = 65;

/// A stream of this version has records of zeros.
pub fn has_zeros(version: u32) -> bool
    ensures { result ≡ (version == 2) }
{
    version == 2
}

/// How many bytes a record of this kind has, where a stream of this version has such records.
pub fn bytes_of_kind(version: u32, kind: u32) -> Option<u64>
    ensures { result ≡ bytes_of_kind version kind }
{
    match kind {
        ROUND | END => Some(8),
        PAGE => Some(4_104),
        ZEROS if has_zeros(version) => Some(12),
        _ => None,
    }
}
