use crate::memory::Memory;
use std::alloc::AllocError;
use thiserror::Error;

/// What a guest file has too much of.
#[derive(Clone, Copy, Debug, PartialEq, Eq)]
pub enum What {
    /// Slot lines.
    Slots,
    /// Pages of all slots together.
    Pages,
    /// Pages times rounds and one.
    Copies,
    /// vCPU sections.
    Vcpus,
    /// Ops of all scripts, each repetition counted.
    Ops,
}

/// Why a guest file is refused: its first fault in the order of its lines, which are numbered from
/// 1. `no` is a line's number, `a` and `b` are slot fields: a slot's space times 65536, and its id.
#[derive(Clone, Copy, Debug, PartialEq, Eq, Error)]
pub enum FileFault {
    /// The first line is neither `dirtyguest 1` nor `dirtyguest 2`.
    #[error("line {no}: expected `dirtyguest 1` or `dirtyguest 2`")]
    Magic { no: u64 },
    /// The line may not stand here, or has the wrong number of words; or the file ends too early.
    #[error("line {no}: this line may not stand here, or has the wrong number of words")]
    Line { no: u64 },
    /// A word is no number of its place, or out of range.
    #[error("line {no}: a word is not a number of its place, or out of its range")]
    Number { no: u64 },
    /// The size of the rings is no power of two within its limits.
    #[error("line {no}: the ring's size is no power of two from 4 to 65536")]
    RingSize { no: u64 },
    /// Reserve and buffer leave no room in a ring.
    #[error("line {no}: reserve and buffer leave no room in the ring")]
    Reserve { no: u64 },
    /// An earlier slot has this space and id.
    #[error("line {no}: a slot with this id stands above")]
    SlotTwice { no: u64 },
    /// Two slots of a space share a frame; a is the earlier one.
    #[error("slots {a} and {b} overlap")]
    Overlap { a: u32, b: u32 },
    /// An op's page lies in no slot of its space.
    #[error("line {no}: the page lies in no slot")]
    Unmapped { no: u64 },
    /// An op's bytes don't lie in one page.
    #[error("line {no}: the bytes don't lie in one page")]
    CrossPage { no: u64 },
    /// There is more of something than the limit.
    #[error("line {no}: too many {what:?}")]
    TooLarge { what: What, no: u64 },
    /// An allocation was refused.
    #[error("out of memory")]
    Memory,
}

impl From<AllocError> for FileFault {
    ghost use Rattle.std.specs.Prelude.{◌≡◌};
    ghost use Rattle.dr_types.specs.declared.fault.FileFault.TheVariants.{Memory};

    ghost from_gives = { λ _ fault. fault ≡ Memory };

    fn from(_error: AllocError) -> FileFault {
        FileFault::Memory
    }
}

impl From<Memory> for FileFault {
    ghost use Rattle.std.specs.Prelude.{◌≡◌};
    ghost use Rattle.dr_types.specs.declared.fault.FileFault.TheVariants.{Memory};

    ghost from_gives = { λ _ fault. fault ≡ Memory };

    fn from(_error: Memory) -> FileFault {
        FileFault::Memory
    }
}

/// Why a migration stream is refused: its first fault in the order of the bytes. `at` is the place
/// of a byte, from 0.
#[derive(Clone, Copy, Debug, PartialEq, Eq, Error)]
pub enum StreamFault {
    /// It doesn't begin as a stream does.
    #[error("the stream doesn't begin with `DRSTREAM`")]
    Magic,
    /// Its version is unknown.
    #[error("byte 8: the stream's version is {said}, and versions 1 and 2 are known")]
    Version { said: u32 },
    /// It says a number of pages that no guest has.
    #[error("byte 12: the stream says {said} pages, and a stream has 1 to 16384")]
    Pages { said: u32 },
    /// It ends inside the header or a record.
    #[error("byte {at}: the stream ends too early")]
    Cut { at: u64 },
    /// A record is of no kind.
    #[error("byte {at}: there is no record of this kind")]
    Kind { at: u64 },
    /// A record may not stand where it does.
    #[error("byte {at}: this record may not come here")]
    Place { at: u64 },
    /// Its end record counts other page and zero records than there are.
    #[error("the end record counts {said} page and zero records, and the stream has {seen}")]
    Count { said: u32, seen: u32 },
    /// Something follows its end.
    #[error("byte {at}: there is more after the end record")]
    After { at: u64 },
    /// An allocation was refused.
    #[error("out of memory")]
    Memory,
}
