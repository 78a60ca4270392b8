ghost use Rattle.std.specs.Prelude.{◌≡◌, ◌-◌};

use crate::list::Listed;
use std::alloc::AllocError;

/// A memory slot: its address space (0 or 1), its id there, its first guest frame in that space,
/// and how many pages of 4,096 bytes it has.
#[derive(Clone, Copy, Debug, PartialEq, Eq)]
pub struct SlotRow {
    pub space: u32,
    pub id: u32,
    pub base: u64,
    pub pages: u32,
}

/// The numbers that a guest is run with: `ring`, `reserve` and `buffer` in ring entries, `pace` in
/// ops, `threshold` in pages, `quota` in KiB a second, where 0 is no limit.
#[derive(Clone, Copy, Debug, PartialEq, Eq)]
pub struct Settings {
    pub ring: u32,
    pub reserve: u32,
    pub buffer: u32,
    pub pace: u32,
    pub threshold: u32,
    pub rounds: u32,
    pub quota: u64,
}

impl Settings {
    /// From this number of used entries on a ring is soft full: its size without the reserve and
    /// the buffer.
    pub fn soft_limit(&self) -> u32
        ensures { result ≡ self.now.ring - self.now.reserve - self.now.buffer }
    {
        self.ring
            .saturating_sub(self.reserve)
            .saturating_sub(self.buffer)
    }
}

/// One op of a vCPU's script. Addresses are guest-physical, in bytes, of the address space that is
/// named with them; `gfn` is a guest frame number.
#[derive(Clone, Copy, Debug, PartialEq, Eq)]
pub enum Op {
    /// Stores the low `len` bytes of the value, the least first.
    W {
        space: u32,
        addr: u64,
        len: u32,
        value: u64,
    },
    /// Stores the byte in all of the frame's page.
    F {
        space: u32,
        gfn: u64,
        byte: u8,
    },
    /// Loads 8 bytes, the least first, into the register.
    R {
        space: u32,
        addr: u64,
    },
    /// Adds to the register modulo 2^64.
    A {
        n: u64,
    },
    /// Stores the register in 8 bytes, the least first.
    S {
        space: u32,
        addr: u64,
    },
    /// Sleeps for so many microseconds.
    Nap {
        us: u32,
    },
    /// Ends the script.
    Halt,
}

/// Ops in their order.
pub type OpList = Listed<Op>;

/// An op of a script, or a part that is repeated `n` times.
#[derive(Debug, Drop, PartialEq)]
pub enum Item {
    /// An op.
    One(Op),
    /// Ops that are executed `n` times, one turn after the other.
    Rep { n: u32, body: OpList },
}

/// A vCPU's script.
pub type Script = Listed<Item>;

/// The slots in the order of their lines.
pub type SlotList = Listed<SlotRow>;

/// The script of each vCPU.
pub type ScriptList = Listed<Script>;

/// What a guest file says. Version 1 has the address space 0 alone, version 2 the spaces 0 and 1.
#[derive(Debug, Drop, PartialEq)]
pub struct Guest {
    pub version: u32,
    pub settings: Settings,
    pub slots: SlotList,
    pub scripts: ScriptList,
}

/// Why a vCPU left the guest.
#[derive(Clone, Copy, Debug, PartialEq, Eq)]
pub enum Why {
    /// Its script has ended.
    Halted,
    /// The guest was stopped.
    Stopped,
    /// A round was asked while it was in the guest.
    Kicked,
    /// Its ring is soft full.
    Full,
    /// For none of these.
    Yield,
}

/// Page numbers in their order.
pub type PageList = Listed<u32>;

#[tactic(auto, using(crate::proofs::Copies::same_list))]
impl Clone for Item {
    ghost is_clone = { λ item copy. copy ≡ item };

    fn clone(&self) -> Result<Item, AllocError> {
        match self {
            Item::One(op) => Ok(Item::One(*op)),
            Item::Rep { n, body } => Ok(Item::Rep {
                n: *n,
                body: body.clone()?,
            }),
        }
    }
}

#[tactic(auto, using(crate::proofs::Copies::same_list, crate::proofs::Copies::same_lists))]
impl Clone for Guest {
    ghost is_clone = { λ guest copy. copy ≡ guest };

    fn clone(&self) -> Result<Guest, AllocError> {
        Ok(Guest {
            version: self.version,
            settings: self.settings,
            slots: self.slots.clone()?,
            scripts: self.scripts.clone()?,
        })
    }
}
