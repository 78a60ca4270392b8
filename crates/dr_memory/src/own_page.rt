//! A page with memory of its own.

ghost use Rattle.std.specs.Prelude.{◌≡◌, ◌+◌, ◌≤◌, length, take, IfOk};
ghost use Rattle.std.specs.Int.{w64, to_le_bytes};
ghost use Rattle.dr_history.specs.Memory.{filled, is_zero, overwritten};

use crate::page_bytes;
use dr_types::Memory;
use std::alloc::Global;
use std::marker::Model;

/// A page in memory of its own. Contracts see its bytes.
#[derive(Drop)]
pub struct OwnPage {
    bytes: Vec<u8>,
}

impl Model for OwnPage {
    ghost use Rattle.std.specs.Prelude.{◌≡◌, List, ℕ, length};
    ghost use Rattle.std.specs.Coded.{coded_list, coded_ℕ};

    ghost Value = { List ℕ };

    ghost coded = { coded_list coded_ℕ };

    ghost view = { λ page. page.bytes.items };

    ghost invariant = { λ page. length page.bytes.items ≡ 4096 };
}

impl OwnPage {
    /// A page of zeros: its memory comes zeroed, and isn't written here.
    #[tactic(auto, unfolding(dr_history::specs::Memory::filled))]
    pub fn new(alloc: Global) -> Result<OwnPage, Memory>
        ensures { IfOk result (λ page. page ≡ filled 0) }
    {
        Ok(OwnPage {
            bytes: vec![in alloc; 0; 4096]?,
        })
    }

    /// The bytes.
    pub fn as_slice(&self) -> &[u8]
        ensures is { result.now ≡ self.now }
        ensures len { length result.now ≡ 4096 }
    {
        self.bytes.as_slice()
    }

    /// Each byte is 0. The search ends at the first that isn't.
    #[tactic(auto, unfolding(dr_history::specs::Memory::is_zero))]
    pub fn is_zero(&self) -> bool
        ensures { result ≡ is_zero self.now }
    {
        self.bytes.as_slice().iter().all(|byte| *byte == 0)
    }

    /// Stores the low bytes of a value, the least first.
    pub fn store(&mut self, at: usize, len: u32, value: u64)
        requires { at + len ≤ 4096 }
        ensures { self.new ≡ overwritten self.old at (take len (to_le_bytes w64 value)) }
    {
        page_bytes::store(self.bytes.as_mut_slice(), at, len, value);
    }

    /// Stores one byte in all of the page.
    #[tactic(auto, unfolding(dr_history::specs::Memory::filled))]
    pub fn fill(&mut self, byte: u8)
        ensures { self.new ≡ filled byte }
    {
        self.bytes.as_mut_slice().copy_from_slice(&[byte; 4096]);
    }

    /// An equal page, in other memory.
    pub fn copied(&self, alloc: Global) -> Result<OwnPage, Memory>
        ensures { IfOk result (λ page. page ≡ self.now) }
    {
        Ok(OwnPage {
            bytes: self.bytes.as_slice().to_vec(alloc)?,
        })
    }
}
