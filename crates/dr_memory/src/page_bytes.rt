//! The bytes of a page, and eight of them as a number.
ghost use Rattle.std.specs.Prelude.{◌≡◌, ◌+◌, ◌<◌, ◌≤◌, length, take, slice_index};
ghost use Rattle.std.specs.Int.{w64, to_le_bytes};
ghost use Rattle.dr_history.specs.Memory.{filled, overwritten, loaded};

use std::marker::Model;

/// A page of 4,096 bytes. Contracts see it as their list.
#[derive(Drop)]
pub struct PageBytes {
    bytes: [u8; 4096],
}

impl Model for PageBytes {
    ghost use Rattle.std.specs.Prelude.{◌≡◌, List, ℕ, length};
    ghost use Rattle.std.specs.Coded.{coded_list, coded_ℕ};

    ghost Value = { List ℕ };

    ghost coded = { coded_list coded_ℕ };

    ghost view = { λ page. page.bytes };

    ghost invariant = { λ page. length page.bytes ≡ 4096 };
}

impl PageBytes {
    /// A page of zeros.
    #[tactic(auto, unfolding(dr_history::specs::Memory::filled))]
    pub fn new() -> PageBytes
        ensures { result ≡ filled 0 }
    {
        PageBytes { bytes: [0; 4096] }
    }

    /// The bytes.
    pub fn as_slice(&self) -> &[u8]
        ensures is { result.now ≡ self.now }
        ensures len { length result.now ≡ 4096 }
    {
        &self.bytes
    }

    /// Takes the bytes of another page.
    pub fn copy_from(&mut self, page: &[u8])
        requires { length page.now ≡ 4096 }
        ensures { self.new ≡ page.now }
    {
        self.bytes.copy_from_slice(page);
    }
}

/// The byte at a place, and zero past the end.
fn byte(page: &[u8], at: usize) -> u8
    ensures { result ≡ slice_index page.now at }
{
    if at < page.len() { page[at] } else { 0 }
}

/// The eight bytes from a place on, as a number, the least first.
pub fn load(page: &[u8], at: usize) -> u64
    requires { at < 4096 }
    ensures { result ≡ loaded page.now at }
{
    let b0 = byte(page, at);
    let b1 = byte(page, at + 1);
    let b2 = byte(page, at + 2);
    let b3 = byte(page, at + 3);
    let b4 = byte(page, at + 4);
    let b5 = byte(page, at + 5);
    let b6 = byte(page, at + 6);
    let b7 = byte(page, at + 7);
    u64::from_le_bytes([b0, b1, b2, b3, b4, b5, b6, b7])
}

/// Stores the low bytes of a value, least first.
pub fn store(page: &mut [u8], at: usize, len: u32, value: u64)
    requires { at + len ≤ length page.old }
    ensures { page.new ≡ overwritten page.old at (take len (to_le_bytes w64 value)) }
{
    let word = value.to_le_bytes();
    let len = (len as usize).min(8);
    overwrite(page, at, &word[..len]);
}

/// Puts bytes in the place of others, from one place on.
#[tactic(auto, using(crate::proofs::Used::for_overwrite))]
fn overwrite(page: &mut [u8], at: usize, bytes: &[u8])
    requires { at + length bytes.now ≤ length page.old }
    ensures { page.new ≡ overwritten page.old at bytes.now }
{
    for i in 0..bytes.len() {
        page[at + i] = bytes[i];
    }
}
