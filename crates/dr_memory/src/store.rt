ghost use Rattle.std.specs.Prelude.{◌≡◌, ◌+◌, ◌<◌, ◌≤◌, true, false, length, take, replicate, Some};
ghost use Rattle.std.specs.Prelude.{IfOk, OnOk, OnErr};
ghost use Rattle.std.specs.Int.{w64, to_le_bytes};
ghost use Rattle.dr_history.specs.Memory.{filled, is_zero, overwritten, loaded};
ghost use Rattle.dr_memory.specs.Stores.{has_room, bytes_of, with_bytes, with_room, held_bytes};

use crate::own_page::OwnPage;
use crate::page_bytes::{PageBytes, load};
use dr_types::Memory;
use std::alloc::Global;
use std::marker::Model;

/// Pages of 4,096 bytes, zero at first. Contracts see the bytes of each page, and which pages have
/// memory of their own: only these can be written.
#[derive(Drop)]
pub struct PageStore {
    alloc: Global,
    pages: Vec<Option<OwnPage>>,
    zeros: PageBytes,
}

impl Model for PageStore {
    ghost use Rattle.std.specs.Prelude.{◌≡◌};
    ghost use Rattle.dr_history.specs.Memory.{filled};
    ghost use Rattle.dr_memory.specs.Stores.{Store, shown};

    ghost Value = { Store };

    ghost view = { λ it. shown it.pages.items };

    ghost invariant = { λ it. it.zeros ≡ filled 0 };
}

impl PageStore {
    /// So many pages of zeros, none of which has memory of its own.
    pub fn new(alloc: Global, count: u32) -> Result<PageStore, Memory>
        ensures { IfOk result (λ it. it ≡ record {
          pages = replicate count (filled 0);
          rooms = replicate count false;
        }) }
    {
        let mut pages = Vec::with_capacity(alloc, count as usize)?;
        for page in 0..count {
            pages.push(None)?;
        }
        Ok(PageStore {
            alloc,
            pages,
            zeros: PageBytes::new(),
        })
    }

    /// An equal store, with memory of their own for the same pages.
    pub fn fork(&self) -> Result<PageStore, Memory>
        ensures { IfOk result (λ it. it ≡ self.now) }
    {
        Ok(PageStore {
            alloc: self.alloc,
            pages: all_copied(self.alloc, self.pages.as_slice())?,
            zeros: PageBytes::new(),
        })
    }

    /// The bytes of a page.
    pub fn page(&self, page: u32) -> &[u8]
        requires { page < length self.now.pages }
        ensures is { result.now ≡ bytes_of page self.now }
        ensures len { length result.now ≡ 4096 }
    {
        match &self.pages[page as usize] {
            Some(bytes) => bytes.as_slice(),
            None => self.zeros.as_slice(),
        }
    }

    /// Each byte of a page is 0. A page without memory of its own isn't looked at.
    #[tactic(auto, using(crate::proofs::Shown::bare_zero))]
    pub fn is_zero(&self, page: u32) -> bool
        requires { page < length self.now.pages }
        ensures { result ≡ is_zero (bytes_of page self.now) }
    {
        match &self.pages[page as usize] {
            Some(bytes) => bytes.is_zero(),
            None => true,
        }
    }

    /// Copies the bytes of a page.
    pub fn copy_page(&self, page: u32, into: &mut PageBytes)
        requires { page < length self.now.pages }
        ensures { into.new ≡ bytes_of page self.now }
    {
        into.copy_from(self.page(page));
    }

    /// The eight bytes of a page from a place on, the least first. Past its end are zeros.
    pub fn read8(&self, page: u32, at: u32) -> u64
        requires page { page < length self.now.pages }
        requires within { at < 4096 }
        ensures { result ≡ loaded (bytes_of page self.now) at }
    {
        load(self.page(page), at as usize)
    }

    /// The page has memory of its own.
    pub fn has_room(&self, page: u32) -> bool
        requires { page < length self.now.pages }
        ensures { result ≡ has_room page self.now }
    {
        self.pages[page as usize].is_some()
    }

    /// Gives a page memory of its own. An `Err` changes nothing.
    pub fn make_room(&mut self, page: u32) -> Result<(), Memory>
        requires { page < length self.old.pages }
        ensures ok { OnOk result (self.new ≡ with_room page self.old) }
        ensures has { OnOk result (has_room page self.new ≡ true) }
        ensures err { OnErr result (self.new ≡ self.old) }
    {
        if !self.has_room(page) {
            let bytes = OwnPage::new(self.alloc)?;
            give(&mut self.pages[page as usize], bytes);
        }
        Ok(())
    }

    /// Stores the low bytes of a value in a page, the least first.
    pub fn write(&mut self, page: u32, at: u32, len: u32, value: u64)
        requires page { page < length self.old.pages }
        requires room { has_room page self.old ≡ true }
        requires within { at + len ≤ 4096 }
        ensures { self.new ≡ with_bytes page
            (overwritten (bytes_of page self.old) at (take len (to_le_bytes w64 value))) self.old }
    {
        if let Some(bytes) = &mut self.pages[page as usize] {
            bytes.store(at as usize, len, value);
        }
    }

    /// Stores one byte in all of a page.
    pub fn paint(&mut self, page: u32, byte: u8)
        requires page { page < length self.old.pages }
        requires room { has_room page self.old ≡ true }
        ensures { self.new ≡ with_bytes page (filled byte) self.old }
    {
        if let Some(bytes) = &mut self.pages[page as usize] {
            bytes.fill(byte);
        }
    }
}

/// Gives a page its own memory.
fn give(own: &mut Option<OwnPage>, bytes: OwnPage)
    ensures { own.new ≡ Some bytes }
{
    *own = Some(bytes);
}

/// A copy of a page's own memory, where it has some.
fn copied(alloc: Global, own: &Option<OwnPage>) -> Result<Option<OwnPage>, Memory>
    ensures { IfOk result (λ copy. copy ≡ own.now) }
{
    match own {
        None => Ok(None),
        Some(bytes) => Ok(Some(bytes.copied(alloc)?)),
    }
}

/// Copies of the pages' own memory.
fn all_copied(alloc: Global, pages: &[Option<OwnPage>]) -> Result<Vec<Option<OwnPage>>, Memory>
    ensures { IfOk result (λ copies. copies.items ≡ pages.now) }
{
    let mut copies = Vec::with_capacity(alloc, pages.len())?;
    for page in 0..pages.len() {
        copies.push(copied(alloc, &pages[page])?)?;
    }
    Ok(copies)
}
