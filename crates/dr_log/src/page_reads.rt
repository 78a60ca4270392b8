ghost use Rattle.std.specs.Prelude.{◌≡◌, ◌%◌, ◌<◌, ◌≤◌, ◌^◌, true, All, IfOk, IfSome, length};
ghost use Rattle.std.specs.List.{list_any};
ghost use Rattle.dr_types.specs.Pages.{page_count, page_of_address};
ghost use Rattle.dr_types.specs.Scripts.{vcpu_count};
ghost use Rattle.dr_history.specs.Dirty.{dirty, dirty_pages};
ghost use Rattle.dr_history.specs.Lookback.{below};
ghost use Rattle.dr_history.specs.Memory.{page_bytes, loaded};
ghost use Rattle.dr_history.specs.Protection.{writable, cached, closing};
ghost use Rattle.dr_history.specs.Rules.{in_one_page, same_numbers};

use crate::answers::{are_dirty, dirty_numbers};
use crate::log::Log;
use crate::memory::loaded_at;
use crate::paces::some_closing;
use dr_memory::PageBytes;
use dr_types::{Memory, PageList};
use std::alloc::Global;

/// What is told of each page.
impl Log {
    /// How many pages the guest has.
    pub fn pages(&self) -> u32
        ensures { result ≡ page_count self.now.guest }
    {
        self.state.protection.permissions.pages()
    }

    /// A page may be written.
    pub fn writable(&self, page: u32) -> bool
        requires { page < page_count self.now.guest }
        ensures { result ≡ writable page self.now.past }
    {
        self.state.protection.is_writable(page)
    }

    /// A vCPU has its permission to write a page.
    pub fn cached(&self, v: u32, page: u32) -> bool
        requires vcpu { v < vcpu_count self.now.guest }
        requires page { page < page_count self.now.guest }
        ensures { result ≡ cached v page self.now.past }
    {
        self.state.protection.is_cached(v, page)
    }

    /// The destination lacks a page.
    pub fn dirty(&self, page: u32) -> bool
        requires { page < page_count self.now.guest }
        ensures { result ≡ dirty page self.now.past }
    {
        self.state.protection.is_dirty(page)
    }

    /// The pages that the destination lacks, rising. An `Err` comes for want of memory alone.
    pub fn dirty_pages(&self, alloc: Global) -> Result<PageList, Memory>
        ensures pages { IfOk result (λ pages. pages ≡ dirty_pages self.now.guest self.now.past) }
        ensures small { IfOk result (λ pages. All (λ page. page < 2 ^ 32) pages) }
        ensures few { IfOk result (λ pages. length pages ≤ page_count self.now.guest) }
    {
        dirty_numbers(&self.guest, &self.state, alloc)
    }

    /// These are the pages that the destination lacks, rising.
    pub fn are_dirty(&self, pages: &[u32]) -> bool
        ensures { result ≡ same_numbers pages.now (dirty_pages self.now.guest self.now.past) }
    {
        are_dirty(&self.guest, &self.state, pages)
    }

    /// Some page was reset and waits for a flush.
    pub fn has_closing(&self) -> bool
        ensures { let past = self.now.past in
            result ≡ list_any (λ page. closing page past) (below (page_count self.now.guest)) }
    {
        some_closing(&self.guest, &self.state)
    }

    /// The bytes of a page.
    pub fn page(&self, page: u32) -> &[u8]
        requires { page < page_count self.now.guest }
        ensures { result.now ≡ page_bytes self.now.guest page self.now.past }
    {
        self.state.page(page)
    }

    /// Copies the bytes of a page.
    pub fn copy_page(&self, page: u32, into: &mut PageBytes)
        requires { page < page_count self.now.guest }
        ensures { into.new ≡ page_bytes self.now.guest page self.now.past }
    {
        self.state.copy_page(page, into);
    }

    /// The eight bytes of a page from a place on, the least first.
    pub fn load(&self, page: u32, at: u32) -> u64
        requires page { page < page_count self.now.guest }
        requires within { at < 4096 }
        ensures { result ≡ loaded (page_bytes self.now.guest page self.now.past) at }
    {
        self.state.load(page, at)
    }

    /// The value that a load of 8 bytes at an address of a space gives, the least byte first.
    pub fn loaded(&self, space: u32, address: u64) -> u64
        requires { in_one_page self.now.guest space address 8 ≡ true }
        ensures { IfSome (page_of_address self.now.guest space address) (λ page.
            result ≡ loaded (page_bytes self.now.guest page self.now.past) (address % 4096)) }
    {
        loaded_at(&self.guest, &self.state, space, address)
    }
}
