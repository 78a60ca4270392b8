ghost use Rattle.std.specs.Prelude.{◌≡◌, ◌+◌, ◌<◌, ◌≤◌, true, length, IfOk, IfSome};
ghost use Rattle.dr_types.specs.Validity.{AreSlots};
ghost use Rattle.dr_protect.specs.Permissions.{cell, is_writable, is_cached};
ghost use Rattle.dr_protect.specs.Masks.{named_page};
ghost use Rattle.dr_protect.specs.Calls.{unprotected, started, flushed, filled, opened, protected};
ghost use Rattle.dr_protect.specs.Calls.{masked};

use dr_marks::Flags;
use dr_slots::{Slots, pages_in};
use dr_types::{Memory, SlotList};
use std::alloc::Global;
use std::marker::Model;

/// Which pages may be written, and which vCPU has its permission cached, so that it writes a page
/// without asking.
#[derive(Drop)]
pub struct Protect {
    slots: Slots,
    vcpus: u32,
    pages: u32,
    writable: Vec<bool>,
    cached: Flags,
}

impl Model for Protect {
    ghost use Rattle.dr_protect.specs.Permissions.{Permissions, IsSized};

    ghost Value = { Permissions };

    ghost use Rattle.dr_protect.specs.Kept.{permissions_of};

    ghost view = { permissions_of };

    ghost invariant = { λ it. IsSized (permissions_of it) };
}

impl Protect {
    /// The pages of these slots: each may be written, and none is cached by any of so many vCPUs.
    /// `Memory` where an allocation was refused.
    pub fn new(alloc: Global, rows: &SlotList, vcpus: u32) -> Result<Protect, Memory>
        requires slots { AreSlots rows.now }
        requires some_vcpu { 1 ≤ vcpus }
        requires few_vcpus { vcpus ≤ 32 }
        ensures { IfOk result (λ it. it ≡ unprotected rows.now vcpus) }
    {
        let pages = pages_in(rows.as_slice());
        Ok(Protect {
            slots: Slots::new(alloc, rows)?,
            vcpus,
            pages,
            writable: vec![in alloc; true; pages as usize]?,
            cached: Flags::new(alloc, vcpus as usize * pages as usize)?,
        })
    }

    /// How many vCPUs there are.
    pub fn vcpus(&self) -> u32
        ensures { result ≡ self.now.vcpus }
    {
        self.vcpus
    }

    /// How many pages there are.
    pub fn pages(&self) -> u32
        ensures { result ≡ self.now.pages }
    {
        self.pages
    }

    /// Logging starts: no page may be written, and none is cached.
    pub fn start(&mut self)
        ensures { self.new ≡ started self.old }
    {
        self.writable.fill(false);
        self.flush();
    }

    /// A page may be written.
    pub fn writable(&self, page: u32) -> bool
        requires { page < self.now.pages }
        ensures { result ≡ is_writable page self.now }
    {
        self.writable[page as usize]
    }

    /// A vCPU writes a page without asking.
    pub fn cached(&self, v: u32, page: u32) -> bool
        requires vcpu { v < self.now.vcpus }
        requires page { page < self.now.pages }
        ensures { result ≡ is_cached v page self.now }
    {
        self.cached.get(self.cell(v, page))
    }

    /// A page may be written from now on, and a vCPU has it cached.
    pub fn open_page(&mut self, v: u32, page: u32)
        requires vcpu { v < self.old.vcpus }
        requires page { page < self.old.pages }
        ensures { self.new ≡ opened v page self.old }
    {
        let cell = self.cell(v, page);
        self.writable[page as usize] = true;
        self.cached.set(cell);
    }

    /// A vCPU has a page cached from now on. The page may be written already.
    pub fn fill(&mut self, v: u32, page: u32)
        requires vcpu { v < self.old.vcpus }
        requires page { page < self.old.pages }
        requires writable { is_writable page self.old ≡ true }
        ensures { self.new ≡ filled v page self.old }
    {
        let cell = self.cell(v, page);
        self.cached.set(cell);
    }

    /// A page may not be written from now on. Whoever has it cached keeps it until the next flush.
    pub fn protect_page(&mut self, page: u32)
        requires { page < self.old.pages }
        ensures { self.new ≡ protected page self.old }
    {
        self.writable[page as usize] = false;
    }

    /// Protects the page at the offset `base + i` of the slot of this field for each bit `i` that
    /// is set in the mask. An offset after the slot's end is passed over, and so is a slot that
    /// isn't there.
    pub fn protect_mask(&mut self, slot: u32, base: u64, mask: u64)
        ensures { self.new ≡ masked slot base mask self.old }
    {
        for i in 0..64 {
            if let Some(page) = self.named_page(slot, base, mask, i) {
                self.protect_page(page);
            }
        }
    }

    /// Nothing is cached from now on, by any vCPU. One step, however many pages there are.
    pub fn flush(&mut self)
        ensures { self.new ≡ flushed self.old }
    {
        self.cached.clear();
    }

    /// The place of a vCPU's flag for a page.
    fn cell(&self, v: u32, page: u32) -> usize
        requires vcpu { v < self.now.vcpus }
        requires page { page < self.now.pages }
        ensures is { result ≡ cell v page self.now }
        ensures within { result < length self.now.cached }
    {
        v as usize * self.pages as usize + page as usize
    }

    /// The page that a bit of a mask names.
    fn named_page(&self, slot: u32, base: u64, mask: u64, i: u32) -> Option<u32>
        requires { i < 64 }
        ensures is { result ≡ named_page self.now.rows slot base mask i }
        ensures within { IfSome result (λ page. page < self.now.pages) }
    {
        if mask >> i & 1 == 0 {
            return None;
        }
        self.slots.page_at(slot, base.checked_add(u64::from(i))?)
    }
}
