ghost use Rattle.std.specs.Prelude.{◌≡◌, ◌<◌, ◌≤◌, [], ◌∷◌, true, ℕ, List, Some, IfSome, IfOk};
ghost use Rattle.std.specs.Prelude.{length};
ghost use Rattle.dr_types.specs.Pages.{pages_of_slots};
ghost use Rattle.dr_types.specs.Validity.{AreSlots};
ghost use Rattle.dr_types.specs.declared.guest.Guest.{Guest};
ghost use Rattle.dr_marks.specs.Marked.{AllUnder};
ghost use Rattle.dr_protect.specs.Permissions.{is_writable};
ghost use Rattle.dr_state.specs.Sets.{with_set};
ghost use Rattle.dr_history.specs.declared.event.Event.{Event};
ghost use Rattle.dr_history.specs.Legality.{IsLegalSoFar};
ghost use Rattle.dr_history.specs.Protection.{started, writable, cached};
ghost use Rattle.dr_history.specs.Dirty.{dirty};
ghost use Rattle.dr_state.specs.Pages.{IsProtection, IsNoProtection, IsUntouched, SameSizes};
ghost use Rattle.dr_state.specs.Pages.{IsPageWithin, FillFits, ClosingFits, page_reset};
ghost use Rattle.dr_state.specs.Rows.{IsWithin};

use crate::protection_fields::Protection;
use dr_bitmap::Bitmap;
use dr_history::Event;
use dr_marks::Marks;
use dr_protect::Protect;
use dr_slots::pages_in;
use dr_types::{Memory, SlotList};
use std::alloc::Global;

impl Protection {
    /// The pages of these slots and so many vCPUs, before any event.
    #[tactic(auto, using(crate::proofs::Firsts::no_flags))]
    pub fn new(alloc: Global, slots: &SlotList, vcpus: u32) -> Result<Protection, Memory>
        requires slots { AreSlots slots.now }
        requires some_vcpu { 1 ≤ vcpus }
        requires few_vcpus { vcpus ≤ 32 }
        ensures flags { IfOk result (λ it. IsProtection [] it) }
        ensures vcpus { IfOk result (λ it. it.permissions.vcpus ≡ vcpus) }
        ensures pages { IfOk result (λ it. it.permissions.pages ≡ pages_of_slots slots.now) }
    {
        let pages = pages_in(slots.as_slice());
        Ok(Protection {
            permissions: Protect::new(alloc, slots, vcpus)?,
            closing: Marks::new(alloc, pages)?,
            dirty: Bitmap::new(alloc, pages)?,
        })
    }

    /// A page may be written.
    pub fn is_writable(&self, page: u32) -> bool
        requires { page < self.now.permissions.pages }
        ensures { (past : List Event) → IsProtection past self.now → result ≡ writable page past }
    {
        self.permissions.writable(page)
    }

    /// The destination lacks a page.
    pub fn is_dirty(&self, page: u32) -> bool
        requires { page < self.now.permissions.pages }
        ensures { (past : List Event) → IsProtection past self.now → result ≡ dirty page past }
    {
        self.dirty.contains(page)
    }

    /// A vCPU has its permission to write a page.
    pub fn is_cached(&self, v: u32, page: u32) -> bool
        requires vcpu { v < self.now.permissions.vcpus }
        requires page { page < self.now.permissions.pages }
        ensures { (past : List Event) → IsProtection past self.now → result ≡ cached v page past }
    {
        self.permissions.cached(v, page)
    }

    /// Takes an event. The page is that of the entry that it resets.
    pub fn take(&mut self, e: &Event, reset: Option<u32>)
        requires vcpu { IsWithin self.old.permissions.vcpus e.now }
        requires page { IsPageWithin self.old.permissions.pages e.now }
        requires reset { IfSome reset (λ page. page < self.old.permissions.pages) }
        requires fill { FillFits e.now self.old.permissions }
        requires room { ClosingFits e.now self.old.closing.1 }
        ensures sizes { SameSizes self.old self.new }
        ensures state { (guest : Guest) (past : List Event) → IsLegalSoFar guest (e.now ∷ past)
            → reset ≡ page_reset e.now past
            → IsProtection past self.old → IsProtection (e.now ∷ past) self.new }
    {
        match e {
            Event::Start { .. } => self.started(),
            Event::Opened { v, page, .. } => self.opened(*v, *page),
            Event::Filled { v, page } => self.filled(*v, *page),
            Event::Reset { .. } => match reset {
                Some(page) => self.reset(page),
                None => self.unseen(),
            },
            Event::Flushed => self.flushed(),
            Event::Copied { page, .. } => self.copied(*page),
            _ => self.unseen(),
        }
    }

    fn started(&mut self)
        ensures sizes { SameSizes self.old self.new }
        ensures state { (past : List Event) (at : ℕ) → IsUntouched past
            → IsProtection past self.old → IsProtection (Event.Start at ∷ past) self.new }
    {
        // Each page is dirty at first, as in QEMU's bitmap: nobody knows what the destination has.
        self.permissions.start();
        self.dirty.set_all();
    }

    fn opened(&mut self, v: u32, page: u32)
        requires vcpu { v < self.old.permissions.vcpus }
        requires page { page < self.old.permissions.pages }
        ensures sizes { SameSizes self.old self.new }
        ensures state { (past : List Event) (k : ℕ) → IsProtection past self.old
            → IsProtection (Event.Opened v k page ∷ past) self.new }
    {
        self.permissions.open_page(v, page);
    }

    fn filled(&mut self, v: u32, page: u32)
        requires vcpu { v < self.old.permissions.vcpus }
        requires page { page < self.old.permissions.pages }
        requires writable { is_writable page self.old.permissions ≡ true }
        ensures sizes { SameSizes self.old self.new }
        ensures state { (past : List Event) → IsProtection past self.old
            → IsProtection (Event.Filled v page ∷ past) self.new }
    {
        self.permissions.fill(v, page);
    }

    fn reset(&mut self, page: u32)
        requires page { page < self.old.permissions.pages }
        requires room { 1 ≤ self.old.closing.1 }
        ensures sizes { SameSizes self.old self.new }
        ensures state { (past : List Event) (v k : ℕ)
            → started past ≡ true → page_reset (Event.Reset v k) past ≡ Some page
            → IsProtection past self.old → IsProtection (Event.Reset v k ∷ past) self.new }
    {
        // Protected, but not yet dirty: cached permissions outlive the protection, and a copy that
        // is made now could miss a write by one of them.
        self.permissions.protect_page(page);
        self.closing.mark(page);
    }

    fn copied(&mut self, page: u32)
        requires { page < self.old.permissions.pages }
        ensures sizes { SameSizes self.old self.new }
        ensures state { (past : List Event) (r : ℕ) → IsProtection past self.old
            → IsProtection (Event.Copied r page ∷ past) self.new }
    {
        let _was_dirty = self.dirty.take(page);
    }

    fn unseen(&mut self)
        ensures sizes { SameSizes self.old self.new }
        ensures state { (past : List Event) (e : Event) → IsNoProtection past e
            → IsProtection past self.old → IsProtection (e ∷ past) self.new }
    {}

    fn flushed(&mut self)
        ensures sizes { SameSizes self.old self.new }
        ensures state { (past : List Event) → IsProtection past self.old
            → IsProtection (Event.Flushed ∷ past) self.new }
    {
        // Dirty here and not at the reset: from the flush on each write into the page opens an
        // entry, so what was written before it is what a copy after it has.
        set_each(&mut self.dirty, self.closing.list());
        self.closing.clear();
        self.permissions.flush();
    }
}

/// Puts these numbers in.
#[tactic(auto, using(crate::proofs::Protects::set_steps))]
fn set_each(set: &mut Bitmap, list: &[u32])
    requires { AllUnder (length set.old) list.now }
    ensures { set.new ≡ with_set list.now set.old }
{
    for at in list {
        let _was_in = set.set(*at);
    }
}
