ghost use Rattle.std.specs.Prelude.{◌≡◌, ◌<◌, ◌≤◌, ◌^◌, [], ◌∷◌, true, IfOk, ℕ, List, All, IfSome};
ghost use Rattle.std.specs.Prelude.{OnOk, OnErr, length, vec_len, Option, None};
ghost use Rattle.dr_types.specs.declared.guest.Guest.{Guest};
ghost use Rattle.dr_types.specs.Pages.{page_count};
ghost use Rattle.dr_history.specs.declared.event.Event.{Event};
ghost use Rattle.dr_history.specs.Legality.{broken};
ghost use Rattle.dr_history.specs.Memory.{page_bytes, loaded, zero_page};
ghost use Rattle.dr_history.specs.Rounds.{answered_pages};
ghost use Rattle.dr_memory.specs.Stores.{has_room, with_room};
ghost use Rattle.dr_state.specs.Opened.{OpeningFits, HasRoomAt};
ghost use Rattle.dr_state.specs.Pages.{IsPageWithin, ClosingFits, page_reset};
ghost use Rattle.dr_state.specs.Stores.{StoreFits};
ghost use Rattle.dr_state.specs.Whole.{IsStateOf, IsNamed, FitsState, CanTake};

use crate::entry_fields::OpenedEntries;
use crate::memory;
use crate::protection_fields::Protection;
use crate::round_fields::Rounds;
use crate::script_fields::Running;
use crate::state_fields::State;
use crate::throttle_fields::Throttles;
use crate::vcpus::Vcpus;
use dr_history::Event;
use dr_memory::{PageBytes, PageStore};
use dr_slots::page_count;
use dr_types::{Guest, Memory, PageList};
use std::alloc::Global;

impl State {
    /// The state before any event.
    pub fn new(alloc: Global, guest: &Guest) -> Result<State, Memory>
        requires { FitsState guest.now }
        ensures { IfOk result (λ it. IsStateOf guest.now [] it) }
    {
        let vcpus = guest.scripts.len();
        let pages = page_count(guest);
        Ok(State {
            vcpus: Vcpus::new(alloc, vcpus)?,
            protection: Protection::new(alloc, &guest.slots, vcpus as u32)?,
            running: Running::new(alloc, guest)?,
            entries: OpenedEntries::new(alloc, vcpus)?,
            rounds: Rounds::new(guest.settings.threshold),
            memory: PageStore::new(alloc, pages)?,
            throttles: Throttles::new(alloc, vcpus)?,
        })
    }

    /// The bytes of a page.
    #[tactic(auto, using(crate::proofs::Stored::shows_page))]
    pub fn page(&self, page: u32) -> &[u8]
        requires { page < length self.now.memory.pages }
        ensures { (guest : Guest) (past : List Event) → IsStateOf guest past self.now
            → result.now ≡ page_bytes guest page past }
    {
        self.memory.page(page)
    }

    /// A page is zero. One without memory of its own isn't looked at.
    #[tactic(auto, using(crate::proofs::Stored::shows_zero))]
    pub fn is_zero(&self, page: u32) -> bool
        requires { page < length self.now.memory.pages }
        ensures { (guest : Guest) (past : List Event) → IsStateOf guest past self.now
            → result ≡ zero_page guest page past }
    {
        self.memory.is_zero(page)
    }

    /// Copies the bytes of a page.
    #[tactic(auto, using(crate::proofs::Stored::shows_page))]
    pub fn copy_page(&self, page: u32, into: &mut PageBytes)
        requires { page < length self.now.memory.pages }
        ensures { (guest : Guest) (past : List Event) → IsStateOf guest past self.now
            → into.new ≡ page_bytes guest page past }
    {
        self.memory.copy_page(page, into);
    }

    /// The eight bytes of a page from a place on, the least first.
    #[tactic(auto, using(crate::proofs::Stored::shows_word))]
    pub fn load(&self, page: u32, at: u32) -> u64
        requires page { page < length self.now.memory.pages }
        requires within { at < 4096 }
        ensures { (guest : Guest) (past : List Event) → IsStateOf guest past self.now
            → result ≡ loaded (page_bytes guest page past) at }
    {
        self.memory.read8(page, at)
    }

    /// The page of the entry that an event resets.
    fn page_reset(&self, e: &Event) -> Option<u32>
        requires { IsNamed self.now e.now }
        ensures within { IfSome result (λ page. page < self.now.protection.permissions.pages) }
        ensures is { (guest : Guest) (past : List Event) → IsStateOf guest past self.now
            → result ≡ page_reset e.now past }
    {
        match e {
            Event::Reset { v, k } => below(
                self.entries.page(*v, *k),
                self.protection.permissions.pages(),
            ),
            _ => None,
        }
    }

    /// Room for an entry of a vCPU.
    pub fn make_entry_room(&mut self, v: u32) -> Result<(), Memory>
        requires { v < vec_len self.old.entries.rows }
        ensures state { (guest : Guest) (past : List Event) → IsStateOf guest past self.old
            → IsStateOf guest past self.new }
        ensures pages { self.new.memory.rooms ≡ self.old.memory.rooms }
        ensures closing { self.new.protection ≡ self.old.protection }
        ensures ok { OnOk result (HasRoomAt v self.new.entries.rows.items) }
    {
        self.entries.make_room(v)
    }

    /// Room for a page that a reset closes.
    pub fn make_closing_room(&mut self) -> Result<(), Memory>
        ensures state { (guest : Guest) (past : List Event) → IsStateOf guest past self.old
            → IsStateOf guest past self.new }
        ensures pages { self.new.memory.rooms ≡ self.old.memory.rooms }
        ensures entries { self.new.entries ≡ self.old.entries }
        ensures ok { OnOk result (1 ≤ self.new.protection.closing.1) }
    {
        self.protection.closing.make_room()
    }

    /// Memory of its own for a page.
    pub fn make_page_room(&mut self, page: u32) -> Result<(), Memory>
        requires { page < length self.old.memory.pages }
        ensures state { (guest : Guest) (past : List Event) → IsStateOf guest past self.old
            → IsStateOf guest past self.new }
        ensures entries { self.new.entries ≡ self.old.entries }
        ensures closing { self.new.protection ≡ self.old.protection }
        ensures made { OnOk result (self.new.memory ≡ with_room page self.old.memory) }
        ensures err { OnErr result (self.new ≡ self.old) }
        ensures ok { OnOk result (has_room page self.new.memory ≡ true) }
    {
        self.memory.make_room(page)
    }

    /// Room for what an event stores.
    fn make_store_room(&mut self, guest: &Guest, e: &Event) -> Result<(), Memory>
        requires few { page_count guest.now < 2 ^ 32 }
        requires whole { length self.old.memory.pages ≡ page_count guest.now }
        requires page { IsPageWithin (length self.old.memory.pages) e.now }
        ensures state { (guest : Guest) (past : List Event) → IsStateOf guest past self.old
            → IsStateOf guest past self.new }
        ensures ok { OnOk result (StoreFits guest.now e.now self.new.memory) }
    {
        memory::make_room(&mut self.memory, guest, e)
    }

    /// Room for an event.
    pub fn make_room(&mut self, guest: &Guest, e: &Event) -> Result<(), Memory>
        requires few { page_count guest.now < 2 ^ 32 }
        requires whole { length self.old.memory.pages ≡ page_count guest.now }
        requires named { IsNamed self.old e.now }
        ensures state { (guest : Guest) (past : List Event) → IsStateOf guest past self.old
            → IsStateOf guest past self.new }
        ensures entry { OnOk result (OpeningFits e.now self.new.entries.rows.items) }
        ensures closing { OnOk result (ClosingFits e.now self.new.protection.closing.1) }
        ensures store { OnOk result (StoreFits guest.now e.now self.new.memory) }
    {
        match e {
            Event::Opened { v, .. } => self.make_entry_room(*v),
            Event::Reset { .. } => self.make_closing_room(),
            Event::Write { .. } | Event::Paint { .. } => self.make_store_room(guest, e),
            _ => Ok(()),
        }
    }

    /// Takes an event that breaks no rule, and a copy of its pages.
    pub fn take(&mut self, guest: &Guest, e: &Event, pages: PageList)
        requires guest { FitsState guest.now }
        requires fits { CanTake guest.now e.now self.old }
        requires copy { pages ≡ answered_pages e.now }
        ensures state { (past : List Event) → broken guest.now past e.now ≡ None
            → IsStateOf guest.now past self.old → IsStateOf guest.now (e.now ∷ past) self.new }
        ensures pages { self.new.memory.rooms ≡ self.old.memory.rooms }
    {
        let reset = self.page_reset(e);
        self.throttles.take(guest, &self.vcpus, e);
        self.vcpus.take(e);
        self.protection.take(e, reset);
        self.running.take(e);
        self.entries.take(e);
        self.rounds.take(e, pages);
        memory::take(&mut self.memory, guest, e);
    }
}

/// The number, where it is below this.
fn below(number: Option<u32>, n: u32) -> Option<u32>
    ensures within { IfSome result (λ m. m < n) }
    ensures is { IfSome number (λ m. m < n) → result ≡ number }
{
    match number {
        Some(m) => { if m < n { Some(m) } else { None } }
        None => None,
    }
}
