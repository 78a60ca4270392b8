ghost use Rattle.std.specs.Prelude.{◌≡◌, ◌+◌, ◌%◌, ◌≤◌, ◌<◌, ◌^◌, ◌∷◌, true, ℕ, List, Some, length};
ghost use Rattle.std.specs.Prelude.{OnOk};
ghost use Rattle.dr_types.specs.Pages.{page_of_address, page_count};
ghost use Rattle.dr_types.specs.declared.guest.Guest.{Guest};
ghost use Rattle.dr_history.specs.declared.event.Event.{Event};
ghost use Rattle.dr_history.specs.Memory.{memory};
ghost use Rattle.dr_memory.specs.Stores.{has_room};
ghost use Rattle.dr_state.specs.Pages.{IsPageWithin};
ghost use Rattle.dr_state.specs.Stores.{StoresWithin, StoreFits, IsUnstored};

use dr_history::Event;
use dr_memory::PageStore;
use dr_slots::page_of_address;
use dr_types::{Guest, Memory};

/// Room for what an event stores.
pub fn make_room(store: &mut PageStore, guest: &Guest, e: &Event) -> Result<(), Memory>
    requires few { page_count guest.now < 2 ^ 32 }
    requires whole { length store.old.pages ≡ page_count guest.now }
    requires page { IsPageWithin (length store.old.pages) e.now }
    ensures pages { store.new.pages ≡ store.old.pages }
    ensures ok { OnOk result (StoreFits guest.now e.now store.new) }
{
    match e {
        Event::Write { space, addr, .. } => match page_of_address(guest, *space, *addr) {
            Some(page) => store.make_room(page),
            None => Ok(()),
        },
        Event::Paint { page, .. } => store.make_room(*page),
        _ => Ok(()),
    }
}

/// Takes an event.
pub fn take(store: &mut PageStore, guest: &Guest, e: &Event)
    requires few { page_count guest.now < 2 ^ 32 }
    requires whole { length store.old.pages ≡ page_count guest.now }
    requires page { IsPageWithin (length store.old.pages) e.now }
    requires within { StoresWithin e.now }
    requires room { StoreFits guest.now e.now store.old }
    ensures pages { (past : List Event) → store.old.pages ≡ memory guest.now past
        → store.new.pages ≡ memory guest.now (e.now ∷ past) }
    ensures rooms { store.new.rooms ≡ store.old.rooms }
{
    match e {
        Event::Write {
            space,
            addr,
            len,
            value,
            ..
        } => match page_of_address(guest, *space, *addr) {
            Some(page) => stored(store, page, (*addr % 4096) as u32, *len, *value),
            None => unseen(store),
        },
        Event::Paint { page, byte, .. } => painted(store, *page, *byte),
        _ => unseen(store),
    }
}

fn stored(store: &mut PageStore, page: u32, at: u32, len: u32, value: u64)
    requires page { page < length store.old.pages }
    requires room { has_room page store.old ≡ true }
    requires within { at + len ≤ 4096 }
    ensures pages { (guest : Guest) (past : List Event) (v i space addr : ℕ)
        → page_of_address guest space addr ≡ Some page → addr % 4096 ≡ at
        → store.old.pages ≡ memory guest past
        → store.new.pages ≡ memory guest (Event.Write v i space addr len value ∷ past) }
    ensures rooms { store.new.rooms ≡ store.old.rooms }
{
    store.write(page, at, len, value);
}

fn painted(store: &mut PageStore, page: u32, byte: u8)
    requires page { page < length store.old.pages }
    requires room { has_room page store.old ≡ true }
    ensures pages { (guest : Guest) (past : List Event) (v i : ℕ)
        → store.old.pages ≡ memory guest past
        → store.new.pages ≡ memory guest (Event.Paint v i page byte ∷ past) }
    ensures rooms { store.new.rooms ≡ store.old.rooms }
{
    store.paint(page, byte);
}

#[tactic(auto, using(crate::proofs::Stored::unseen))]
fn unseen(store: &mut PageStore)
    ensures pages { (guest : Guest) (past : List Event) (e : Event) → IsUnstored guest e
        → store.old.pages ≡ memory guest past → store.new.pages ≡ memory guest (e ∷ past) }
    ensures rooms { store.new.rooms ≡ store.old.rooms }
{}
