//! What was harvested of one vCPU and went out in no batch.
ghost use Rattle.std.specs.Prelude.{◌≡◌, ◌≤◌, ◌<◌, ◌↔◌, [], ◌∷◌, ◌++◌, length, IsTrue, OnOk};

use dr_ring_set::EntryList;
use dr_types::{Entry, Listed, Memory};
use std::alloc::Global;
use std::marker::Model;
use std::mem;

/// The entries of one vCPU that were harvested and went out in no batch, and how many went out
/// before them.
#[derive(Drop)]
pub(crate) struct Pending {
    handed: u64,
    entries: Vec<Entry>,
}

impl Model for Pending {
    ghost use Rattle.std.specs.Prelude.{◌-◌, vec_len, vec_capacity};
    ghost use Rattle.dr_collector.specs.Pending.{PendingView};

    ghost Value = { PendingView };

    ghost view = { λ p.
        record {
          handed = p.handed;
          entries = p.entries.items;
          room = vec_capacity p.entries - vec_len p.entries;
        } };
}

impl Pending {
    /// No entry, and none went out.
    pub(crate) fn new(alloc: Global) -> Pending
        ensures handed { result.handed ≡ 0 }
        ensures entries { result.entries ≡ [] }
    {
        Pending {
            handed: 0,
            entries: Vec::new(alloc),
        }
    }

    /// How many entries went out.
    pub(crate) fn handed(&self) -> u64
        ensures { result ≡ self.now.handed }
    {
        self.handed
    }

    /// Fewer entries are pending than there are places.
    pub(crate) fn has_place(&self, places: u32) -> bool
        ensures { IsTrue result ↔ (length self.now.entries < places) }
    {
        self.entries.len() < places as usize
    }

    /// Room for one more.
    pub(crate) fn make_room(&mut self) -> Result<(), Memory>
        ensures handed { self.new.handed ≡ self.old.handed }
        ensures entries { self.new.entries ≡ self.old.entries }
        ensures ok { OnOk result (1 ≤ self.new.room) }
    {
        self.entries.reserve(1)?;
        Ok(())
    }

    /// Takes an entry into the room that was made.
    pub(crate) fn push_kept(&mut self, e: Entry)
        requires { 1 ≤ self.old.room }
        ensures handed { self.new.handed ≡ self.old.handed }
        ensures entries { self.new.entries ≡ self.old.entries ++ e ∷ [] }
    {
        let _pushed = self.entries.push(e);
    }

    /// The pending entries go out: so many did then.
    pub(crate) fn hand_out(&mut self, alloc: Global, handed: u64) -> EntryList
        ensures result { result ≡ self.old.entries }
        ensures handed { self.new.handed ≡ handed }
        ensures entries { self.new.entries ≡ [] }
    {
        self.handed = handed;
        // Room that was made and not used stays for the next harvest: most find nothing.
        if self.entries.is_empty() {
            return Listed::new(alloc);
        }
        Listed::from_vec(mem::replace(&mut self.entries, Vec::new(alloc)))
    }
}
