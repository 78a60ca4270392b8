ghost use Rattle.std.specs.Prelude.{◌≡◌, ◌+◌, ◌<◌, ◌≤◌, [], ◌∷◌, ◌++◌, false, ℕ, List, length};
ghost use Rattle.std.specs.Prelude.{slice_index, vec_len, Option, Some, None, get_or, OnOk, IfOk};
ghost use Rattle.std.specs.List.{list_any};
ghost use Rattle.dr_history.specs.declared.event.Event.{Event};
ghost use Rattle.dr_history.specs.Entries.{opens};
ghost use Rattle.dr_history.specs.Rules.{deposits_entry};
ghost use Rattle.dr_state.specs.Opened.{AreEntries, IsNoEntry, entries_of, firsts, HasRoomAt};
ghost use Rattle.dr_state.specs.Opened.{IsMarked, EntryFits, OpensNext};
ghost use Rattle.dr_types.specs.declared.guest.Guest.{Guest};
ghost use Rattle.dr_history.specs.Legality.{IsLegalSoFar};
ghost use Rattle.dr_state.specs.Rows.{IsWithin};
ghost use Rattle.dr_history.specs.Entries.{page_of_entry};
ghost use Rattle.dr_state.specs.declared.entry_fields.OpenedEntry.{OpenedEntry};

use crate::entry_fields::{OpenedEntries, OpenedEntry};
use dr_history::Event;
use dr_marks::Roomy;
use dr_types::Memory;
use std::alloc::Global;

impl OpenedEntries {
    /// The entries of so many vCPUs, before any event.
    #[tactic(auto, using(crate::proofs::Firsts::entries_more, crate::proofs::Firsts::no_entries))]
    pub fn new(alloc: Global, count: usize) -> Result<OpenedEntries, Memory>
        ensures { IfOk result (λ it. AreEntries count [] it) }
    {
        let mut rows = Vec::new(alloc);
        for v in 0..count {
            rows.push(Roomy::new(alloc))?;
        }
        Ok(OpenedEntries { rows })
    }

    /// The entries of a vCPU.
    pub fn of(&self, v: u32) -> &[OpenedEntry]
        requires { v < vec_len self.now.rows }
        ensures { (n : ℕ) (past : List Event) → AreEntries n past self.now
            → result.now ≡ entries_of past v }
    {
        self.rows[v as usize].as_slice()
    }

    /// Room for an entry of a vCPU.
    pub fn make_room(&mut self, v: u32) -> Result<(), Memory>
        requires { v < vec_len self.old.rows }
        ensures rows { firsts self.new.rows.items ≡ firsts self.old.rows.items }
        ensures ok { OnOk result (HasRoomAt v self.new.rows.items) }
    {
        self.rows[v as usize].make_room()
    }

    /// Takes an event.
    pub fn take(&mut self, e: &Event)
        requires vcpu { IsWithin (vec_len self.old.rows) e.now }
        requires fits { EntryFits e.now self.old.rows.items }
        ensures { (n : ℕ) (past : List Event) → OpensNext e.now past → AreEntries n past self.old
            → AreEntries n (e.now ∷ past) self.new }
    {
        match e {
            Event::Opened { v, page, .. } => self.opened(*v, *page),
            Event::Deposited { v, from, to } => self.deposited(*v, *from, *to),
            _ => self.unseen(),
        }
    }

    /// The page of an entry.
    pub fn page(&self, v: u32, k: u64) -> Option<u32>
        requires { v < vec_len self.now.rows }
        ensures { (guest : Guest) (n : ℕ) (past : List Event) → IsLegalSoFar guest past
            → AreEntries n past self.now → result ≡ page_of_entry v k past }
    {
        let entries = self.of(v);
        if k < entries.len() as u64 {
            Some(entries[k as usize].page)
        } else {
            None
        }
    }

    /// A vCPU opens its next entry.
    fn opened(&mut self, v: u32, page: u32)
        requires vcpu { v < vec_len self.old.rows }
        requires room { HasRoomAt v self.old.rows.items }
        ensures { (n k : ℕ) (past : List Event) → k ≡ opens v past
            → list_any (deposits_entry v k) past ≡ false → AreEntries n past self.old
            → AreEntries n (Event.Opened v k page ∷ past) self.new }
    {
        self.rows[v as usize].push_kept(OpenedEntry {
            page,
            deposited: false,
        });
    }

    /// OpenedEntries of a vCPU are deposited.
    fn deposited(&mut self, v: u32, from: u64, to: u64)
        requires vcpu { v < vec_len self.old.rows }
        requires order { from ≤ to }
        requires opened { (d : List OpenedEntry × ℕ)
            → to ≤ length (get_or self.old.rows.items v d).0 }
        ensures { (n : ℕ) (past : List Event) → AreEntries n past self.old
            → AreEntries n (Event.Deposited v from to ∷ past) self.new }
    {
        mark(&mut self.rows[v as usize], from, to);
    }

    fn unseen(&mut self)
        ensures { (n : ℕ) (past : List Event) (e : Event) → IsNoEntry e
            → AreEntries n past self.old → AreEntries n (e ∷ past) self.new }
    {}
}

/// The entries from one number up to another are deposited.
fn mark(row: &mut Roomy<OpenedEntry>, from: u64, to: u64)
    requires order { from ≤ to }
    requires within { to ≤ length row.old.0 }
    ensures { IsMarked from to row.old.0 row.new.0 }
{
    for k in from..to {
        let mut entry = row.as_slice()[k as usize];
        entry.deposited = true;
        row.set(k as usize, entry);
    }
}
