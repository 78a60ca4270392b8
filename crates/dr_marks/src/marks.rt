ghost use Rattle.std.specs.Prelude.{◌≡◌, ◌+◌, ◌<◌, ◌≤◌, Bool, true, false, length, set, replicate};
ghost use Rattle.std.specs.Prelude.{slice_index_or, IfOk, OnOk};
ghost use Rattle.std.specs.List.{list_any};
ghost use Rattle.dr_marks.specs.Marked.{IsList, is_set};

use crate::flags::Flags;
use crate::room::Roomy;
use dr_types::Memory;
use std::alloc::Global;
use std::marker::Model;

/// Flags of which the set ones are also listed. Contracts see the flags, and for how many more the
/// list has room.
#[derive(Drop)]
pub struct Marks {
    flags: Flags,
    list: Roomy<u32>,
}

impl Model for Marks {
    ghost use Rattle.std.specs.Prelude.{List, Bool, ℕ};
    ghost use Rattle.dr_marks.specs.Marked.{IsList};

    ghost Value = { List Bool × ℕ };

    ghost view = { λ m. (m.flags, m.list.1) };

    ghost invariant = { λ m. IsList m.flags m.list.0 };
}

impl Marks {
    /// So many flags, none set.
    #[tactic(auto, using(crate::proofs::Marked::no_list))]
    pub fn new(alloc: Global, len: u32) -> Result<Marks, Memory>
        ensures { IfOk result (λ m. m.0 ≡ replicate len false) }
    {
        Ok(Marks {
            flags: Flags::new(alloc, len as usize)?,
            list: Roomy::new(alloc),
        })
    }

    /// The flag at a place.
    pub fn get(&self, at: u32) -> bool
        requires { at < length self.now.0 }
        ensures { result ≡ slice_index_or self.now.0 at false }
    {
        self.flags.get(at as usize)
    }

    /// Some flag is set.
    #[tactic(auto, using(crate::proofs::Marked::any_listed))]
    pub fn any(&self) -> bool
        ensures { result ≡ list_any is_set self.now.0 }
    {
        0 < self.list.as_slice().len()
    }

    /// Those that are set.
    pub fn list(&self) -> &[u32]
        ensures { IsList self.now.0 result.now }
    {
        self.list.as_slice()
    }

    /// Room for one more in the list.
    pub fn make_room(&mut self) -> Result<(), Memory>
        ensures flags { self.new.0 ≡ self.old.0 }
        ensures ok { OnOk result (1 ≤ self.new.1) }
    {
        self.list.make_room()
    }

    /// Sets the flag at a place.
    #[tactic(auto, using(crate::proofs::Marked::listed, crate::proofs::Marked::set_again))]
    pub fn mark(&mut self, at: u32)
        requires within { at < length self.old.0 }
        requires room { 1 ≤ self.old.1 }
        ensures { self.new.0 ≡ set self.old.0 at true }
    {
        if !self.flags.get(at as usize) {
            self.flags.set(at as usize);
            self.list.push_kept(at);
        }
    }

    /// Clears each flag.
    #[tactic(auto, using(crate::proofs::Marked::no_list))]
    pub fn clear(&mut self)
        ensures { self.new.0 ≡ replicate (length self.old.0) false }
    {
        self.flags.clear();
        self.list.clear();
    }
}
