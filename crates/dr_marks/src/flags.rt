ghost use Rattle.std.specs.Prelude.{◌≡◌, ◌<◌, ◌^◌, Bool, true, false, ◌+◌, length, set, replicate};
ghost use Rattle.std.specs.Prelude.{slice_index_or, IfOk};

use dr_types::Memory;
use std::alloc::Global;
use std::marker::Model;

/// A list of flags. A flag is set where its stamp is the present one, so `clear` only takes a new
/// stamp.
#[derive(Drop)]
pub struct Flags {
    stamps: Vec<u64>,
    present: u64,
}

impl Model for Flags {
    ghost use Rattle.std.specs.Prelude.{List, Bool, ◌<◌};
    ghost use Rattle.dr_marks.specs.Stamps.{AllAtMost, flags_at};

    ghost Value = { List Bool };

    ghost view = { λ f. flags_at f.present f.stamps.items };

    ghost invariant = { λ f. (0 < f.present) × AllAtMost f.present f.stamps.items };
}

impl Flags {
    /// So many flags, none set.
    #[tactic(auto, using(crate::proofs::Stamps::none_set, crate::proofs::Stamps::zeros_at_most))]
    pub fn new(alloc: Global, len: usize) -> Result<Flags, Memory>
        ensures { IfOk result (λ f. f ≡ replicate len false) }
    {
        Ok(Flags {
            stamps: vec![in alloc; 0; len]?,
            present: 1,
        })
    }

    /// The flag at a place.
    #[tactic(auto, using(crate::proofs::Stamps::stamp_steps))]
    pub fn get(&self, at: usize) -> bool
        requires { at < length self.now }
        ensures { result ≡ slice_index_or self.now at false }
    {
        self.stamps[at] == self.present
    }

    /// Sets the flag at a place.
    #[tactic(auto, using(crate::proofs::Stamps::stamp_steps, crate::proofs::Stamps::set_at_most))]
    pub fn set(&mut self, at: usize)
        requires { at < length self.old }
        ensures { self.new ≡ set self.old at true }
    {
        self.stamps[at] = self.present;
    }

    /// Clears each flag, in one step: only where the stamps are used up is each written again.
    #[tactic(auto, using(crate::proofs::Stamps::clear_steps))]
    pub fn clear(&mut self)
        ensures { self.new ≡ replicate (length self.old) false }
    {
        // A flush clears a flag for each vCPU and page: one by one, that would be its whole cost.
        if self.present == u64::MAX {
            self.stamps.fill(0);
            self.present = 1;
            return;
        }
        self.present += 1;
    }
}
