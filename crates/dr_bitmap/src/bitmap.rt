ghost use Rattle.std.specs.Prelude.{◌≡◌, ◌+◌, ◌<◌, ◌≤◌, ◌^◌, Bool, true, false, length, set};
ghost use Rattle.std.specs.Prelude.{replicate, slice_index_or, IfOk, IfSome};
ghost use Rattle.dr_bitmap.specs.Members.{members, least_from};

use dr_types::Memory;
use std::alloc::Global;
use std::marker::Model;

/// A set of numbers below a length. Contracts see a flag for each number.
#[derive(Drop)]
pub struct Bitmap {
    flags: Vec<bool>,
    count: u32,
}

impl Model for Bitmap {
    ghost use Rattle.std.specs.Prelude.{List, Bool};
    ghost use Rattle.dr_bitmap.specs.Members.{IsCounted};

    ghost Value = { List Bool };

    ghost view = { λ it. it.flags.items };

    ghost invariant = { λ it. IsCounted it.count it.flags.items };
}

impl Bitmap {
    /// The set of no number, for numbers below a length. `Memory` where an allocation was refused.
    #[tactic(auto, using(crate::proofs::Counts::counts_none))]
    pub fn new(alloc: Global, len: u32) -> Result<Bitmap, Memory>
        ensures { IfOk result (λ it. it ≡ replicate len false) }
    {
        Ok(Bitmap {
            flags: vec![in alloc; false; len as usize]?,
            count: 0,
        })
    }

    /// The length: each member is below it.
    pub fn len(&self) -> u32
        ensures { result ≡ length self.now }
    {
        self.flags.len() as u32
    }

    /// A number is a member.
    pub fn contains(&self, p: u32) -> bool
        requires { p < length self.now }
        ensures { result ≡ slice_index_or self.now p false }
    {
        self.flags[p as usize]
    }

    /// Puts a number in. Answers whether it was a member before.
    #[tactic(auto, using(crate::proofs::Counts::count_steps))]
    pub fn set(&mut self, p: u32) -> bool
        requires { p < length self.old }
        ensures was { result ≡ slice_index_or self.old p false }
        ensures now { self.new ≡ set self.old p true }
    {
        if self.flags[p as usize] {
            return true;
        }
        self.flags[p as usize] = true;
        self.count += 1;
        false
    }

    /// Takes a number out. Answers whether it was a member before.
    #[tactic(auto, using(crate::proofs::Counts::count_steps))]
    pub fn take(&mut self, p: u32) -> bool
        requires { p < length self.old }
        ensures was { result ≡ slice_index_or self.old p false }
        ensures now { self.new ≡ set self.old p false }
    {
        if !self.flags[p as usize] {
            return false;
        }
        self.flags[p as usize] = false;
        self.count -= 1;
        true
    }

    /// Puts each number below the length in.
    #[tactic(auto, using(crate::proofs::Counts::counts_all))]
    pub fn set_all(&mut self)
        ensures { self.new ≡ replicate (length self.old) true }
    {
        self.flags.fill(true);
        self.count = self.flags.len() as u32;
    }

    /// The least member that is at least this number; `None` where there is none.
    pub fn next_from(&self, p: u32) -> Option<u32>
        ensures is { result ≡ least_from p (members self.now) }
        ensures least { IfSome result (λ q. p ≤ q) }
        ensures within { IfSome result (λ q. q < length self.now) }
    {
        first_set(self.flags.as_slice(), p)
    }

    /// How many members there are.
    pub fn count(&self) -> u32
        ensures { result ≡ length (members self.now) }
    {
        self.count
    }
}

/// The number of the first flag that is set, from a number on.
#[tactic(auto, using(crate::proofs::Leasts::least_steps))]
fn first_set(flags: &[bool], from: u32) -> Option<u32>
    requires { length flags.now < 2 ^ 32 }
    ensures is { result ≡ least_from from (members flags.now) }
    ensures least { IfSome result (λ q. from ≤ q) }
    ensures within { IfSome result (λ q. q < length flags.now) }
{
    for at in from as usize..flags.len() {
        if flags[at] {
            return Some(at as u32);
        }
    }
    None
}
