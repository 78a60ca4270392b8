ghost use Rattle.std.specs.Prelude.{◌≡◌, ◌+◌, ◌<◌, ◌≤◌, [], ◌∷◌, ◌++◌, length, set, OnOk, OnErr};

use dr_types::Memory;
use std::alloc::Global;
use std::marker::Model;

/// A `Vec` that shows how many more elements it takes without memory.
#[derive(Debug, Drop)]
pub struct Roomy<T> {
    items: Vec<T>,
}

impl<T> Model for Roomy<T> {
    ghost use Rattle.std.specs.Prelude.{List, ℕ, ◌-◌, vec_len, vec_capacity};
    ghost use Rattle.std.specs.Coded.{coded×, coded_list, coded_ℕ};

    ghost Value = { List T × ℕ };

    ghost coded = { coded× (coded_list T.code) coded_ℕ };

    ghost view = { λ it. (it.items.items, vec_capacity it.items - vec_len it.items) };
}

impl<T> Roomy<T> {
    /// A list of nothing.
    pub fn new(alloc: Global) -> Roomy<T>
        ensures { result.0 ≡ [] }
    {
        Roomy {
            items: Vec::new(alloc),
        }
    }

    /// The elements.
    pub fn as_slice(&self) -> &[T]
        ensures { result.now ≡ self.now.0 }
    {
        self.items.as_slice()
    }

    /// Room for one more.
    pub fn make_room(&mut self) -> Result<(), Memory>
        ensures items { self.new.0 ≡ self.old.0 }
        ensures ok { OnOk result (1 ≤ self.new.1) }
    {
        self.items.reserve(1)?;
        Ok(())
    }
}

impl<T: Drop> Roomy<T> {
    /// Takes an element into the room that was made.
    pub fn push_kept(&mut self, item: T)
        requires { 1 ≤ self.old.1 }
        ensures { self.new.0 ≡ self.old.0 ++ item ∷ [] }
    {
        let _pushed = self.items.push(item);
    }

    /// Puts an element in the place of another.
    pub fn set(&mut self, at: usize, item: T)
        requires { at < length self.old.0 }
        ensures items { self.new.0 ≡ set self.old.0 at item }
        ensures room { self.new.1 ≡ self.old.1 }
    {
        self.items[at] = item;
    }

    /// Drops the elements, and keeps their room.
    pub fn clear(&mut self)
        ensures { self.new.0 ≡ [] }
    {
        self.items.clear();
    }
}
