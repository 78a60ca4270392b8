ghost use Rattle.std.specs.Prelude.{◌≡◌, ◌+◌, ◌-◌, ◌^◌, ◌<◌, ℕ};

use std::sync::{Condvar, Mutex, Wait};

/// A count of rings, 0 at first, which any thread raises and any thread waits for.
#[derive(Drop)]
pub struct Bell {
    rings: Mutex<u64>,
    rung: Condvar,
}

/// The count rises by one. At the last number of 64 bits it stays.
fn raise(rings: &mut u64)
    ensures one { rings.old < 2 ^ 64 - 1 → rings.new ≡ rings.old + 1 }
    ensures last { rings.old ≡ 2 ^ 64 - 1 → rings.new ≡ rings.old }
{
    *rings = rings.saturating_add(1);
}

impl Bell {
    /// A bell that nobody has rung.
    pub fn new() -> Bell {
        Bell {
            rings: Mutex::new(0),
            rung: Condvar::new(),
        }
    }

    /// Raises the count by one, and wakes all that wait. At the last number of 64 bits it stays.
    pub fn ring<R: Wait>(&self, rt: &R) {
        let mut rings = self.rings.lock(rt);
        raise(&mut *rings);
        drop(rings);
        self.rung.notify_all();
    }

    /// Waits until the count is past the one that was seen, and answers it.
    pub fn wait_past<R: Wait>(&self, rt: &R, seen: u64) -> u64
        ensures { seen < result }
    {
        let rings = self
            .rung
            .wait_while(rt, self.rings.lock(rt), |rings| *rings <= seen);
        *rings
    }
}
