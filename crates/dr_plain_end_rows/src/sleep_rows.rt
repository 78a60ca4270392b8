//! How often and how long vCPUs sleep.

use dr_io::Clock;
use dr_plain_testing::{LARGE_PIECE, joined, source, step};
use dr_types::Status;
use std::alloc::{AllocError, Global};
use std::cell::Cell;
use std::test::Fail;

/// A clock that stands, and counts how often and how long it was to sleep.
#[derive(Drop)]
struct SleepCounter {
    sleeps: Cell<u64>,
    us: Cell<u64>,
}

impl Clock for SleepCounter {
    ghost reads = { λ c t. Unit {0} };

    fn now_us(&self) -> u64 {
        0
    }

    fn sleep_us(&self, us: u64) {
        self.sleeps.set(self.sleeps.get().saturating_add(1));
        self.us.set(self.us.get().saturating_add(us));
    }
}

/// The guest of this file is migrated, and sleeps so often and so long.
fn sleeps(alloc: Global, file: &str, sleeps: u64, us: u64) -> Result<bool, AllocError> {
    let mut source = source(alloc, file, LARGE_PIECE, &[])?;
    let clock = SleepCounter {
        sleeps: Cell::new(0),
        us: Cell::new(0),
    };
    let end = step(alloc, &mut source, &[], &clock)?;
    let slept = clock.sleeps.get() == sleeps && clock.us.get() == us;
    Ok(end.status == Some(Status::Done) && slept)
}

/// A nap of 5 microseconds, and 198 at the full exit of the third round.
#[test]
fn sleeps_for_naps_and_throttles(rt: HostRuntime) -> Result<(), Fail> {
    let alloc = rt.alloc();
    let head =
        "dirtyguest 1\nring 4\nreserve 3\nbuffer 0\npace 2\nthreshold 0\nrounds 4\nquota 1\n";
    let ops = "nap 5\na 0\nw 0 01\nw 4096 01\nw 0 02\nw 4096 02\nhalt\n";
    let file = joined(alloc, &[head, "slot 0 0 2\nvcpu\n", ops])?;
    assert!(rt; sleeps(alloc, &file, 2, 203)?, "the sleeps");
    Ok(())
}

/// The rate of six pages in no time is 24,000,000 KiB a second, so the throttle after the second
/// round is 1,081,278 microseconds. The full exit before it sleeps for none, and that after it for
/// a second.
#[test]
fn sleeps_no_longer_than_a_second(rt: HostRuntime) -> Result<(), Fail> {
    let alloc = rt.alloc();
    let head = "dirtyguest 1\nring 65536\nreserve 65530\nbuffer 0\npace 7\nthreshold 0\nrounds 4\n";
    let first = "w 0 01\nw 4096 01\nw 8192 01\nw 12288 01\nw 16384 01\nw 20480 01\na 0\n";
    let second = "w 0 02\nw 4096 02\nw 8192 02\nw 12288 02\nw 16384 02\nw 20480 02\nhalt\n";
    let start = "quota 1\nslot 0 0 6\nvcpu\nrep 7\na 0\nend\n";
    let file = joined(alloc, &[head, start, first, second])?;
    assert!(rt; sleeps(alloc, &file, 1, 1_000_000)?, "the sleep");
    Ok(())
}
