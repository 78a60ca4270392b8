//! That a vCPU sleeps for its naps.

use crate::runs::command;
use dr_io::Clock;
use dr_types::Status;
use std::sync::atomic::{AtomicU64, Ordering};
use std::test::Fail;

/// Two vCPUs whose naps have a length that nobody else sleeps for. Logging begins when both have
/// halted, so no stop comes before.
const NAPS: &str =
    "dirtyguest 1\nring 8\nreserve 2\nbuffer 0\npace 200000\nthreshold 0\nrounds 4\nquota 0\nslot 0 0 1\nvcpu\nnap 5\nnap 5\nhalt\nvcpu\nrep 3\nnap 5\nend\nhalt\n";

/// Counts the sleeps of 5 microseconds.
#[derive(Drop)]
struct NapCounter {
    naps: AtomicU64,
}

impl Clock for NapCounter {
    ghost reads = { λ c t. Unit {0} };

    fn now_us(&self) -> u64 {
        0
    }

    fn sleep_us(&self, us: u64) {
        if us == 5 {
            let _before = self.naps.fetch_add(1, Ordering::SeqCst);
        }
    }
}

#[test]
fn sleeps_for_its_naps(rt: HostRuntime) -> Result<(), Fail> {
    let clock = NapCounter {
        naps: AtomicU64::new(0),
    };
    let end = command(&rt, rt.alloc(), &["run"], NAPS, &[], &clock)?;
    assert!(rt; end.status == Status::Done, "the status");
    assert!(rt; clock.naps.load(Ordering::SeqCst) == 5, "the naps");
    Ok(())
}
