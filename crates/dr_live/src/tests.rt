//! That the threads of a run overlap: two runs whose gates let them meet, and note where they
//! don't.

use crate::{LiveEnd, live_main};
use dr_io::{ByteSource, FixedClock, Gate, PortBook, Who};
use dr_types::{Listed, Status};
use std::alloc::{AllocError, Global};
use std::sync::Wait;
use std::sync::atomic::{AtomicBool, AtomicU64, Ordering};
use std::test::Fail;
use std::thread::{Threads, yield_now};

/// Does `run` on a guest file.
fn run<G: Gate + Sync, R: Threads + Wait + Sync>(
    rt: &R,
    alloc: Global,
    file: &[u8],
    gate: &G,
) -> Result<LiveEnd<PortBook>, AllocError> {
    let words = vec![in alloc; String::from_str(alloc, "run")?]?;
    let bytes = Listed::from_vec(file.to_vec(alloc)?);
    let mut source = ByteSource::new(bytes, 4096, Listed::new(alloc));
    let out = PortBook::new(alloc, Listed::new(alloc));
    let clock = FixedClock { now: 0 };
    Ok(live_main(rt, alloc, words.as_slice(), &mut source, out, &clock, gate))
}

/// Yields the processor until the flag is raised, at most so many times. Answers whether it is.
fn yield_until(limit: u32, flag: &AtomicBool) -> bool {
    for _ in 0..limit {
        if flag.load(Ordering::SeqCst) {
            return true;
        }
        yield_now();
    }
    flag.load(Ordering::SeqCst)
}

/// Yields the processor until the count is at least this, at most so many times. Answers whether it
/// is.
fn yield_to(limit: u32, count: &AtomicU64, least: u64) -> bool {
    for _ in 0..limit {
        if count.load(Ordering::SeqCst) >= least {
            return true;
        }
        yield_now();
    }
    count.load(Ordering::SeqCst) >= least
}

/// Holds vCPU 0 in each pass for a while until the migrator has passed once, and notes where vCPU 0
/// comes to its halt before that. A guest that is stopped earlier never comes to it.
#[derive(Drop)]
struct CopyGate {
    copied: AtomicBool,
    late: AtomicBool,
}

impl Gate for CopyGate {
    fn pass(&self, who: Who, at: u64) {
        match who {
            Who::Vcpu(0) if at >= 1 => {
                let copied = yield_until(1_000, &self.copied);
                if at == 1_000 && !copied {
                    self.late.store(true, Ordering::SeqCst);
                }
            }
            Who::Migrator => self.copied.store(true, Ordering::SeqCst),
            _ => {}
        }
    }
}

const ONE_VCPU: &[u8] =
    b"dirtyguest 1\nring 8\nreserve 2\nbuffer 0\npace 1\nthreshold 0\nrounds 4\nquota 0\nslot 0 0 1\nvcpu\nrep 1000\na 0\nend\nhalt\n";

/// A run that executes all ops first and migrates then comes to the halt with no copy made.
#[test]
fn copies_a_page_before_the_halt(rt: HostRuntime) -> Result<(), Fail> {
    let gate = CopyGate {
        copied: AtomicBool::new(false),
        late: AtomicBool::new(false),
    };
    let end = run(&rt, rt.alloc(), ONE_VCPU, &gate)?;
    assert!(rt; end.status == Status::Done, "the status");
    assert!(rt; gate.copied.load(Ordering::SeqCst), "a copy");
    assert!(rt; !gate.late.load(Ordering::SeqCst), "before the halt");
    Ok(())
}

/// Keeps two vCPUs in step, and holds the reaper in its first pass until vCPU 0 has moved on.
#[derive(Drop)]
struct StepGate {
    /// Of each vCPU, its last pass and one.
    begun: [AtomicU64; 2],
    reaps: AtomicBool,
    used_up: AtomicBool,
    moved: AtomicBool,
}

impl StepGate {
    fn vcpu(&self, own: &AtomicU64, other: &AtomicU64, first: bool, at: u64) {
        own.store(at.saturating_add(1), Ordering::SeqCst);
        if at < 1 || self.used_up.load(Ordering::SeqCst) {
            return;
        }
        if first {
            let _begun = yield_until(1_000, &self.reaps);
        }
        if !yield_to(1_000_000, other, at.saturating_add(1)) {
            self.used_up.store(true, Ordering::SeqCst);
        }
    }

    fn reaper(&self) {
        let before = self.begun[0].load(Ordering::SeqCst);
        self.reaps.store(true, Ordering::SeqCst);
        if yield_to(1_000_000, &self.begun[0], before.saturating_add(2)) {
            self.moved.store(true, Ordering::SeqCst);
        }
    }
}

impl Gate for StepGate {
    fn pass(&self, who: Who, at: u64) {
        match who {
            Who::Vcpu(0) => self.vcpu(&self.begun[0], &self.begun[1], true, at),
            Who::Vcpu(1) => self.vcpu(&self.begun[1], &self.begun[0], false, at),
            Who::Reaper if at == 1 => self.reaper(),
            _ => {}
        }
    }
}

const TWO_VCPUS: &[u8] =
    b"dirtyguest 1\nring 8\nreserve 2\nbuffer 0\npace 1001\nthreshold 0\nrounds 4\nquota 0\nslot 0 0 1\nvcpu\nrep 1000\na 0\nend\nhalt\nvcpu\nrep 1000\na 0\nend\nhalt\n";

/// Logging begins when both vCPUs have halted, so no kick and no stop comes before. A run whose
/// vCPUs run one after another uses up its yields, and so does a reap that keeps the machine's lock
/// from its notes to its settling.
#[test]
fn goes_on_beside_a_harvest(rt: HostRuntime) -> Result<(), Fail> {
    let gate = StepGate {
        begun: [AtomicU64::new(0), AtomicU64::new(0)],
        reaps: AtomicBool::new(false),
        used_up: AtomicBool::new(false),
        moved: AtomicBool::new(false),
    };
    let end = run(&rt, rt.alloc(), TWO_VCPUS, &gate)?;
    assert!(rt; end.status == Status::Done, "the status");
    assert!(rt;
        gate.moved.load(Ordering::SeqCst),
        "a vCPU beside the harvest"
    );
    assert!(rt; !gate.used_up.load(Ordering::SeqCst), "the vCPUs in step");
    Ok(())
}
