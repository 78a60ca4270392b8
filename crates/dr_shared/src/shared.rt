ghost use Rattle.std.specs.Prelude.{◌≡◌, ◌≤◌, length};
ghost use Rattle.dr_types.specs.Scripts.{vcpu_count};

use dr_bench::Bench;
use dr_collector::Collector;
use dr_io::Outlet;
use dr_ring::Name;
use dr_ring_set::Rings;
use std::sync::Mutex;

/// The bench under one lock, the collector under another, and the rings, which need none. Each time
/// that a lock is taken, what its type keeps is known of the value under it, and nothing else.
#[derive(Drop)]
pub struct Shared<N: Name, O: Outlet> {
    pub(crate) bench: Mutex<Bench<N, O>>,
    pub(crate) collector: Mutex<Collector<N>>,
    rings: Rings<N>,
    ghost one_each: { length N.rings ≡ vcpu_count N.guest },
    ghost some: { 1 ≤ vcpu_count N.guest },
}

impl<N: Name, O: Outlet> Shared<N, O> {
    /// Puts the bench and the collector under their locks.
    pub fn new(bench: Bench<N, O>, collector: Collector<N>, rings: Rings<N>) -> Shared<N, O> {
        bench.recall_kept();
        let _recall_guest = bench.guest();
        Shared {
            bench: Mutex::new(bench),
            collector: Mutex::new(collector),
            rings,
        }
    }

    /// The rings, which are shared without a lock.
    pub fn rings(&self) -> &Rings<N> {
        &self.rings
    }

    /// The number of vCPUs.
    pub fn vcpus(&self) -> u32
        ensures vcpus { result ≡ vcpu_count N.guest }
        ensures some { 1 ≤ result }
    {
        self.rings.vcpus()
    }

    /// Takes all three out again, once no other thread has the value.
    pub fn into_parts(self) -> (Bench<N, O>, Collector<N>, Rings<N>) {
        let Shared {
            bench,
            collector,
            rings,
        } = self;
        (bench.into_inner(), collector.into_inner(), rings)
    }
}
