//! The end of a run in threads, found on one thread once they are joined.
ghost use Rattle.std.specs.Prelude.{◌≡◌, ◌<◌, ◌≤◌, IsTrue, true, false};
ghost use Rattle.dr_types.specs.Ports.{Rose};
ghost use Rattle.dr_types.specs.Scripts.{vcpu_count};
ghost use Rattle.dr_history.specs.Stream.{stream_of};
ghost use Rattle.dr_ring_set.specs.Seated.{HasAt};
ghost use Rattle.dr_schedule_law.specs.Reaps.{AreFirstDeposited};
ghost use Rattle.dr_reap.specs.Harvests.{AllDeposited};
ghost use Rattle.dr_run.specs.Outcomes.{SendsAs, StandsAs};

use dr_bench::Bench;
use dr_collector::Collector;
use dr_io::{Clock, Outlet};
use dr_migrate::drive;
use dr_ring::Name;
use dr_ring_set::Rings;
use dr_run::{OutcomeEnd, end_of};
use std::alloc::Global;

/// Of v, the deposited entries are those that the collector handed out.
fn is_deposited<N: Name, O: Outlet>(bench: &Bench<N, O>, collector: &Collector<N>, v: u32) -> bool
    requires { v < vcpu_count N.guest }
    ensures deposited { IsTrue result
        → HasAt collector.now v (λ c. AreFirstDeposited v c.handed bench.now.past) }
    ensures exact { HasAt collector.now v (λ c. AreFirstDeposited v c.handed bench.now.past)
        → IsTrue result }
{
    bench.recall_kept();
    match bench.deposited(v) {
        Some(n) => n == collector.handed(v),
        None => false,
    }
}

/// So it is of each vCPU: no batch is out, and none was lost.
fn are_all_deposited<N: Name, O: Outlet>(bench: &Bench<N, O>, collector: &Collector<N>) -> bool
    ensures deposited { IsTrue result → AllDeposited N.guest bench.now.past collector.now }
    ensures exact { AllDeposited N.guest bench.now.past collector.now → IsTrue result }
{
    bench.recall_kept();
    for v in 0..collector.vcpus() {
        if !is_deposited(bench, collector, v) {
            return false;
        }
    }
    true
}

/// The end of a run whose threads are joined. Where a put failed it is `Sink`. Where the run was
/// given up, or some vCPU's deposits aren't what the collector handed out, it is `Memory`. Else the
/// run is driven on from where it stands.
pub fn find_end<N: Name, O: Outlet, C: Clock>(
    alloc: Global,
    bench: &mut Bench<N, O>,
    collector: &mut Collector<N>,
    rings: &Rings<N>,
    clock: &C,
) -> OutcomeEnd
    ensures stands { StandsAs result N.guest bench.new.past }
    ensures sends { SendsAs result (stream_of N.guest bench.new.past) N.ports bench.new.told }
    ensures later { N.faults ≤ bench.new.faults }
    ensures risen { result ≡ OutcomeEnd.Sink → Rose N.faults bench.new.faults }
    ensures failed { bench.old.failed ≡ true → result ≡ OutcomeEnd.Sink }
    ensures given_up { bench.old.failed ≡ false → bench.old.over ≡ true
        → result ≡ OutcomeEnd.Memory }
    ensures stays { bench.old.over ≡ true → bench.new ≡ bench.old }
{
    bench.recall_kept();
    if bench.failed() {
        return OutcomeEnd::Sink;
    }
    if bench.over() || !are_all_deposited(bench, collector) {
        return OutcomeEnd::Memory;
    }
    let end = end_of(drive(alloc, bench, collector, rings, clock));
    bench.recall_kept();
    end
}
