ghost use Rattle.std.specs.Prelude.{◌≡◌, ◌<◌, true, length};
ghost use Rattle.dr_types.specs.Scripts.{vcpu_count};
ghost use Rattle.dr_ring_set.specs.Seated.{HasAt};
ghost use Rattle.dr_schedule_law.specs.Reaps.{AreFirstDeposited};
ghost use Rattle.dr_reap.specs.Harvests.{AllDeposited};

use crate::calls::{Call, answers};
use crate::driving::{drives, stands};
use dr_bench::Bench;
use dr_collector::Collector;
use dr_io::Outlet;
use dr_reap::{reap_all, reap_one};
use dr_ring::Name;
use dr_ring_set::{Batch, Rings};
use std::alloc::Global;

/// The batch is deposited.
fn takes<N: Name, O: Outlet>(bench: &mut Bench<N, O>, rings: &Rings<N>, batch: Batch<N>) -> bool {
    if batch.is_empty() {
        return false;
    }
    match bench.deposit(rings, batch) {
        Ok(()) => true,
        Err(_) => false,
    }
}

/// So many entries of v are harvested and deposited.
fn deposits<N: Name, O: Outlet>(
    bench: &mut Bench<N, O>,
    collector: &mut Collector<N>,
    rings: &Rings<N>,
    alloc: Global,
    v: u32,
    count: u32,
) -> bool {
    if v >= rings.vcpus() {
        return false;
    }
    match collector.harvest(rings, alloc, v, None) {
        Ok(batch) => batch.entries.len() == count as usize && takes(bench, rings, batch),
        Err(_) => false,
    }
}

/// v's deposited entries are those that the collector handed out.
fn is_all_deposited<N: Name, O: Outlet>(
    bench: &Bench<N, O>,
    collector: &Collector<N>,
    v: u32,
) -> bool
    requires vcpu { v < vcpu_count N.guest }
    requires rings { v < length N.rings }
    ensures { result ≡ true
        → HasAt collector.now v (λ c. AreFirstDeposited v c.handed bench.now.past) }
{
    match bench.deposited(v) {
        Some(count) => count == collector.handed(v),
        None => false,
    }
}

/// Those of each vCPU are.
pub fn are_all_deposited<N: Name, O: Outlet>(
    bench: &Bench<N, O>,
    collector: &Collector<N>,
    rings: &Rings<N>,
) -> bool
    ensures { result ≡ true → AllDeposited N.guest bench.now.past collector.now }
{
    bench.recall_kept();
    for v in 0..rings.vcpus() {
        if !is_all_deposited(bench, collector, v) {
            return false;
        }
    }
    true
}

/// The rings of all vCPUs are reaped.
fn reaps_all<N: Name, O: Outlet>(
    bench: &mut Bench<N, O>,
    collector: &mut Collector<N>,
    rings: &Rings<N>,
    alloc: Global,
) -> bool {
    if !are_all_deposited(bench, collector, rings) {
        return false;
    }
    match reap_all(bench, collector, rings, alloc) {
        Ok(()) => true,
        Err(_) => false,
    }
}

/// v's ring is.
fn reaps_one<N: Name, O: Outlet>(
    bench: &mut Bench<N, O>,
    collector: &mut Collector<N>,
    rings: &Rings<N>,
    alloc: Global,
    v: u32,
) -> bool
    requires { v < vcpu_count N.guest }
{
    if !are_all_deposited(bench, collector, rings) {
        return false;
    }
    match reap_one(bench, collector, rings, alloc, v) {
        Ok(()) => true,
        Err(_) => false,
    }
}

/// The call answers as it should.
pub fn answers_beside<N: Name, O: Outlet>(
    bench: &mut Bench<N, O>,
    collector: &mut Collector<N>,
    rings: &Rings<N>,
    alloc: Global,
    call: Call,
) -> bool {
    let vcpus = rings.vcpus();
    bench.recall_kept();
    match call {
        Call::Deposit(v, count) => deposits(bench, collector, rings, alloc, v, count),
        Call::ReapOne(v) if v < vcpus => reaps_one(bench, collector, rings, alloc, v),
        Call::ReapAll => reaps_all(bench, collector, rings, alloc),
        Call::Drive(end) => drives(bench, collector, rings, alloc, end),
        Call::Stands(text) => stands(bench, alloc, text),
        _ => answers(bench, rings, call),
    }
}
