ghost use Rattle.std.specs.Prelude.{◌≡◌, ◌<◌, OnOk, OnErr};
ghost use Rattle.dr_types.specs.Scripts.{vcpu_count};
ghost use Rattle.dr_bench.specs.Bench.{SameStanding};
ghost use Rattle.dr_schedule_law.specs.Reaps.{Extends, reaped};
ghost use Rattle.dr_schedule_law.specs.Schedule.{reaps_after_full};
ghost use Rattle.dr_reap.specs.Harvests.{AllDeposited};

use dr_bench::Bench;
use dr_collector::Collector;
use dr_io::Outlet;
use dr_reap::{reap_all, reap_one};
use dr_ring::Name;
use dr_ring_set::Rings;
use dr_types::Memory;
use std::alloc::Global;

/// Reaps after a vCPU left with a full ring: its own ring where there is a quota, else all.
pub fn reap_after_full<N: Name, O: Outlet>(
    alloc: Global,
    bench: &mut Bench<N, O>,
    collector: &mut Collector<N>,
    rings: &Rings<N>,
    v: u32,
) -> Result<(), Memory>
    requires vcpu { v < vcpu_count N.guest }
    requires all_deposited { AllDeposited N.guest bench.old.past collector.old }
    ensures reaped { let whose = reaps_after_full N.guest v in
        OnOk result (bench.new.past ≡ reaped N.guest whose bench.old.past) }
    ensures all_deposited { OnOk result (AllDeposited N.guest bench.new.past collector.new) }
    ensures begun { OnErr result (Extends bench.old.past bench.new.past) }
    ensures part { let whose = reaps_after_full N.guest v in
        OnErr result (Extends bench.new.past (reaped N.guest whose bench.old.past)) }
    ensures standing { SameStanding bench.old bench.new }
{
    // As in QEMU where a dirty limit is in service: there a vCPU whose ring is full has that one
    // reaped, so that it pays for its own writes; else all rings are.
    if bench.guest().settings.quota >= 1 {
        reap_one(bench, collector, rings, alloc, v)?;
    } else {
        reap_all(bench, collector, rings, alloc)?;
    }
    Ok(())
}
