ghost use Rattle.std.specs.Prelude.{◌≡◌, ◌<◌, OnOk, OnErr};
ghost use Rattle.dr_types.specs.Scripts.{vcpu_count};
ghost use Rattle.dr_bench.specs.Bench.{SameStanding};
ghost use Rattle.dr_schedule_law.specs.Reaps.{reaped};
ghost use Rattle.dr_schedule_law.specs.Schedule.{exited, reaps_after_full};
ghost use Rattle.dr_reap.specs.Harvests.{AllDeposited};
ghost use Rattle.dr_migrate.specs.Leaving.{ExitedInPart};

use crate::context::Context;
use crate::reaping::reap_after_full;
use dr_bench::Bench;
use dr_collector::Collector;
use dr_io::{Clock, Outlet};
use dr_ring::Name;
use dr_ring_set::Rings;
use dr_types::Memory;

/// A sleep is no longer than a second.
const LONGEST_SLEEP_US: u64 = 1_000_000;

/// Sleeps for a vCPU's throttle, and no longer than a second.
fn sleep<C: Clock>(clock: &C, throttle_us: u64) {
    let us = throttle_us.min(LONGEST_SLEEP_US);
    if us != 0 {
        clock.sleep_us(us);
    }
}

/// A vCPU leaves the guest, if it is in it.
pub fn exit<N: Name, O: Outlet>(
    bench: &mut Bench<N, O>,
    collector: &Collector<N>,
    rings: &Rings<N>,
    v: u32,
) -> Result<(), Memory>
    requires vcpu { v < vcpu_count N.guest }
    requires all_deposited { AllDeposited N.guest bench.old.past collector.now }
    ensures exited { OnOk result (bench.new.past ≡ exited N.guest v bench.old.past) }
    ensures all_deposited { AllDeposited N.guest bench.new.past collector.now }
    ensures err { OnErr result (bench.new ≡ bench.old) }
    ensures standing { SameStanding bench.old bench.new }
{
    let _why = bench.exit(rings, v)?;
    Ok(())
}

/// A vCPU whose ring is full leaves the guest, rings are reaped, and it sleeps for its throttle.
pub fn leave_full<N: Name, O: Outlet, C: Clock>(
    context: &Context<N, C>,
    bench: &mut Bench<N, O>,
    collector: &mut Collector<N>,
    v: u32,
) -> Result<(), Memory>
    requires vcpu { v < vcpu_count N.guest }
    requires all_deposited { AllDeposited N.guest bench.old.past collector.old }
    ensures leaves { let whose = reaps_after_full N.guest v in
        OnOk result (bench.new.past ≡ reaped N.guest whose (exited N.guest v bench.old.past)) }
    ensures all_deposited { OnOk result (AllDeposited N.guest bench.new.past collector.new) }
    ensures part { OnErr result (ExitedInPart N.guest v bench.old.past bench.new.past) }
    ensures standing { SameStanding bench.old bench.new }
{
    // It leaves first, so that its buffer is in the ring which is reaped; it sleeps last, with the
    // ring empty, as in QEMU (`dirtylimit_vcpu_execute` comes after the reap).
    exit(bench, collector, context.rings, v)?;
    reap_after_full(context.alloc, bench, collector, context.rings, v)?;
    sleep(context.clock, bench.throttle_us(v));
    Ok(())
}
