ghost use Rattle.std.specs.Prelude.{◌≡◌, ◌<◌, Some, None, IfOk, OnOk, OnErr};
ghost use Rattle.dr_types.specs.Scripts.{vcpu_count};
ghost use Rattle.dr_history.specs.Legality.{IsLegalSoFar};
ghost use Rattle.dr_bench.specs.Bench.{SameStanding};
ghost use Rattle.dr_schedule_law.specs.Settled.{Settles};
ghost use Rattle.dr_schedule_law.specs.Reaps.{reaped, Extends};
ghost use Rattle.dr_reap.specs.Harvests.{AllDeposited, SettlesCut};
ghost use Rattle.dr_reap.specs.Batches.{ranges_of};

use crate::harvests::{harvest_all, harvest_list};
use crate::settling::settle;
use dr_bench::Bench;
use dr_collector::Collector;
use dr_io::Outlet;
use dr_ring::Name;
use dr_ring_set::{BatchList, Rings};
use dr_types::Memory;
use std::alloc::Global;

/// A settling, before and after which all that happened is legal.
#[tactic(auto, unfolding(crate::specs::Harvests::SettlesCut))]
fn settle_legal<N: Name, O: Outlet>(
    bench: &mut Bench<N, O>,
    rings: &Rings<N>,
    batches: BatchList<N>,
) -> Result<u32, Memory>
    ensures first { IsLegalSoFar N.guest bench.old.past }
    ensures last { IsLegalSoFar N.guest bench.new.past }
    ensures settles { IfOk result
        (Settles N.guest (ranges_of batches) bench.old.past bench.new.past) }
    ensures standing { SameStanding bench.old bench.new }
    ensures part { OnErr result
        (SettlesCut N.guest (ranges_of batches) bench.old.past bench.new.past) }
{
    bench.recall_kept();
    let count = settle(bench, rings, batches);
    bench.recall_kept();
    count
}

/// Reaps the rings of all vCPUs: takes the machine's notes, harvests with them, and settles what
/// was harvested. After an `Err` some first events of the reap were appended, each turn whole, and
/// the collector may be ahead of the deposits.
#[tactic(auto, using(crate::proofs::Used::for_reap))]
pub fn reap_all<N: Name, O: Outlet>(
    bench: &mut Bench<N, O>,
    collector: &mut Collector<N>,
    rings: &Rings<N>,
    alloc: Global,
) -> Result<(), Memory>
    requires { AllDeposited N.guest bench.old.past collector.old }
    ensures ok { OnOk result (bench.new.past ≡ reaped N.guest None bench.old.past) }
    ensures all_deposited { OnOk result (AllDeposited N.guest bench.new.past collector.new) }
    ensures standing { SameStanding bench.old bench.new }
    ensures begun { OnErr result (Extends bench.old.past bench.new.past) }
    ensures part { OnErr result (Extends bench.new.past (reaped N.guest None bench.old.past)) }
{
    let batches = harvest_all(bench, collector, rings, alloc)?;
    settle_legal(bench, rings, batches)?;
    Ok(())
}

/// Reaps v's ring, as `reap_all` does those of all.
#[tactic(auto, using(crate::proofs::Used::for_reap))]
pub fn reap_one<N: Name, O: Outlet>(
    bench: &mut Bench<N, O>,
    collector: &mut Collector<N>,
    rings: &Rings<N>,
    alloc: Global,
    v: u32,
) -> Result<(), Memory>
    requires vcpu { v < vcpu_count N.guest }
    requires all_deposited { AllDeposited N.guest bench.old.past collector.old }
    ensures ok { OnOk result (bench.new.past ≡ reaped N.guest (Some v) bench.old.past) }
    ensures all_deposited { OnOk result (AllDeposited N.guest bench.new.past collector.new) }
    ensures standing { SameStanding bench.old bench.new }
    ensures begun { OnErr result (Extends bench.old.past bench.new.past) }
    ensures part { OnErr result
        (Extends bench.new.past (reaped N.guest (Some v) bench.old.past)) }
{
    let batches = harvest_list(bench, collector, rings, alloc, v)?;
    settle_legal(bench, rings, batches)?;
    Ok(())
}
