ghost use Rattle.std.specs.Prelude.{◌≡◌, ◌<◌, ◌-◌, ◌≢◌, ℕ, length, Some, None, IfOk};
ghost use Rattle.dr_types.specs.Scripts.{vcpu_count};
ghost use Rattle.dr_reap.specs.Harvests.{AreHarvested, AllDeposited, IsPart, handed_of};
ghost use Rattle.dr_reap.specs.Batches.{range_of_batch, ranges_of};

use crate::notes::{note_of, notes_of};
use dr_bench::Bench;
use dr_collector::Collector;
use dr_io::Outlet;
use dr_ring::Name;
use dr_ring_set::{Batch, BatchList, Rings};
use dr_types::{Listed, Memory};
use std::alloc::Global;

/// Harvests the ring of each vCPU, with the machine's notes.
pub fn harvest_all<N: Name, O: Outlet>(
    bench: &mut Bench<N, O>,
    collector: &mut Collector<N>,
    rings: &Rings<N>,
    alloc: Global,
) -> Result<BatchList<N>, Memory>
    requires { AllDeposited N.guest bench.old.past collector.old }
    ensures stays { bench.new ≡ bench.old }
    ensures seats { length collector.new ≡ vcpu_count N.guest }
    ensures ranges { IfOk result (λ bs. AreHarvested N.guest None (handed_of collector.old)
        (handed_of collector.new) (ranges_of bs)
        bench.old.past) }
{
    bench.recall_kept();
    rings.recall_sizes();
    collector.recall_named();
    // The notes before the harvest: a harvest goes at least as far as they tell. Without them it
    // may stop at a word that it loaded too early, and a page that was pushed long ago is missed.
    let notes = notes_of(bench, rings, alloc)?;
    let batches = collector.harvest_all(rings, alloc, notes);
    collector.recall_named();
    batches
}

/// Harvests v's ring, with the machine's note.
fn harvest_one<N: Name, O: Outlet>(
    bench: &mut Bench<N, O>,
    collector: &mut Collector<N>,
    rings: &Rings<N>,
    alloc: Global,
    v: u32,
) -> Result<Batch<N>, Memory>
    requires vcpu { v < vcpu_count N.guest }
    requires all_deposited { AllDeposited N.guest bench.old.past collector.old }
    ensures stays { bench.new ≡ bench.old }
    ensures seats { length collector.new ≡ vcpu_count N.guest }
    ensures range { IfOk result (λ b. IsPart v bench.old.past collector.old collector.new
        (range_of_batch b)) }
    ensures others { (u : ℕ) → u ≢ v → handed_of collector.new u ≡ handed_of collector.old u }
{
    bench.recall_kept();
    rings.recall_sizes();
    collector.recall_named();
    let note = note_of(bench, rings, v);
    let batch = collector.harvest(rings, alloc, v, Some(note));
    collector.recall_named();
    Ok(batch?)
}

/// The same, as a list of one batch.
pub fn harvest_list<N: Name, O: Outlet>(
    bench: &mut Bench<N, O>,
    collector: &mut Collector<N>,
    rings: &Rings<N>,
    alloc: Global,
    v: u32,
) -> Result<BatchList<N>, Memory>
    requires vcpu { v < vcpu_count N.guest }
    requires all_deposited { AllDeposited N.guest bench.old.past collector.old }
    ensures stays { bench.new ≡ bench.old }
    ensures seats { length collector.new ≡ vcpu_count N.guest }
    ensures ranges { IfOk result (λ bs. AreHarvested N.guest (Some v) (handed_of collector.old)
        (handed_of collector.new) (ranges_of bs)
        bench.old.past) }
{
    let batch = harvest_one(bench, collector, rings, alloc, v)?;
    let mut batches = Listed::new(alloc);
    batches.push(batch)?;
    Ok(batches)
}
