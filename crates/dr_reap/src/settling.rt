ghost use Rattle.std.specs.Prelude.{IfOk, OnErr};
ghost use Rattle.dr_bench.specs.Bench.{SameStanding};
ghost use Rattle.dr_schedule_law.specs.Settled.{Settles, SettlesPart};
ghost use Rattle.dr_reap.specs.Batches.{ranges_of};

use crate::deposits::deposit_all;
use crate::resets::reset_all;
use dr_bench::Bench;
use dr_io::Outlet;
use dr_ring::Name;
use dr_ring_set::{Batch, BatchList, Rings};
use dr_types::Memory;

/// Settles batches that are still in a `Vec`.
#[tactic(auto, using(crate::proofs::Standing::standing_then))]
fn settle_from<N: Name, O: Outlet>(
    bench: &mut Bench<N, O>,
    rings: &Rings<N>,
    batches: &mut Vec<Batch<N>>,
) -> Result<u32, Memory>
    ensures settles { IfOk result
        (Settles N.guest (ranges_of batches.old.items) bench.old.past bench.new.past) }
    ensures standing { SameStanding bench.old bench.new }
    ensures part { OnErr result
        (SettlesPart N.guest (ranges_of batches.old.items) bench.old.past bench.new.past) }
{
    deposit_all(bench, rings, batches)?;
    let count = reset_all(bench, rings)?;
    // One flush, after all resets, as KVM flushes once a call that cleared something. Until it
    // comes a vCPU may still write by its cached permission, so no reset page is dirty or copied
    // before.
    let _some = bench.flush()?;
    Ok(count)
}

/// Deposits each batch that isn't empty in rising vCPU order, those of one vCPU in the order of the
/// list; a batch of which some was deposited before is dropped. Then it resets each vCPU's entries,
/// in rising order, until the next isn't deposited, and flushes where a page is closing. Answers
/// how many entries were reset. After an `Err` some of these turns were made, each whole and in
/// this order, and the batches that weren't deposited are lost.
pub fn settle<N: Name, O: Outlet>(
    bench: &mut Bench<N, O>,
    rings: &Rings<N>,
    batches: BatchList<N>,
) -> Result<u32, Memory>
    ensures settles { IfOk result
        (Settles N.guest (ranges_of batches) bench.old.past bench.new.past) }
    ensures standing { SameStanding bench.old bench.new }
    ensures part { OnErr result
        (SettlesPart N.guest (ranges_of batches) bench.old.past bench.new.past) }
{
    let mut batches = batches.into_vec();
    settle_from(bench, rings, &mut batches)
}
