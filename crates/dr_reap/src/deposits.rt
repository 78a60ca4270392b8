ghost use Rattle.std.specs.Prelude.{◌≡◌, ◌<◌, ◌==◌, ℕ, [], ◌∷◌, false};
ghost use Rattle.std.specs.Prelude.{length, None, IfSome, OnOk, OnErr};
ghost use Rattle.dr_types.specs.Scripts.{vcpu_count};
ghost use Rattle.dr_bench.specs.Bench.{SameStanding};
ghost use Rattle.dr_schedule_law.specs.Settled.{of_vcpu, in_order, deposited_one};
ghost use Rattle.dr_schedule_law.specs.Settled.{deposited_all, DepositsPart, IsFresh};
ghost use Rattle.dr_reap.specs.Batches.{range_of_batch, ranges_of};

use dr_bench::Bench;
use dr_io::Outlet;
use dr_machine::DepositFault;
use dr_ring::Name;
use dr_ring_set::{Batch, Rings};
use dr_types::Memory;

/// Takes the first batch of a vCPU out of a list.
pub fn take_first<N: Name>(batches: &mut Vec<Batch<N>>, v: u32) -> Option<Batch<N>>
    ensures some { let old = ranges_of batches.old.items in
        let new = ranges_of batches.new.items in
        IfSome result (λ b. of_vcpu v old
        ≡ range_of_batch b ∷ of_vcpu v new) }
    ensures fewer { IfSome result (λ b. length batches.new.items < length batches.old.items) }
    ensures others { let old = ranges_of batches.old.items in
        let new = ranges_of batches.new.items in
        (w : ℕ) → (w == v) ≡ false → of_vcpu w new ≡ of_vcpu w old }
    ensures none { let old = ranges_of batches.old.items in
        result ≡ None → of_vcpu v old ≡ [] }
{
    for i in 0..batches.len() {
        if batches[i].vcpu == v {
            return Some(batches.remove(i));
        }
    }
    None
}

/// Deposits a batch that isn't empty. Where some of it was deposited before it is dropped.
pub fn deposit_one<N: Name, O: Outlet>(
    bench: &mut Bench<N, O>,
    rings: &Rings<N>,
    batch: Batch<N>,
) -> Result<(), Memory>
    ensures past { let range = range_of_batch batch in
        OnOk result (bench.new.past ≡ deposited_one range bench.old.past) }
    ensures standing { SameStanding bench.old bench.new }
    ensures err { OnErr result (bench.new ≡ bench.old) }
    ensures fresh { let range = range_of_batch batch in
        OnErr result (IsFresh range bench.old.past) }
{
    if batch.is_empty() {
        return Ok(());
    }
    match bench.deposit(rings, batch) {
        Ok(()) => Ok(()),
        Err(DepositFault::Twice { batch: _, k: _ }) => Ok(()),
        Err(DepositFault::Memory { batch: _ }) => Err(Memory),
    }
}

/// Deposits a vCPU's batches in their order, and takes them out of the list.
#[tactic(auto, using(crate::proofs::Used::for_deposit_of))]
pub fn deposit_of<N: Name, O: Outlet>(
    bench: &mut Bench<N, O>,
    rings: &Rings<N>,
    batches: &mut Vec<Batch<N>>,
    v: u32,
) -> Result<(), Memory>
    ensures past { let old = ranges_of batches.old.items in
        OnOk result (bench.new.past ≡ deposited_all (of_vcpu v old) bench.old.past) }
    ensures others { let old = ranges_of batches.old.items in
        let new = ranges_of batches.new.items in
        (w : ℕ) → (w == v) ≡ false → of_vcpu w new ≡ of_vcpu w old }
    ensures standing { SameStanding bench.old bench.new }
    ensures part { let old = ranges_of batches.old.items in
        OnErr result (DepositsPart (of_vcpu v old) bench.old.past bench.new.past) }
{
    while let Some(batch) = take_first(batches, v) {
        deposit_one(bench, rings, batch)?;
    }
    Ok(())
}

/// Deposits batches in rising vCPU order, those of one vCPU in their order.
#[tactic(auto, using(crate::proofs::Used::for_deposit_all))]
pub fn deposit_all<N: Name, O: Outlet>(
    bench: &mut Bench<N, O>,
    rings: &Rings<N>,
    batches: &mut Vec<Batch<N>>,
) -> Result<(), Memory>
    ensures past { let old = ranges_of batches.old.items in
        OnOk result
        (bench.new.past ≡ deposited_all (in_order (vcpu_count N.guest) old) bench.old.past) }
    ensures standing { SameStanding bench.old bench.new }
    ensures part { let old = ranges_of batches.old.items in
        OnErr result
        (DepositsPart (in_order (vcpu_count N.guest) old) bench.old.past bench.new.past) }
{
    bench.recall_kept();
    for v in 0..rings.vcpus() {
        deposit_of(bench, rings, batches, v)?;
    }
    Ok(())
}
