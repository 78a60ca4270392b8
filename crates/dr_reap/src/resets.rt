ghost use Rattle.std.specs.Prelude.{◌≡◌, ◌<◌, ◌≤◌, ◌∷◌, true, false, IfOk};
ghost use Rattle.std.specs.Prelude.{OnErr};
ghost use Rattle.dr_types.specs.Scripts.{vcpu_count};
ghost use Rattle.dr_history.specs.declared.event.Event.{Event};
ghost use Rattle.dr_history.specs.Entries.{resets};
ghost use Rattle.dr_turns_law.specs.Deposits.{next_deposited};
ghost use Rattle.dr_bench.specs.Bench.{SameStanding};
ghost use Rattle.dr_schedule_law.specs.Settled.{ResetsAll, ResetsBelow, ResetsPart, ResetsSome};

use dr_bench::Bench;
use dr_io::Outlet;
use dr_ring::Name;
use dr_ring_set::Rings;
use dr_types::Memory;

/// A vCPU has reset no more entries than all scripts have ops, and one.
fn recall_few<N: Name, O: Outlet>(bench: &Bench<N, O>, v: u32)
    ensures few { resets v bench.now.past ≤ 200001 }
    ensures vcpus { vcpu_count N.guest ≤ 32 }
{
    let _recall_guest = bench.guest();
    bench.recall_kept();
}

/// Resets a vCPU's next entry, where that is deposited, and answers whether it was.
fn reset_one<N: Name, O: Outlet>(
    bench: &mut Bench<N, O>,
    rings: &Rings<N>,
    v: u32,
) -> Result<bool, Memory>
    requires { v < vcpu_count N.guest }
    ensures due { IfOk result (λ some. some ≡ next_deposited v bench.old.past) }
    ensures reset { IfOk result (λ some. some ≡ true
        → bench.new.past ≡ Event.Reset v (resets v bench.old.past) ∷ bench.old.past) }
    ensures none { IfOk result (λ some. some ≡ false → bench.new.past ≡ bench.old.past) }
    ensures few { resets v bench.new.past ≤ 200001 }
    ensures standing { SameStanding bench.old bench.new }
    ensures err { OnErr result (bench.new ≡ bench.old) }
    ensures needed { OnErr result (next_deposited v bench.old.past ≡ true) }
{
    let count = bench.reset_turn(rings, v);
    recall_few(bench, v);
    Ok(count? == 1)
}

/// Resets a vCPU's entries until the next isn't deposited, and answers how many.
#[tactic(auto, using(crate::proofs::Used::for_reset_of))]
fn reset_of<N: Name, O: Outlet>(
    bench: &mut Bench<N, O>,
    rings: &Rings<N>,
    v: u32,
) -> Result<u32, Memory>
    requires { v < vcpu_count N.guest }
    ensures all { IfOk result (λ n. ResetsAll v bench.old.past bench.new.past n) }
    ensures few { IfOk result (λ n. n ≤ 200001) }
    ensures standing { SameStanding bench.old bench.new }
    ensures part { OnErr result (ResetsSome v bench.old.past bench.new.past) }
{
    recall_few(bench, v);
    let mut count = 0;
    while reset_one(bench, rings, v)? {
        count += 1;
    }
    Ok(count)
}

/// Resets each vCPU's entries, in rising vCPU order, until its next isn't deposited, and answers
/// how many entries.
#[tactic(auto, using(crate::proofs::Used::for_reset_all))]
pub fn reset_all<N: Name, O: Outlet>(
    bench: &mut Bench<N, O>,
    rings: &Rings<N>,
) -> Result<u32, Memory>
    ensures all { IfOk result
        (λ n. ResetsBelow (vcpu_count N.guest) bench.old.past bench.new.past n) }
    ensures standing { SameStanding bench.old bench.new }
    ensures part { OnErr result
        (ResetsPart (vcpu_count N.guest) bench.old.past bench.new.past) }
{
    recall_few(bench, 0);
    bench.recall_kept();
    let mut total = 0;
    for v in 0..rings.vcpus() {
        total += reset_of(bench, rings, v)?;
    }
    Ok(total)
}
