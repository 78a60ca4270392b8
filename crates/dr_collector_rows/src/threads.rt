ghost use Rattle.std.specs.Prelude.{◌≡◌, ◌<◌, length, false};
ghost use Rattle.dr_types.specs.Scripts.{vcpu_count};
ghost use Rattle.dr_history.specs.Protection.{started};

use crate::guests::PAGES;
use crate::past::all_reset;
use crate::reaps::{deposit_last, harvest};
use crate::start::starts;
use dr_collector::Collector;
use dr_machine::Machine;
use dr_ring::Name;
use dr_ring_set::{Batch, Rings};
use dr_types::Memory;
use std::alloc::Global;
use std::thread::{Threads, join};

/// How many rounds of two threads there are.
const ROUNDS: u32 = 150;

/// The most harvests that one thread makes in a round.
const HARVESTS: u32 = 300;

/// Eight resets, and two ops between them.
fn push<N: Name>(machine: &mut Machine<N>, rings: &Rings<N>) -> Result<(), Memory>
    requires { 0 < vcpu_count N.guest }
{
    for turn in 0..8u32 {
        machine.reset_turn(rings, 0)?;
        if turn % 4 == 3 {
            machine.op(rings, 0)?;
        }
    }
    Ok(())
}

/// Harvests until two more entries are out in batches, or the harvests are used up.
fn collect<N: Name>(
    alloc: Global,
    collector: &mut Collector<N>,
    rings: &Rings<N>,
    batches: &mut Vec<Batch<N>>,
) -> Result<(), Memory>
    requires { 0 < length N.rings }
{
    let before = collector.handed(0);
    for _ in 0..HARVESTS {
        harvest(alloc, collector, rings, batches)?;
        if collector.handed(0).saturating_sub(before) >= 2 {
            break;
        }
    }
    Ok(())
}

/// All batches are deposited, the last of them first.
fn deposit_all<N: Name>(
    machine: &mut Machine<N>,
    rings: &Rings<N>,
    batches: &mut Vec<Batch<N>>,
) -> bool {
    let mut all = true;
    for _ in 0..batches.len() {
        let one = deposit_last(machine, rings, batches);
        all = all && one;
    }
    all
}

/// One thread resets and pushes, the other harvests. What is left to harvest comes after; three
/// batches are deposited, the last of them first.
fn round<N: Name, R: Threads>(
    rt: &R,
    alloc: Global,
    machine: &mut Machine<N>,
    rings: &Rings<N>,
    collector: &mut Collector<N>,
    batches: &mut Vec<Batch<N>>,
) -> Result<bool, Memory>
    requires guest { 0 < vcpu_count N.guest }
    requires rings { 0 < length N.rings }
{
    let (pushed, collected) = join(
        rt,
        ||
            requires { 0 < vcpu_count N.guest }
        { push(machine, rings) },
        ||
            requires { 0 < length N.rings }
        { collect(alloc, collector, rings, batches) },
    );
    pushed?;
    collected?;
    harvest(alloc, collector, rings, batches)?;
    if batches.len() < 3 {
        return Ok(true);
    }
    Ok(deposit_all(machine, rings, batches))
}

/// All rounds, and at last the resets of what is left, on one thread.
fn rounds<N: Name, R: Threads>(
    rt: &R,
    alloc: Global,
    machine: &mut Machine<N>,
    rings: &Rings<N>,
    collector: &mut Collector<N>,
    batches: &mut Vec<Batch<N>>,
) -> Result<bool, Memory>
    requires guest { 0 < vcpu_count N.guest }
    requires rings { 0 < length N.rings }
{
    let mut all = true;
    for _ in 0..ROUNDS {
        let deposited = round(rt, alloc, machine, rings, collector, batches)?;
        all = all && deposited;
    }
    let rest = deposit_all(machine, rings, batches);
    push(machine, rings)?;
    Ok(all && rest)
}

/// Two threads share the ring of a vCPU that writes each page once: each entry is pushed, deposited
/// and reset.
pub fn two_threads<N: Name, R: Threads>(
    rt: &R,
    alloc: Global,
    machine: &mut Machine<N>,
    rings: &Rings<N>,
    collector: &mut Collector<N>,
    batches: &mut Vec<Batch<N>>,
) -> Result<bool, Memory>
    requires guest { 0 < vcpu_count N.guest }
    requires rings { 0 < length N.rings }
    requires fresh { started machine.old.past ≡ false }
{
    let begun = starts(machine, rings, 1)?;
    let deposited = rounds(rt, alloc, machine, rings, collector, batches)?;
    let reset = all_reset(machine.history().events(), PAGES);
    let out = machine.all_out();
    Ok(begun && deposited && reset && out)
}
