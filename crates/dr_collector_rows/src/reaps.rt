ghost use Rattle.std.specs.Prelude.{◌≡◌, ◌<◌, length, false};
ghost use Rattle.dr_types.specs.Scripts.{vcpu_count};
ghost use Rattle.dr_history.specs.Protection.{started};

use crate::past::ends_with;
use crate::start::{all_plain, starts};
use dr_collector::Collector;
use dr_machine::Machine;
use dr_ring::Name;
use dr_ring_set::{Batch, Rings};
use dr_types::Memory;
use std::alloc::Global;

/// Two deposits in falling order, and the resets in rising order.
const TEN_RESETS: &str = "d 0 5 10
d 0 0 5
z 0 0
z 0 1
z 0 2
z 0 3
z 0 4
z 0 5
z 0 6
z 0 7
z 0 8
z 0 9
flush
";

/// Two writes of a page open one entry; after its reset and a flush the third opens another.
const ONCE_AND_AGAIN: &str = "start 7
o 0 0 0
w 0 1 0 01
p 0 0
w 0 2 0 02
d 0 0 1
z 0 0
flush
o 0 1 0
w 0 3 0 03
p 0 1
";

/// What is harvested of vCPU 0 comes after the batches, where there is any.
pub fn harvest<N: Name>(
    alloc: Global,
    collector: &mut Collector<N>,
    rings: &Rings<N>,
    batches: &mut Vec<Batch<N>>,
) -> Result<(), Memory>
    requires { 0 < length N.rings }
{
    let batch = collector.harvest(rings, alloc, 0, None)?;
    if !batch.is_empty() {
        batches.push(batch)?;
    }
    Ok(())
}

/// The batch is deposited.
pub fn takes<N: Name>(machine: &mut Machine<N>, rings: &Rings<N>, batch: Batch<N>) -> bool {
    if batch.is_empty() {
        return false;
    }
    match machine.deposit(rings, batch) {
        Ok(()) => true,
        Err(_) => false,
    }
}

/// The last of the batches is deposited.
pub fn deposit_last<N: Name>(
    machine: &mut Machine<N>,
    rings: &Rings<N>,
    batches: &mut Vec<Batch<N>>,
) -> bool {
    match batches.pop() {
        Some(batch) => takes(machine, rings, batch),
        None => false,
    }
}

/// So many resets of vCPU 0's next entry each reset one, and the next resets none.
fn resets<N: Name>(machine: &mut Machine<N>, rings: &Rings<N>, count: u32) -> Result<bool, Memory>
    requires { 0 < vcpu_count N.guest }
{
    let mut all = true;
    for _ in 0..count {
        let one = machine.reset_turn(rings, 0)?;
        all = all && one == 1;
    }
    let none = machine.reset_turn(rings, 0)?;
    Ok(all && none == 0)
}

/// Five writes of vCPU 0, and what they pushed, as a batch.
fn writes<N: Name>(
    alloc: Global,
    machine: &mut Machine<N>,
    rings: &Rings<N>,
    collector: &mut Collector<N>,
    batches: &mut Vec<Batch<N>>,
) -> Result<bool, Memory>
    requires guest { 0 < vcpu_count N.guest }
    requires rings { 0 < length N.rings }
{
    let plain = all_plain(machine, rings, 5)?;
    harvest(alloc, collector, rings, batches)?;
    Ok(plain)
}

/// After the batch of the entries 5 to 9 none is reset, after that of 0 to 4 all ten.
fn resets_in_order<N: Name>(
    machine: &mut Machine<N>,
    rings: &Rings<N>,
    batches: &mut Vec<Batch<N>>,
) -> Result<bool, Memory>
    requires { 0 < vcpu_count N.guest }
{
    let last = deposit_last(machine, rings, batches);
    let gap = machine.deposited(0) == None;
    let none = resets(machine, rings, 0)?;
    let first = deposit_last(machine, rings, batches);
    let ten = machine.deposited(0) == Some(10);
    let reset = resets(machine, rings, 10)?;
    let flushed = machine.flush()?;
    let again = machine.flush()?;
    Ok(last && gap && none && first && ten && reset && flushed && !again)
}

/// Two batches are deposited in falling order, and their entries are reset in rising order.
pub fn deposits_reversed<N: Name>(
    alloc: Global,
    machine: &mut Machine<N>,
    rings: &Rings<N>,
    collector: &mut Collector<N>,
    batches: &mut Vec<Batch<N>>,
) -> Result<bool, Memory>
    requires guest { 0 < vcpu_count N.guest }
    requires rings { 0 < length N.rings }
    requires fresh { started machine.old.past ≡ false }
{
    let begun = starts(machine, rings, 13)?;
    let first = writes(alloc, machine, rings, collector, batches)?;
    let second = writes(alloc, machine, rings, collector, batches)?;
    let reset = resets_in_order(machine, rings, batches)?;
    let ended = ends_with(alloc, machine, TEN_RESETS)?;
    Ok(begun && first && second && reset && ended)
}

/// The one entry that was pushed is harvested, deposited and reset, and the flush drops its page.
fn reaps_one<N: Name>(
    alloc: Global,
    machine: &mut Machine<N>,
    rings: &Rings<N>,
    collector: &mut Collector<N>,
    batches: &mut Vec<Batch<N>>,
) -> Result<bool, Memory>
    requires guest { 0 < vcpu_count N.guest }
    requires rings { 0 < length N.rings }
{
    harvest(alloc, collector, rings, batches)?;
    let deposited = deposit_last(machine, rings, batches);
    let reset = resets(machine, rings, 1)?;
    let flushed = machine.flush()?;
    Ok(deposited && reset && flushed)
}

/// A page that is written twice opens one entry, and after its reset and a flush another.
pub fn opens_again<N: Name>(
    alloc: Global,
    machine: &mut Machine<N>,
    rings: &Rings<N>,
    collector: &mut Collector<N>,
    batches: &mut Vec<Batch<N>>,
) -> Result<bool, Memory>
    requires guest { 0 < vcpu_count N.guest }
    requires rings { 0 < length N.rings }
    requires fresh { started machine.old.past ≡ false }
{
    let begun = starts(machine, rings, 1)?;
    let twice = all_plain(machine, rings, 2)?;
    let reaped = reaps_one(alloc, machine, rings, collector, batches)?;
    let again = all_plain(machine, rings, 1)?;
    let ended = ends_with(alloc, machine, ONCE_AND_AGAIN)?;
    Ok(begun && twice && reaped && again && ended)
}
