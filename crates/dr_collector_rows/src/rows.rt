ghost use Rattle.std.specs.Prelude.{◌≡◌, map, length, false};
ghost use Rattle.dr_types.specs.Scripts.{vcpu_count};
ghost use Rattle.dr_types.specs.Validity.{IsValid};
ghost use Rattle.dr_history.specs.Protection.{started};
ghost use Rattle.dr_ring.specs.Seats.{new_user};

use crate::reaps::{deposits_reversed, opens_again};
use crate::threads::two_threads;
use crate::twice::deposits_once;
use dr_collector::Collector;
use dr_machine::{Machine, Rig, new_rig};
use dr_ring::Name;
use dr_ring_set::{Batch, RingSet, Rings};
use dr_types::{Guest, Memory};
use std::alloc::Global;
use std::thread::Threads;

/// What a machine does beside its collector.
#[derive(Clone, Copy, PartialEq)]
pub enum Row {
    Once,
    Reversed,
    Again,
    Threads,
}

/// A row that needs a collector, and a list for the batches.
fn with_batches<N: Name, R: Threads>(
    rt: &R,
    alloc: Global,
    machine: &mut Machine<N>,
    rings: &Rings<N>,
    collector: &mut Collector<N>,
    batches: &mut Vec<Batch<N>>,
    row: Row,
) -> Result<bool, Memory>
    requires { started machine.old.past ≡ false }
{
    machine.recall_kept();
    if rings.vcpus() == 0 {
        return Ok(false);
    }
    match row {
        Row::Reversed => deposits_reversed(alloc, machine, rings, collector, batches),
        Row::Again => opens_again(alloc, machine, rings, collector, batches),
        Row::Threads => two_threads(rt, alloc, machine, rings, collector, batches),
        Row::Once => Ok(false),
    }
}

/// A row with a collector of the rig's user seats.
fn with_collector<N: Name, R: Threads>(
    rt: &R,
    alloc: Global,
    rig: Rig<N>,
    row: Row,
) -> Result<bool, Memory>
    requires fresh { started rig.machine.past ≡ false }
    requires new { rig.users ≡ map new_user N.rings }
{
    let Rig {
        rings,
        mut machine,
        users,
    } = rig;
    match Collector::new(alloc, users) {
        Ok(collector) => {
            let mut collector = collector;
            let mut batches = Vec::new(alloc);
            with_batches(
                rt,
                alloc,
                &mut machine,
                &rings,
                &mut collector,
                &mut batches,
                row,
            )
        }
        Err(memory) => Err(memory),
    }
}

/// A row with the rig's user seats alone.
fn with_users<N: Name>(alloc: Global, rig: Rig<N>) -> Result<bool, Memory>
    requires fresh { started rig.machine.past ≡ false }
    requires new { rig.users ≡ map new_user N.rings }
{
    let mut rig = rig;
    deposits_once(alloc, &mut rig.machine, &rig.rings, &mut rig.users)
}

/// A new machine over new rings, with its collector, does as it should.
pub fn holds<N: Name, R: Threads>(
    rt: &R,
    alloc: Global,
    guest: Guest,
    set: RingSet,
    row: Row,
) -> Result<bool, Memory>
    requires guest { guest ≡ N.guest }
    requires valid { IsValid guest }
    requires set { N.rings ≡ set.rings }
    requires one_each { length set.rings ≡ vcpu_count guest }
    requires size { set.size ≡ guest.settings.ring }
{
    match new_rig::<N>(alloc, guest, set) {
        Ok(rig) => {
            if row == Row::Once {
                with_users(alloc, rig)
            } else {
                with_collector(rt, alloc, rig, row)
            }
        }
        Err(memory) => Err(memory),
    }
}
