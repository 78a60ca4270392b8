ghost use Rattle.std.specs.Prelude.{◌≡◌, ◌<◌, [], map, length, false, OnOk};
ghost use Rattle.dr_types.specs.Scripts.{vcpu_count};
ghost use Rattle.dr_history.specs.Protection.{started};
ghost use Rattle.dr_ring.specs.Seats.{new_user};
ghost use Rattle.dr_ring_set.specs.Seated.{IfAt};

use crate::reaps::takes;
use crate::start::{all_plain, starts};
use dr_machine::{DepositFault, Machine};
use dr_ring::Name;
use dr_ring_set::{Batch, EntryList, Rings, UserSeats};
use dr_types::{Listed, Memory};
use std::alloc::Global;
use std::marker::PhantomData;

/// Harvests an entry of vCPU v, if there is one, into two lists that are the same.
fn harvest_one<N: Name>(
    users: &mut UserSeats<N>,
    rings: &Rings<N>,
    v: u32,
    one: &mut EntryList,
    other: &mut EntryList,
) -> Result<(), Memory>
    requires vcpu { v < length N.rings }
    requires one { IfAt users.old v (λ s. s.harvested ≡ one.old) }
    requires other { other.old ≡ one.old }
    ensures one { OnOk result (IfAt users.new v (λ s. s.harvested ≡ one.new)) }
    ensures other { OnOk result (other.new ≡ one.new) }
{
    if let Some(e) = users.harvest_next(rings, v) {
        one.push(e)?;
        other.push(e)?;
    }
    Ok(())
}

/// Harvests so many entries of vCPU v, as far as there are any, into two lists that are the same.
fn harvest_some<N: Name>(
    users: &mut UserSeats<N>,
    rings: &Rings<N>,
    v: u32,
    one: &mut EntryList,
    other: &mut EntryList,
    count: u32,
) -> Result<(), Memory>
    requires vcpu { v < length N.rings }
    requires one { IfAt users.old v (λ s. s.harvested ≡ one.old) }
    requires other { other.old ≡ one.old }
    ensures one { OnOk result (IfAt users.new v (λ s. s.harvested ≡ one.new)) }
    ensures other { OnOk result (other.new ≡ one.new) }
{
    for _ in 0..count {
        harvest_one(users, rings, v, one, other)?;
    }
    Ok(())
}

/// All that v's user seat harvested, as a batch with a note of that seat.
fn batch_of_all<N: Name>(
    users: &mut UserSeats<N>,
    rings: &Rings<N>,
    v: u32,
    entries: EntryList,
) -> Batch<N>
    requires vcpu { v < length N.rings }
    requires all { IfAt users.old v (λ s. s.harvested ≡ entries) }
    ensures users { users.new ≡ users.old }
{
    let note = users.note(rings, v);
    let _count = entries.len();
    Batch {
        vcpu: v,
        first: 0,
        entries,
        note,
        name: PhantomData,
    }
}

/// The batch comes back with its first entry, number 0, as one that was deposited before, and with
/// all five.
fn refuses<N: Name>(machine: &mut Machine<N>, rings: &Rings<N>, batch: Batch<N>) -> bool {
    if batch.is_empty() {
        return false;
    }
    match machine.deposit(rings, batch) {
        Err(DepositFault::Twice { batch, k }) => {
            k == 0 && batch.first == 0 && batch.entries.len() == 5
        }
        _ => false,
    }
}

/// The five entries of vCPU 0 that are pushed go out twice, each time with a note of their own: the
/// first batch is deposited, and the second isn't.
fn once_only<N: Name>(
    alloc: Global,
    machine: &mut Machine<N>,
    rings: &Rings<N>,
    users: &mut UserSeats<N>,
) -> Result<bool, Memory>
    requires vcpu { 0 < length N.rings }
    requires none { IfAt users.old 0 (λ s. s.harvested ≡ []) }
{
    let mut one = Listed::new(alloc);
    let mut other = Listed::new(alloc);
    harvest_some(users, rings, 0, &mut one, &mut other, 6)?;
    let first = batch_of_all(users, rings, 0, one);
    let second = batch_of_all(users, rings, 0, other);
    let taken = takes(machine, rings, first);
    let refused = refuses(machine, rings, second);
    Ok(taken && refused)
}

/// After thirteen plain ops, the start and five writes a batch is deposited once.
pub fn deposits_once<N: Name>(
    alloc: Global,
    machine: &mut Machine<N>,
    rings: &Rings<N>,
    users: &mut UserSeats<N>,
) -> Result<bool, Memory>
    requires fresh { started machine.old.past ≡ false }
    requires new { users.old ≡ map new_user N.rings }
{
    machine.recall_kept();
    if rings.vcpus() == 0 {
        return Ok(false);
    }
    let begun = starts(machine, rings, 13)?;
    let written = all_plain(machine, rings, 5)?;
    let once = once_only(alloc, machine, rings, users)?;
    let five = machine.deposited(0) == Some(5);
    Ok(begun && written && once && five)
}
