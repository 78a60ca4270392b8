ghost use Rattle.std.specs.Prelude.{◌≡◌, ◌<◌, ◌+◌, ◌^◌, [], ◌∷◌, ◌++◌, map};
ghost use Rattle.std.specs.Prelude.{length, slice_get, Some, IfOk, IfSome};
ghost use Rattle.dr_ring.specs.Seats.{new_user};
ghost use Rattle.dr_ring_set.specs.Seated.{IfAt};

use dr_bench::Bench;
use dr_io::Outlet;
use dr_reap::settle;
use dr_ring::Name;
use dr_ring_set::{Batch, BatchList, EntryList, Rings, UserSeats};
use dr_types::{Entry, Listed, Memory};
use std::alloc::Global;
use std::marker::PhantomData;

/// The next entry of v goes after all that v's seat harvested.
fn harvest_next<N: Name>(
    users: &mut UserSeats<N>,
    rings: &Rings<N>,
    v: u32,
    all: &mut EntryList,
) -> Result<Option<Entry>, Memory>
    requires vcpu { v < length N.rings }
    requires all { IfAt users.old v (λ s. s.harvested ≡ all.old) }
    ensures some { IfOk result (λ o. IfSome o (λ e. all.new ≡ all.old ++ e ∷ [])) }
    ensures all { IfOk result (λ o. IfSome o (λ e. IfAt users.new v (λ s. s.harvested ≡ all.new))) }
{
    match users.harvest_next(rings, v) {
        Some(e) => {
            all.push(e)?;
            Ok(Some(e))
        }
        None => Ok(None),
    }
}

/// One entry that v's seat harvested, as a batch after others, with a note of that seat.
fn push_batch<N: Name>(
    users: &mut UserSeats<N>,
    rings: &Rings<N>,
    alloc: Global,
    v: u32,
    first: u32,
    entry: Entry,
    batches: &mut BatchList<N>,
) -> Result<(), Memory>
    requires vcpu { v < length N.rings }
    requires there { IfAt users.old v (λ s. slice_get s.harvested first ≡ Some entry) }
    ensures { users.new ≡ users.old }
{
    let mut entries = Listed::new(alloc);
    entries.push(entry)?;
    let note = users.note(rings, v);
    batches.push(Batch {
        vcpu: v,
        first: u64::from(first),
        entries,
        note,
        name: PhantomData,
    })
}

/// Two entries of vCPU 0 as three batches: the first entry, the first again, and the second.
fn three_batches<N: Name>(
    users: &mut UserSeats<N>,
    rings: &Rings<N>,
    alloc: Global,
    batches: &mut BatchList<N>,
) -> Result<bool, Memory>
    requires vcpu { 0 < length N.rings }
    requires new { IfAt users.old 0 (λ s. s.harvested ≡ []) }
{
    let mut all = Listed::new(alloc);
    let Some(one) = harvest_next(users, rings, 0, &mut all)? else {
        return Ok(false);
    };
    let Some(two) = harvest_next(users, rings, 0, &mut all)? else {
        return Ok(false);
    };
    push_batch(users, rings, alloc, 0, 0, one, batches)?;
    push_batch(users, rings, alloc, 0, 0, one, batches)?;
    push_batch(users, rings, alloc, 0, 1, two, batches)?;
    Ok(true)
}

/// A settling of these batches resets two entries.
pub fn settles_three<N: Name, O: Outlet>(
    bench: &mut Bench<N, O>,
    users: &mut UserSeats<N>,
    rings: &Rings<N>,
    alloc: Global,
) -> bool
    requires { users.old ≡ map new_user N.rings }
{
    if rings.vcpus() == 0 {
        return false;
    }
    let mut batches = Listed::new(alloc);
    match three_batches(users, rings, alloc, &mut batches) {
        Ok(true) => settle(bench, rings, batches) == Ok(2),
        _ => false,
    }
}
