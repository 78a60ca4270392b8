ghost use Rattle.std.specs.Prelude.{◌≡◌, ◌≤◌, ◌<◌, [], length, IfOk};
ghost use Rattle.dr_ring_set.specs.Seated.{IfAt, HasAt};
ghost use Rattle.dr_ring_set.specs.Batches.{StandFrom};

use crate::{Batch, EntryList, KernelSeatList, KernelSeats, RingParts, RingSet, Rings, UserSeats};
use dr_ring::Name;
use dr_types::{Entry, Listed, Memory};
use std::alloc::Global;
use std::marker::{Brand, PhantomData};
use std::test::Fail;

/// The next entry of v's ring as a batch, where a user seat that harvested nothing finds one.
fn batch_of_one<N: Name>(
    alloc: Global,
    rings: &Rings<N>,
    users: &mut UserSeats<N>,
    v: u32,
) -> Result<Option<Batch<N>>, Memory>
    requires vcpu { v < length N.rings }
    requires new { IfAt users.old v (λ s. s.harvested ≡ []) }
{
    let Some(e) = users.harvest_next(rings, v) else {
        return Ok(None);
    };
    let mut entries = Listed::new(alloc);
    entries.push(e)?;
    let note = users.note(rings, v);
    Ok(Some(Batch {
        vcpu: v,
        first: 0,
        entries,
        note,
        name: PhantomData,
    }))
}

/// The kernel seat learns a batch's note: the batch's entries are the pushed ones of its numbers.
fn take_in<N: Name>(rings: &Rings<N>, kernels: &mut KernelSeats<N>, batch: Batch<N>) -> EntryList
    ensures entries { result ≡ batch.entries }
    ensures pushed { HasAt kernels.old batch.vcpu (λ s. StandFrom batch.first result s.pushed) }
{
    let Batch {
        vcpu,
        first: _,
        entries,
        note,
        name: _,
    } = batch;
    kernels.learn(rings, vcpu, note);
    entries
}

/// One entry of vCPU 1 goes through its ring, in a batch, and what the calls of the other vCPU say.
fn through<N: Name>(alloc: Global, set: RingSet, e: Entry) -> Result<bool, Memory>
    requires name { N.rings ≡ set.rings }
    requires vcpus { length set.rings ≡ 2 }
    requires size { 4 ≤ set.size }
{
    let RingParts {
        rings,
        mut kernels,
        mut users,
    } = set.parts::<N>();
    let counts = (rings.vcpus(), users.vcpus(), rings.size());
    kernels.push(&rings, 1, e);
    let used = (kernels.used(0), kernels.used(1));
    let full = (kernels.soft_full(0, 1), kernels.soft_full(1, 1));
    let note = kernels.note(&rings, 1);
    users.learn(&rings, 1, note);
    let Some(batch) = batch_of_one(alloc, &rings, &mut users, 1)? else {
        return Ok(false);
    };
    let some = !batch.is_empty();
    let entries = take_in(&rings, &mut kernels, batch);
    let reset = kernels.reset_next(&rings, 1);
    let seats: KernelSeatList = kernels.into_seats();
    let said = counts == (2, 2, 8) && used == (0, 1) && full == (false, true) && some;
    Ok(said && entries.len() == 1 && reset == Some(e) && seats.len() == 2)
}

#[test]
fn a_name_is_chosen(rt: HostRuntime) -> Result<(), Fail> {
    let alloc = rt.alloc();
    let set = RingSet::new(alloc, 2, 8)?;
    assert!(rt; through::<Brand>(alloc, set, Entry { slot: 3, offset: 2 })?);
    Ok(())
}
