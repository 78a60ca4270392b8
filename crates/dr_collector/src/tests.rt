ghost use Rattle.std.specs.Prelude.{◌≡◌, ℕ, ◌+◌, ◌≤◌, ◌<◌, map, length, All, IfOk, true};
ghost use Rattle.dr_ring_set.specs.Seated.{IfAt};
ghost use Rattle.dr_collector.specs.Batched.{ring_of_note};

use crate::Collector;
use dr_ring::Name;
use dr_ring_set::{Batch, KernelSeats, NoteList, RingParts, RingSet, Rings};
use dr_types::{Entry, Listed, Memory};
use std::alloc::Global;
use std::marker::Brand;
use std::test::Fail;

/// Pushes n entries of v, where no seat has pushed more than `done`.
fn push_some<N: Name>(rings: &Rings<N>, kernels: &mut KernelSeats<N>, v: u32, done: u32, n: u32)
    requires vcpu { v < length N.rings }
    requires room { done + n ≤ rings.now.size }
    requires few { (w : ℕ) → IfAt kernels.old w
        (λ s. (length s.pushed ≤ done) × (s.reset ≡ 0)) }
    ensures { (w : ℕ) → IfAt kernels.new w
        (λ s. (length s.pushed ≤ done + n) × (s.reset ≡ 0)) }
{
    for k in 0..n {
        kernels.push(
            rings,
            v,
            Entry {
                slot: v,
                offset: u64::from(k),
            },
        );
    }
}

/// A note of each kernel seat, in the order of the vCPUs.
fn notes_of<N: Name>(
    alloc: Global,
    rings: &Rings<N>,
    kernels: &mut KernelSeats<N>,
) -> Result<NoteList, Memory>
    ensures of_rings { IfOk result (λ ns. map ring_of_note ns ≡ N.rings) }
    ensures of_kernel { IfOk result (λ ns. All (λ n. n.by_kernel ≡ true) ns) }
{
    let mut notes = Listed::new(alloc);
    for v in 0..rings.vcpus() {
        notes.push(kernels.note(rings, v))?;
    }
    Ok(notes)
}

/// It is a batch of so many entries of v, the first with this number.
fn is_batch<N: Name>(batch: &Batch<N>, v: u32, first: u64, count: usize) -> bool {
    batch.vcpu == v && batch.first == first && batch.entries.len() == count
}

/// Three entries of vCPU 1 come in one batch, none in the next, and a fourth with a note.
fn one_after_the_other<N: Name>(alloc: Global, set: RingSet) -> Result<bool, Memory>
    requires name { N.rings ≡ set.rings }
    requires vcpus { length set.rings ≡ 2 }
    requires size { 4 ≤ set.size }
{
    let RingParts {
        rings,
        mut kernels,
        users,
    } = set.parts::<N>();
    let mut collector = Collector::new(alloc, users)?;
    push_some(&rings, &mut kernels, 1, 0, 3);
    let three = collector.harvest(&rings, alloc, 1, None)?;
    let none = collector.harvest(&rings, alloc, 1, None)?;
    push_some(&rings, &mut kernels, 1, 3, 1);
    let seen = kernels.note(&rings, 1);
    let one = collector.harvest(&rings, alloc, 1, Some(seen))?;
    let said = is_batch(&three, 1, 0, 3) && is_batch(&none, 1, 3, 0) && is_batch(&one, 1, 3, 1);
    Ok(said && collector.handed(1) == 4 && collector.handed(0) == 0 && collector.vcpus() == 2)
}

/// Two entries of vCPU 0 and three of vCPU 1 come in a batch each.
fn all_at_once<N: Name>(alloc: Global, set: RingSet) -> Result<bool, Memory>
    requires name { N.rings ≡ set.rings }
    requires vcpus { length set.rings ≡ 2 }
    requires size { 8 ≤ set.size }
{
    let RingParts {
        rings,
        mut kernels,
        users,
    } = set.parts::<N>();
    let mut collector = Collector::new(alloc, users)?;
    push_some(&rings, &mut kernels, 0, 0, 2);
    push_some(&rings, &mut kernels, 1, 2, 3);
    let seen = notes_of(alloc, &rings, &mut kernels)?;
    let batches = collector.harvest_all(&rings, alloc, seen)?;
    Ok(match batches.as_slice() {
        [zero, one] => is_batch(zero, 0, 0, 2) && is_batch(one, 1, 0, 3),
        _ => false,
    })
}

#[test]
fn batches_of_one_vcpu(rt: HostRuntime) -> Result<(), Fail> {
    let alloc = rt.alloc();
    let set = RingSet::new(alloc, 2, 4)?;
    assert!(rt; one_after_the_other::<Brand>(alloc, set)?);
    Ok(())
}

#[test]
fn batches_of_all_vcpus(rt: HostRuntime) -> Result<(), Fail> {
    let alloc = rt.alloc();
    let set = RingSet::new(alloc, 2, 8)?;
    assert!(rt; all_at_once::<Brand>(alloc, set)?);
    Ok(())
}
