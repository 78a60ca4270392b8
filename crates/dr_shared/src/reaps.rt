//! Reaps by a thread. The notes are taken under the machine's lock, the rings are harvested under
//! the collector's lock alone, and what was harvested is settled under the machine's lock.
ghost use Rattle.std.specs.Prelude.{◌≡◌, ◌+◌, ◌<◌, ◌≤◌, ◌⊎◌, map, length, slice_get};
ghost use Rattle.std.specs.Prelude.{All, IfOk, Some, true};
ghost use Rattle.dr_types.specs.Scripts.{vcpu_count};
ghost use Rattle.dr_collector.specs.Batched.{ring_of_note};

use crate::shared::Shared;
use dr_collector::Collector;
use dr_io::{Gate, Outlet, Who};
use dr_reap::{note_of, notes_of, settle};
use dr_ring::{Name, Note};
use dr_ring_set::{BatchList, NoteList, Rings};
use dr_types::{Listed, Memory};
use std::alloc::Global;
use std::sync::Wait;

/// A note of each vCPU's kernel seat.
fn notes<N: Name, O: Outlet, R: Wait>(
    rt: &R,
    shared: &Shared<N, O>,
    alloc: Global,
) -> Result<NoteList, Memory>
    ensures of_rings { IfOk result (λ ns. map ring_of_note ns ≡ N.rings) }
    ensures of_kernel { IfOk result (All (λ n. n.by_kernel ≡ true)) }
{
    let mut bench = shared.bench.lock(rt);
    let notes = notes_of(&mut *bench, shared.rings(), alloc)?;
    Ok(notes)
}

/// The note of v's kernel seat.
fn note<N: Name, O: Outlet, R: Wait>(rt: &R, shared: &Shared<N, O>, v: u32) -> Note
    requires { v < vcpu_count N.guest }
    ensures of_kernel { result.by_kernel ≡ true }
    ensures named { slice_get N.rings v ≡ Some result.ring }
{
    let mut bench = shared.bench.lock(rt);
    note_of(&mut *bench, shared.rings(), v)
}

/// Harvests all rings, and passes the gate before the collector's lock is let go.
fn harvest_all<N: Name, O: Outlet, G: Gate, R: Wait>(
    rt: &R,
    shared: &Shared<N, O>,
    alloc: Global,
    notes: NoteList,
    gate: &G,
    at: u64,
) -> Result<BatchList<N>, Memory>
    requires of_rings { map ring_of_note notes ≡ N.rings }
    requires of_kernel { All (λ n. n.by_kernel ≡ true) notes }
    ensures { IfOk result (λ bs. length bs ≡ length N.rings) }
{
    let mut collector = shared.collector.lock(rt);
    let batches = collector.harvest_all(shared.rings(), alloc, notes);
    gate.pass(Who::Reaper, at);
    batches
}

/// Harvests v's ring, with the collector's lock.
fn harvest_one<N: Name, O: Outlet, R: Wait>(
    rt: &R,
    shared: &Shared<N, O>,
    alloc: Global,
    v: u32,
    note: Note,
) -> Result<BatchList<N>, Memory>
    requires vcpu { v < vcpu_count N.guest }
    requires of_kernel { note.by_kernel ≡ true }
    requires named { slice_get N.rings v ≡ Some note.ring }
    ensures one { IfOk result (λ bs. length bs ≡ 1) }
    ensures vcpu { IfOk result (All (λ b. b.vcpu ≡ v)) }
{
    let mut collector = shared.collector.lock(rt);
    harvest_lent(&mut *collector, shared.rings(), alloc, v, note)
}

/// The same, of a collector that is lent. The batch goes as far as the note tells, or is full.
fn harvest_lent<N: Name>(
    collector: &mut Collector<N>,
    rings: &Rings<N>,
    alloc: Global,
    v: u32,
    note: Note,
) -> Result<BatchList<N>, Memory>
    requires vcpu { v < length N.rings }
    requires of_kernel { note.by_kernel ≡ true }
    requires named { slice_get N.rings v ≡ Some note.ring }
    ensures one { IfOk result (λ bs. length bs ≡ 1) }
    ensures vcpu { IfOk result (All (λ b. b.vcpu ≡ v)) }
    ensures told { IfOk result (All (λ b.
        (length note.entries ≤ b.first + length b.entries)
        ⊎ (length b.entries ≡ rings.now.size))) }
{
    let mut batches = Listed::new(alloc);
    let batch = collector.harvest(rings, alloc, v, Some(note))?;
    batches.push(batch)?;
    Ok(batches)
}

/// Settles what was harvested.
fn settle_batches<N: Name, O: Outlet, R: Wait>(
    rt: &R,
    shared: &Shared<N, O>,
    batches: BatchList<N>,
) -> Result<(), Memory> {
    let mut bench = shared.bench.lock(rt);
    let _count = settle(&mut *bench, shared.rings(), batches)?;
    Ok(())
}

/// Reaps the rings of all vCPUs. The gate is passed after the harvest, under the collector's lock
/// and not the machine's.
pub fn reap_all<N: Name, O: Outlet, G: Gate, R: Wait>(
    rt: &R,
    alloc: Global,
    shared: &Shared<N, O>,
    gate: &G,
    at: u64,
) -> Result<(), Memory> {
    let notes = notes(rt, shared, alloc)?;
    let batches = harvest_all(rt, shared, alloc, notes, gate, at)?;
    settle_batches(rt, shared, batches)
}

/// Reaps v's ring.
pub fn reap_one<N: Name, O: Outlet, R: Wait>(
    rt: &R,
    alloc: Global,
    shared: &Shared<N, O>,
    v: u32,
) -> Result<(), Memory>
    requires { v < vcpu_count N.guest }
{
    let note = note(rt, shared, v);
    let batches = harvest_one(rt, shared, alloc, v, note)?;
    settle_batches(rt, shared, batches)
}
