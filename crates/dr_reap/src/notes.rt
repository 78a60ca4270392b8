ghost use Rattle.std.specs.Prelude.{◌≡◌, ◌<◌, length, true, slice_get, Some, IfOk};
ghost use Rattle.dr_types.specs.Scripts.{vcpu_count};
ghost use Rattle.dr_history.specs.Entries.{pushes};
ghost use Rattle.dr_reap.specs.Harvests.{AreNotes};

use dr_bench::Bench;
use dr_io::Outlet;
use dr_ring::{Name, Note};
use dr_ring_set::{NoteList, Rings};
use dr_types::{Listed, Memory};
use std::alloc::Global;

/// A copy of what v's kernel seat knows: all that v pushed.
pub fn note_of<N: Name, O: Outlet>(bench: &mut Bench<N, O>, rings: &Rings<N>, v: u32) -> Note
    requires { v < vcpu_count N.guest }
    ensures stays { bench.new ≡ bench.old }
    ensures of_kernel { result.by_kernel ≡ true }
    ensures named { slice_get N.rings v ≡ Some result.ring }
    ensures pushed { length result.entries ≡ pushes v bench.old.past }
{
    bench.recall_kept();
    bench.note(rings, v)
}

/// A note of each vCPU's kernel seat, in the order of the vCPUs.
#[tactic(auto, using(crate::proofs::Noted::notes_none, crate::proofs::Noted::notes_all))]
pub fn notes_of<N: Name, O: Outlet>(
    bench: &mut Bench<N, O>,
    rings: &Rings<N>,
    alloc: Global,
) -> Result<NoteList, Memory>
    ensures stays { bench.new ≡ bench.old }
    ensures notes { IfOk result (AreNotes N.rings bench.old.past) }
{
    bench.recall_kept();
    let mut notes = Listed::new(alloc);
    for v in 0..rings.vcpus() {
        notes.push(note_of(bench, rings, v))?;
    }
    Ok(notes)
}
