//! What a harvest does at one vCPU: it learns, harvests into what is pending, and hands that out.
ghost use Rattle.std.specs.Prelude.{◌≡◌, ◌≤◌, ◌<◌, [], length, slice_get, Some, IfSome, true};
ghost use Rattle.std.specs.Prelude.{is_ok};
ghost use Rattle.dr_ring.specs.Seats.{user_note};
ghost use Rattle.dr_ring_set.specs.Seated.{IfAt, HasAt, MovesAt};
ghost use Rattle.dr_collector.specs.Collected.{learnt};
ghost use Rattle.dr_collector.specs.Pending.{Fills, IsPending};

use crate::pending::Pending;
use dr_ring::{Name, Note};
use dr_ring_set::{Batch, Rings, UserSeats};
use dr_types::Memory;
use std::alloc::Global;
use std::marker::PhantomData;

/// v's user seat learns the note, where there is one.
pub(crate) fn learn_seen<N: Name>(
    users: &mut UserSeats<N>,
    rings: &Rings<N>,
    v: u32,
    seen: Option<Note>,
)
    requires vcpu { v < length N.rings }
    requires of_ring { IfSome seen (λ n. slice_get N.rings v ≡ Some n.ring) }
    requires of_kernel { IfSome seen (λ n. n.by_kernel ≡ true) }
    ensures { MovesAt users.old users.new v (λ s t. t ≡ learnt seen s) }
{
    let _recall_seats = users.vcpus();
    if let Some(note) = seen {
        users.learn(rings, v, note);
    }
}

/// Harvests v's entries one after the other into its pending ones, until the next is not dirty or
/// as many are pending as a ring has places. Each finds its room before it is harvested.
#[tactic(auto, using(crate::proofs::Filling::fill_steps))]
pub(crate) fn fill<N: Name>(
    users: &mut UserSeats<N>,
    pending: &mut Pending,
    rings: &Rings<N>,
    v: u32,
) -> Result<(), Memory>
    requires vcpu { v < length N.rings }
    requires most { length pending.old.entries ≤ rings.now.size }
    ensures { MovesAt users.old users.new v
        (λ s t. Fills rings.now.size pending.old pending.new (is_ok result) s t) }
{
    let _recall_seats = users.vcpus();
    while pending.has_place(rings.size()) {
        // Room before the harvest: an entry whose word is marked can't be harvested again.
        pending.make_room()?;
        let Some(e) = users.harvest_next(rings, v) else {
            return Ok(());
        };
        pending.push_kept(e);
    }
    Ok(())
}

/// All that is pending of v goes out as a batch, with the note of v's seat.
#[tactic(auto, using(crate::proofs::Gathering::pending_stands))]
pub(crate) fn batch_of<N: Name>(
    users: &mut UserSeats<N>,
    pending: &mut Pending,
    rings: &Rings<N>,
    alloc: Global,
    v: u32,
) -> Batch<N>
    requires vcpu { v < length N.rings }
    requires pending { HasAt users.old v (λ s. IsPending s pending.old) }
    ensures users { users.new ≡ users.old }
    ensures vcpu { result.vcpu ≡ v }
    ensures first { result.first ≡ pending.old.handed }
    ensures entries { result.entries ≡ pending.old.entries }
    ensures note { HasAt users.old v (λ s. result.note ≡ user_note s) }
    ensures handed { IfAt users.old v (λ s. pending.new.handed ≡ length s.harvested) }
    ensures none { pending.new.entries ≡ [] }
{
    let note = users.note(rings, v);
    let first = pending.handed();
    let harvested = users.harvested(v);
    Batch {
        vcpu: v,
        first,
        entries: pending.hand_out(alloc, harvested),
        note,
        name: PhantomData,
    }
}
