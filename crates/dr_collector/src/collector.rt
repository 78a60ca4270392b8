ghost use Rattle.std.specs.Prelude.{◌≡◌, ℕ, ◌≤◌, ◌<◌, ◌+◌, ◌⊎◌, [], map, length, drop, slice_get};
ghost use Rattle.std.specs.Prelude.{All, Some, IfSome, IfOk, OnErr, true, is_ok};
ghost use mathlib.Core.List.{IsPrefix};
ghost use Rattle.dr_ring.specs.Seats.{user_note};
ghost use Rattle.dr_ring_set.specs.Seated.{IfAt, HasAt, MovesAt};
ghost use Rattle.dr_collector.specs.Collected.{begun, ring_of, learnt, Harvests, Stops};
ghost use Rattle.dr_collector.specs.Batched.{IsBatchOf, IsKept, IsCutOff, as_batch, ring_of_note};
ghost use Rattle.dr_collector.specs.Pending.{Gathers, HandsOut};

use crate::fills::{batch_of, fill, learn_seen};
use crate::pending::Pending;
use dr_ring::{Name, Note};
use dr_ring_set::{Batch, BatchList, NoteList, Rings, UserSeats};
use dr_types::{Listed, Memory};
use std::alloc::Global;
use std::marker::Model;

/// The user seats of one name, in the order of the vCPUs, each with the entries that it harvested
/// and that went out in no batch. Contracts see the seats, and how many entries of each went out.
#[derive(Drop)]
pub struct Collector<N: Name> {
    users: UserSeats<N>,
    pendings: Vec<Pending>,
}

impl<N: Name> Model for Collector<N> {
    ghost use Rattle.std.specs.Prelude.{List};
    ghost use Rattle.dr_collector.specs.Collected.{Collected};
    ghost use Rattle.dr_collector.specs.Pending.{ArePending, all_collected};

    ghost Value = { List Collected };

    ghost view = { λ c. all_collected c.users c.pendings.items };

    ghost invariant = { λ c. ArePending N.rings c.users c.pendings.items };
}

impl<N: Name> Collector<N> {
    /// A collector of seats that harvested nothing.
    pub fn new(alloc: Global, users: UserSeats<N>) -> Result<Collector<N>, Memory>
        requires { All (λ s. s.harvested ≡ []) users }
        ensures { IfOk result (λ c. c ≡ map begun users) }
    {
        let mut pendings = Vec::new(alloc);
        for _ in 0..users.vcpus() {
            pendings.push(Pending::new(alloc))?;
        }
        users.recall_named();
        Ok(Collector { users, pendings })
    }

    /// The number of vCPUs, each of which has one seat.
    pub fn vcpus(&self) -> u32
        ensures vcpus { result ≡ length self.now }
        ensures named { result ≡ length N.rings }
    {
        self.users.vcpus()
    }

    /// Each seat is of its vCPU's ring, and of none more entries went out than it harvested.
    pub fn recall_named(&self)
        ensures named { map ring_of self.now ≡ N.rings }
        ensures within { All (λ c. c.handed ≤ length c.seat.harvested) self.now }
    {
        let _recall_users = &self.users;
    }

    /// How many entries of v went out in batches. It is the first number of v's next batch.
    pub fn handed(&self, v: u32) -> u64
        requires { v < length N.rings }
        ensures { HasAt self.now v (λ c. result ≡ c.handed) }
    {
        self.pendings[v as usize].handed()
    }

    /// Learns what was seen of v's kernel seat, and harvests into what is pending of v.
    fn gather(&mut self, rings: &Rings<N>, v: u32, seen: Option<Note>) -> Result<(), Memory>
        requires vcpu { v < length N.rings }
        requires of_ring { IfSome seen (λ n. slice_get N.rings v ≡ Some n.ring) }
        requires of_kernel { IfSome seen (λ n. n.by_kernel ≡ true) }
        ensures { MovesAt self.old self.new v
            (λ c d. Gathers rings.now.size seen (is_ok result) c d) }
    {
        rings.recall_sizes();
        learn_seen(&mut self.users, rings, v, seen);
        fill(&mut self.users, &mut self.pendings[v as usize], rings, v)
    }

    /// What is pending of v goes out as a batch, with the note of v's seat.
    fn hand_out(&mut self, rings: &Rings<N>, alloc: Global, v: u32) -> Batch<N>
        requires { v < length N.rings }
        ensures { MovesAt self.old self.new v
            (λ c d. HandsOut v c d (as_batch result.vcpu result.first result.entries result.note)) }
    {
        batch_of(
            &mut self.users,
            &mut self.pendings[v as usize],
            rings,
            alloc,
            v,
        )
    }

    /// A harvest of v with what it makes of v's part, in one piece.
    fn harvest_part(
        &mut self,
        rings: &Rings<N>,
        alloc: Global,
        v: u32,
        seen: Option<Note>,
    ) -> Result<Batch<N>, Memory>
        requires vcpu { v < length N.rings }
        requires of_ring { IfSome seen (λ n. slice_get N.rings v ≡ Some n.ring) }
        requires of_kernel { IfSome seen (λ n. n.by_kernel ≡ true) }
        ensures ok { IfOk result (λ b. MovesAt self.old self.new v
            (λ c d. IsBatchOf rings.now.size v seen c d
            (as_batch b.vcpu b.first b.entries b.note))) }
        ensures err { OnErr result (MovesAt self.old self.new v
            (λ c d. IsKept rings.now.size seen c d)) }
    {
        // What was gathered stays pending where memory is refused, and goes out with the next
        // batch.
        self.gather(rings, v, seen)?;
        Ok(self.hand_out(rings, alloc, v))
    }

    /// Learns what was seen of v's kernel seat, if anything, and harvests v's entries one after the
    /// other, until the next is not dirty or the batch has as many as a ring has places. What was
    /// pending of v stands first in the batch. After an `Err` all that was harvested is pending.
    pub fn harvest(
        &mut self,
        rings: &Rings<N>,
        alloc: Global,
        v: u32,
        seen: Option<Note>,
    ) -> Result<Batch<N>, Memory>
        requires vcpu { v < length N.rings }
        requires of_ring { IfSome seen (λ n. slice_get N.rings v ≡ Some n.ring) }
        requires of_kernel { IfSome seen (λ n. n.by_kernel ≡ true) }
        ensures kept { MovesAt self.old self.new v
            (λ c d. IsPrefix c.seat.harvested d.seat.harvested) }
        ensures vcpu { IfOk result (λ b. b.vcpu ≡ v) }
        ensures first { IfOk result (λ b. HasAt self.old v (λ c. b.first ≡ c.handed)) }
        ensures entries { IfOk result (λ b. HasAt self.new v
            (λ c. b.entries ≡ drop b.first c.seat.harvested)) }
        ensures note { IfOk result (λ b. HasAt self.new v (λ c. b.note ≡ user_note c.seat)) }
        ensures handed { IfOk result (λ _. HasAt self.new v
            (λ c. c.handed ≡ length c.seat.harvested)) }
        ensures most { IfOk result (λ b. length b.entries ≤ rings.now.size) }
        ensures few { IfOk result (λ b. length b.entries < rings.now.size
            → MovesAt self.old self.new v
            (λ c d. Stops rings.now.size (learnt seen c.seat) d.seat)) }
        ensures full { IfOk result (λ b. length b.entries ≡ rings.now.size
            → MovesAt self.old self.new v
            (λ c d. Harvests rings.now.size (learnt seen c.seat) d.seat)) }
        ensures told { IfOk result (λ b. IfSome seen
            (λ n. (length n.entries ≤ b.first + length b.entries)
            ⊎ (length b.entries ≡ rings.now.size))) }
        ensures refused { OnErr result (MovesAt self.old self.new v
            (λ c d. (d.handed ≡ c.handed)
            × Harvests rings.now.size (learnt seen c.seat) d.seat)) }
    {
        self.harvest_part(rings, alloc, v, seen)
    }

    /// One batch of each vCPU, in the order of the vCPUs, each as by `harvest` with its note. After
    /// an `Err` the batches that were made count as handed out.
    pub fn harvest_all(
        &mut self,
        rings: &Rings<N>,
        alloc: Global,
        seen: NoteList,
    ) -> Result<BatchList<N>, Memory>
        requires of_rings { map ring_of_note seen ≡ N.rings }
        requires of_kernel { All (λ n. n.by_kernel ≡ true) seen }
        ensures count { IfOk result (λ bs. length bs ≡ length N.rings) }
        ensures each { IfOk result (λ bs. (v : ℕ) → IfAt bs v (λ b. HasAt seen v (λ n.
            HasAt self.old v (λ c. HasAt self.new v (λ d. IsBatchOf rings.now.size v (Some n) c d
            (as_batch b.vcpu b.first b.entries b.note)))))) }
        ensures cut_off { OnErr result (IsCutOff rings.now.size seen self.old self.new) }
    {
        let vcpus = self.vcpus();
        let mut batches = Vec::with_capacity(alloc, vcpus as usize)?;
        let mut v = 0;
        for note in seen.into_vec() {
            batches.push(self.harvest_part(rings, alloc, v, Some(note))?)?;
            v += 1;
        }
        Ok(Listed::from_vec(batches))
    }
}
