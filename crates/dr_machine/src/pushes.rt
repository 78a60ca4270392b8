ghost use Rattle.std.specs.Prelude.{◌≡◌, ◌<◌, ◌≤◌, ◌+◌, ◌∷◌, max, Some};
ghost use Rattle.dr_types.specs.Scripts.{vcpu_count};
ghost use Rattle.dr_history.specs.declared.event.Event.{Event};
ghost use Rattle.dr_history.specs.Entries.{opens, pushes, used};
ghost use Rattle.dr_history_law.specs.Room.{unpushed};
ghost use Rattle.dr_event_law.specs.May.{MayFollow, AtRest};
ghost use Rattle.dr_seat_law.specs.Entries.{entry};
ghost use Rattle.dr_turns.specs.Buffers.{all_pushed, pushed_where_full};

use crate::seated::SeatedLog;
use dr_history::Event;
use dr_log::Log;
use dr_log_turns::full_buffer;
use dr_ring::Name;
use dr_ring_set::Rings;
use dr_slots::Slots;
use dr_types::Entry;

/// An entry that a vCPU opened: where its page lies.
#[tactic(auto, using(crate::proofs::Pushing::is_entry, crate::proofs::Pushing::page_within))]
fn entry(log: &Log, slots: &Slots, v: u32, k: u64) -> Entry
    requires vcpu { v < vcpu_count log.now.guest }
    requires slots { slots.now ≡ log.now.guest.slots }
    requires opened { k < opens v log.now.past }
    ensures { entry log.now.guest v k log.now.past ≡ Some result }
{
    log.recall_legal();
    match log.entry_page(v, k) {
        Some(page) => slots.place(page),
        None => unreachable!(),
    }
}

impl<N: Name> SeatedLog<N> {
    /// How many entries a vCPU's buffer has.
    fn unpushed(&self, v: u32) -> u64
        requires { v < vcpu_count N.guest }
        ensures { result ≡ unpushed v self.now.past }
    {
        self.log.opens(v).saturating_sub(self.log.pushes(v))
    }

    /// Pushes the vCPU's next entry, into its ring and as an event.
    fn push_next(&mut self, rings: &Rings<N>, v: u32)
        requires vcpu { v < vcpu_count N.guest }
        requires opened { pushes v self.old.past < opens v self.old.past }
        requires place { used v self.old.past < N.guest.settings.ring }
        requires follows { MayFollow N.guest self.old.past
            (Event.Pushed v (pushes v self.old.past)) }
        requires events { 1 ≤ self.old.room.events }
        ensures past { self.new.past ≡ Event.Pushed v (pushes v self.old.past) ∷ self.old.past }
        ensures events { self.old.room.events ≤ self.new.room.events + 1 }
    {
        rings.recall_sizes();
        self.log.recall_legal();
        // There is a place: `reserve` and `buffer` keep the soft limit so far below the size that a
        // full buffer fits above it, as KVM reserves entries for the processor's log.
        let k = self.log.pushes(v);
        let entry = entry(&self.log, &self.slots, v, k);
        self.seats.push(rings, v, entry);
        self.log.take(Event::Pushed { v, k });
    }

    /// Pushes a vCPU's whole buffer, in order.
    #[tactic(auto, using(crate::proofs::Used::for_push_buffer))]
    pub(crate) fn push_buffer(&mut self, rings: &Rings<N>, v: u32)
        requires vcpu { v < vcpu_count N.guest }
        requires rest { AtRest N.guest self.old.past }
        requires events { unpushed v self.old.past ≤ self.old.room.events }
        ensures past { self.new.past ≡ all_pushed v self.old.past }
        ensures events { self.old.room.events ≤ self.new.room.events + unpushed v self.old.past }
    {
        let unpushed = self.unpushed(v);
        for n in 0..unpushed {
            self.recall_legal();
            self.push_next(rings, v);
        }
    }

    /// Pushes a vCPU's whole buffer where it is full.
    pub(crate) fn push_where_full(&mut self, rings: &Rings<N>, v: u32)
        requires vcpu { v < vcpu_count N.guest }
        requires rest { AtRest N.guest self.old.past }
        requires events { unpushed v self.old.past ≤ self.old.room.events }
        ensures past { self.new.past ≡ pushed_where_full N.guest v self.old.past }
    {
        let unpushed = self.unpushed(v);
        if full_buffer(self.log.guest()) <= unpushed {
            self.push_buffer(rings, v);
        }
    }
}
