ghost use Rattle.std.specs.Prelude.{◌≡◌, ◌<◌, ◌≤◌, ◌+◌, true};
ghost use Rattle.dr_types.specs.Scripts.{vcpu_count};
ghost use Rattle.dr_history.specs.Vcpus.{in_guest};
ghost use Rattle.dr_history_law.specs.Room.{unpushed};
ghost use Rattle.dr_turns.specs.Between.{AtTurnsEnd};
ghost use Rattle.dr_turns.specs.Buffers.{all_pushed};
ghost use Rattle.dr_turns.specs.Turns.{after_exit, exit_reason};

use crate::seated::SeatedLog;
use dr_history::Event;
use dr_log_turns::exit_reason;
use dr_ring::Name;
use dr_ring_set::Rings;
use dr_types::Why;

impl<N: Name> SeatedLog<N> {
    /// A vCPU leaves the guest, after its whole buffer.
    #[tactic(auto, using(crate::proofs::Leaving::leaves_here))]
    pub(crate) fn leave(&mut self, rings: &Rings<N>, v: u32) -> Why
        requires vcpu { v < vcpu_count N.guest }
        requires end { AtTurnsEnd N.guest self.old.past }
        requires inside { in_guest v self.old.past ≡ true }
        requires events { unpushed v self.old.past + 1 ≤ self.old.room.events }
        ensures reason { result ≡ exit_reason N.guest v (all_pushed v self.old.past) }
        ensures past { self.new.past ≡ after_exit N.guest v self.old.past }
        ensures end { AtTurnsEnd N.guest self.new.past }
    {
        self.recall_legal();
        // The buffer goes first, as KVM flushes the processor's log at each exit: who harvests
        // after a vCPU left finds all that it wrote in its ring.
        self.push_buffer(rings, v);
        self.log.recall_legal();
        let why = exit_reason(&self.log, v);
        self.log.take(Event::Exited { v, why });
        why
    }
}
