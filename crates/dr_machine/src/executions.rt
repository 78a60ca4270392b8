ghost use Rattle.std.specs.Prelude.{◌≡◌, ◌<◌, ◌≤◌, max, Some, OnOk, OnErr};
ghost use Rattle.dr_types.specs.Scripts.{operation, vcpu_count};
ghost use Rattle.dr_history.specs.Execution.{ops};
ghost use Rattle.dr_turns.specs.Between.{AtTurnsEnd, MayTurn};
ghost use Rattle.dr_turns.specs.Turns.{after_op, executed};

use crate::seated::SeatedLog;
use dr_log_turns::{execute, make_room};
use dr_ring::Name;
use dr_ring_set::Rings;
use dr_types::{Memory, Op};

impl<N: Name> SeatedLog<N> {
    /// Executes an op, which is the vCPU's next, and leaves room for the pushes of a full buffer.
    /// An `Err` changes neither history nor seats, and comes for want of memory alone.
    fn execute_alone(&mut self, v: u32, op: Op) -> Result<(), Memory>
        requires vcpu { v < vcpu_count N.guest }
        requires turn { MayTurn N.guest self.old.past v }
        requires op { operation N.guest v (ops v self.old.past) ≡ Some op }
        ensures appended { OnOk result (self.new.past ≡ executed N.guest v self.old.past) }
        ensures events { OnOk result (max 1 N.guest.settings.buffer ≤ self.new.room.events) }
        ensures past { OnErr result (self.new.past ≡ self.old.past) }
        ensures seats { self.new.seats ≡ self.old.seats }
    {
        // All memory before the first event: after a refusal the vCPU has executed nothing, so the
        // same op is its next again.
        make_room(&mut self.log, v, op)?;
        execute(&mut self.log, v, op);
        self.log.recall_legal();
        Ok(())
    }

    /// Executes an op, which is the vCPU's next, and pushes its buffer where that is then full. An
    /// `Err` changes neither history nor seats, and comes for want of memory alone.
    #[tactic(auto, using(dr_turns_law::proofs::Ending::op_ends))]
    pub(crate) fn execute(&mut self, rings: &Rings<N>, v: u32, op: Op) -> Result<(), Memory>
        requires vcpu { v < vcpu_count N.guest }
        requires turn { MayTurn N.guest self.old.past v }
        requires op { operation N.guest v (ops v self.old.past) ≡ Some op }
        ensures appended { OnOk result (self.new.past ≡ after_op N.guest v self.old.past) }
        ensures end { OnOk result (AtTurnsEnd N.guest self.new.past) }
        ensures past { OnErr result (self.new.past ≡ self.old.past) }
        ensures seats { OnErr result (self.new.seats ≡ self.old.seats) }
    {
        self.execute_alone(v, op)?;
        self.push_where_full(rings, v);
        Ok(())
    }
}
