//! The schedule: what each turn leaves of it.
ghost use Rattle.std.specs.Prelude.{◌≡◌, ℕ, true, false, None, List, [], ◌∷◌};
ghost use Rattle.dr_types.specs.declared.guest.Guest.{Guest};
ghost use Rattle.dr_types.specs.Scripts.{operation};
ghost use Rattle.dr_history.specs.declared.event.Event.{Event};
ghost use Rattle.dr_history.specs.declared.event.Event.TheVariants.{Flushed};
ghost use Rattle.dr_history.specs.Execution.{ops, is_halt};
ghost use Rattle.dr_history.specs.Legality.{IsLegalSoFar};
ghost use Rattle.dr_history.specs.Vcpus.{is_full};
ghost use Rattle.dr_turns.specs.declared.answers.Advance.TheVariants as advance;
ghost use Rattle.dr_turns.specs.Due.{advanced};
ghost use Rattle.dr_turns.specs.Turns.{after_op, after_exit};
ghost use Rattle.dr_schedule_law.specs.Reaps.{Extends, reaped};
ghost use Rattle.dr_schedule_law.specs.Schedule.{appends, exited, reaps_after_full, Point};
ghost use Rattle.dr_schedule_law.specs.Schedule.{next_block, Follows, CutAtTurn, IsScheduled};
ghost use Rattle.dr_schedule_law.specs.Schedule.{BeginsSchedule};
ghost use Rattle.dr_schedule_law.specs.Timed.{MayAddTime};

/// Where no block came, the events follow themselves.
pub fn no_block_follows()
    ensures { (guest : Guest) (past : List Event) → Follows guest past past }
{}

/// Blocks after blocks.
pub fn blocks_follow_blocks()
    ensures { (guest : Guest) (first mid last : List Event) → Follows guest first mid
        → Follows guest mid last → Follows guest first last }
{}

/// An advance that adds events is a block.
pub fn advance_follows()
    ensures { (guest : Guest) (now : ℕ) (past : List Event)
        → appends (advanced guest now past).0 ≡ true
        → Follows guest past (advanced guest now past).1 }
{}

/// And any other calls for none.
pub fn any_advance_follows()
    ensures { (guest : Guest) (now : ℕ) (past : List Event)
        → Follows guest past (advanced guest now past).1 }
{}

/// At NotPaced, with room in the ring: an op that is no halt.
pub fn op_follows()
    ensures { (guest : Guest) (now : ℕ) (past : List Event) (v done : ℕ)
        → (advanced guest now past).0 ≡ advance.NotPaced v done → is_full guest v past ≡ false
        → is_halt (operation guest v (ops v past)) ≡ false
        → Follows guest past (after_op guest v past) }
{}

/// At NotPaced, with room in the ring: a halt, and then the exit.
pub fn halt_follows()
    ensures { (guest : Guest) (now : ℕ) (past : List Event) (v done : ℕ)
        → (advanced guest now past).0 ≡ advance.NotPaced v done → is_full guest v past ≡ false
        → is_halt (operation guest v (ops v past)) ≡ true
        → Follows guest past (after_exit guest v (after_op guest v past)) }
{}

/// At NotPaced, with a full ring: the exit, where the vCPU is in the guest, and then the reap.
pub fn reap_after_full_follows()
    ensures { (guest : Guest) (now : ℕ) (past : List Event) (v done : ℕ)
        → (advanced guest now past).0 ≡ advance.NotPaced v done → is_full guest v past ≡ true
        → Follows guest past (reaped guest (reaps_after_full guest v) (exited guest v past)) }
{}

/// At NotOut: the exit.
pub fn exit_follows()
    ensures { (guest : Guest) (now : ℕ) (past : List Event) (v : ℕ) → IsLegalSoFar guest past
        → (advanced guest now past).0 ≡ advance.NotOut v
        → Follows guest past (after_exit guest v past) }
{}

/// At NotReset: the reap of all rings.
pub fn reap_follows()
    ensures { (guest : Guest) (now : ℕ) (past : List Event) (v k : ℕ)
        → (advanced guest now past).0 ≡ advance.NotReset v k
        → Follows guest past (reaped guest None past) }
{}

/// At NotFlushed: the flush.
pub fn flush_follows()
    ensures { (guest : Guest) (now : ℕ) (past : List Event)
        → (advanced guest now past).0 ≡ advance.NotFlushed → Follows guest past (Flushed ∷ past) }
{}

/// From the first event on, blocks that follow are a schedule.
pub fn following_is_scheduled()
    ensures { (guest : Guest) (past : List Event) → Follows guest [] past → IsScheduled guest past }
{}

/// After whole blocks a turn has ended.
pub fn whole_blocks_are_cut_at_turn()
    ensures { (guest : Guest) (first past : List Event) → Follows guest first past
        → CutAtTurn guest first past }
{}

/// And so it has after scheduled events, whatever the last block calls for.
pub fn schedule_is_cut_at_turn()
    ensures { (guest : Guest) (past : List Event) → IsScheduled guest past
        → CutAtTurn guest [] past }
{}

/// Blocks that are cut, after whole ones.
pub fn cut_follows_blocks()
    ensures { (guest : Guest) (first mid last : List Event) → Follows guest first mid
        → CutAtTurn guest mid last → CutAtTurn guest first last }
{}

/// At NotPaced, with room in the ring: the op alone, though it may call for an exit.
pub fn op_alone_ends_turn()
    ensures { (guest : Guest) (now : ℕ) (past : List Event) (v done : ℕ)
        → (advanced guest now past).0 ≡ advance.NotPaced v done → is_full guest v past ≡ false
        → CutAtTurn guest past (after_op guest v past) }
{}

/// At NotPaced, with a full ring: the exit alone, or with some first events of the reap.
pub fn part_of_reap_after_full_ends_turn()
    ensures { (guest : Guest) (now : ℕ) (past new : List Event) (v done : ℕ)
        → (advanced guest now past).0 ≡ advance.NotPaced v done → is_full guest v past ≡ true
        → Extends (exited guest v past) new
        → Extends new (reaped guest (reaps_after_full guest v) (exited guest v past))
        → CutAtTurn guest past new }
{}

/// At NotReset: some first events of the reap of all rings.
pub fn part_of_reap_ends_turn()
    ensures { (guest : Guest) (now : ℕ) (past new : List Event) (v k : ℕ)
        → (advanced guest now past).0 ≡ advance.NotReset v k → Extends past new
        → Extends new (reaped guest None past) → CutAtTurn guest past new }
{}

/// What is cut begins a schedule, from the first event on.
pub fn cut_begins_schedule()
    ensures { (guest : Guest) (past : List Event) → CutAtTurn guest [] past
        → BeginsSchedule guest past }
{}

/// A block names its own time once at most, and no other.
pub fn block_adds_its_time()
    ensures { (guest : Guest) (now : ℕ) (at : Point)
        → MayAddTime now at.past (next_block guest now at).past }
{}
