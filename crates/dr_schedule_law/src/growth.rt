//! Each block makes the events more.
ghost use Rattle.std.specs.Prelude.{◌≡◌, ◌<◌, ℕ, true, false, Some, None, List, Option, is_some};
ghost use Rattle.std.specs.Prelude.{length};
ghost use Rattle.dr_types.specs.declared.guest.Guest.{Guest};
ghost use Rattle.dr_types.specs.Scripts.{vcpu_count, operation};
ghost use Rattle.dr_types.specs.Validity.{IsValid};
ghost use Rattle.dr_history.specs.declared.event.Event.{Event};
ghost use Rattle.dr_history.specs.Execution.{ops};
ghost use Rattle.dr_history.specs.Legality.{IsLegalSoFar};
ghost use Rattle.dr_history.specs.Vcpus.{is_full};
ghost use Rattle.dr_turns.specs.Due.{advanced};
ghost use Rattle.dr_turns.specs.Firsts.{first_kicked, first_unreset};
ghost use Rattle.dr_turns.specs.Turns.{after_op, after_exit};
ghost use Rattle.dr_schedule_law.specs.Reaps.{AreDepositedUpTo, is_reaped, reaped};
ghost use Rattle.dr_schedule_law.specs.Schedule.{appends, exited, reaps_after_full};

/// A turn in which a vCPU executes adds events.
pub fn op_adds_events()
    ensures { (guest : Guest) (past : List Event) (v : ℕ)
        → is_some (operation guest v (ops v past)) ≡ true
        → length past < length (after_op guest v past) }
{}

/// An exit adds events.
pub fn exit_adds_events()
    ensures { (guest : Guest) (past : List Event) (v : ℕ)
        → length past < length (after_exit guest v past) }
{}

/// Where no vCPU is kicked and some entry that was opened before the last Asked is not reset, a
/// reap of all adds events.
pub fn reap_of_unreset_adds_events()
    ensures { (guest : Guest) (starts : ℕ → ℕ) (past : List Event) (v : ℕ)
        → IsLegalSoFar guest past → AreDepositedUpTo guest starts past
        → first_kicked guest past ≡ None
        → first_unreset guest past ≡ Some v → length past < length (reaped guest None past) }
{}

/// A reap of a full ring adds events.
pub fn reap_of_full_adds_events()
    ensures { (guest : Guest) (whose : Option ℕ) (starts : ℕ → ℕ) (past : List Event) (v : ℕ)
        → IsValid guest → IsLegalSoFar guest past → AreDepositedUpTo guest starts past
        → v < vcpu_count guest → is_reaped whose v ≡ true → is_full guest v past ≡ true
        → length past < length (reaped guest whose past) }
{}

/// The reap after an exit with a full ring adds events.
pub fn reap_after_full_adds_events()
    ensures { (guest : Guest) (starts : ℕ → ℕ) (past : List Event) (v : ℕ) → IsValid guest
        → v < vcpu_count guest → is_full guest v past ≡ true
        → IsLegalSoFar guest (exited guest v past)
        → AreDepositedUpTo guest starts (exited guest v past)
        → length (exited guest v past)
        < length (reaped guest (reaps_after_full guest v) (exited guest v past)) }
{}

/// An advance adds events where its answer says so.
pub fn advance_adds_events()
    ensures { (guest : Guest) (now : ℕ) (past : List Event)
        → appends (advanced guest now past).0 ≡ true
        → length past < length (advanced guest now past).1 }
{}

/// And else it adds none.
pub fn advance_leaves_events()
    ensures { (guest : Guest) (now : ℕ) (past : List Event)
        → appends (advanced guest now past).0 ≡ false → (advanced guest now past).1 ≡ past }
{}
