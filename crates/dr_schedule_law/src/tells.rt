//! What each answer of an advance tells.
ghost use Rattle.std.specs.Prelude.{◌≡◌, ℕ, true, false, Some, None, List, [], is_some};
ghost use Rattle.std.specs.Prelude.{if◌then◌else◌};
ghost use Rattle.std.specs.List.{list_any};
ghost use Rattle.dr_types.specs.declared.guest.Guest.{Guest};
ghost use Rattle.dr_types.specs.Pages.{soft_limit};
ghost use Rattle.dr_types.specs.Scripts.{operation};
ghost use Rattle.dr_types.specs.Validity.{IsValid};
ghost use Rattle.dr_history.specs.declared.event.Event.{Event};
ghost use Rattle.dr_history.specs.Entries.{used};
ghost use Rattle.dr_history.specs.Execution.{ops};
ghost use Rattle.dr_history.specs.Kinds.{is_switched};
ghost use Rattle.dr_history.specs.Legality.{IsLegalSoFar};
ghost use Rattle.dr_history.specs.Vcpus.{in_guest, is_full};
ghost use Rattle.dr_turns.specs.declared.answers.Advance.TheVariants as advance;
ghost use Rattle.dr_turns.specs.declared.answers.RunEnd.TheVariants as end;
ghost use Rattle.dr_turns.specs.declared.answers.Turn.TheVariants.{Full};
ghost use Rattle.dr_turns.specs.Due.{advanced, some_closing, run_end};
ghost use Rattle.dr_turns.specs.Turns.{refusal};
ghost use Rattle.dr_schedule_law.specs.Schedule.{Follows};
ghost use Rattle.dr_schedule_law.specs.Waiting.{AwaitsOp, AwaitsExit, AwaitsReset};

/// At NotPaced the vCPU may execute, unless its ring is full.
pub fn not_paced_awaits_op()
    ensures { (guest : Guest) (now : ℕ) (past : List Event) (v done : ℕ)
        → IsLegalSoFar guest past → (advanced guest now past).0 ≡ advance.NotPaced v done
        → AwaitsOp guest past v }
{}

/// A vCPU that is to execute is refused exactly where its ring is full.
pub fn full_alone_refuses()
    ensures { (guest : Guest) (past : List Event) (v : ℕ) → AwaitsOp guest past v
        → refusal guest false v past
        ≡ (if is_full guest v past then Some (Full (used v past) (soft_limit guest)) else None) }
{}

/// A vCPU that is to execute has an op.
pub fn awaited_op_exists()
    ensures { (guest : Guest) (past : List Event) (v : ℕ) → IsValid guest
        → IsLegalSoFar guest past → AwaitsOp guest past v
        → is_some (operation guest v (ops v past)) ≡ true }
{}

/// In a scheduled history of a valid guest, a vCPU that is to execute and whose ring is full is in
/// the guest: an exit with a full ring is always a real one.
pub fn awaited_full_vcpu_is_inside()
    ensures { (guest : Guest) (now : ℕ) (past : List Event) (v done : ℕ) → IsValid guest
        → IsLegalSoFar guest past → Follows guest [] past
        → (advanced guest now past).0 ≡ advance.NotPaced v done → is_full guest v past ≡ true
        → in_guest v past ≡ true }
{}

/// At NotOut the vCPU is kicked and in the guest.
pub fn not_out_awaits_exit()
    ensures { (guest : Guest) (now : ℕ) (past : List Event) (v : ℕ) → IsLegalSoFar guest past
        → (advanced guest now past).0 ≡ advance.NotOut v → AwaitsExit guest past v }
{}

/// At NotReset all vCPUs are out, and the entry is the next of the first vCPU with one to be
/// reset.
pub fn not_reset_awaits_reset()
    ensures { (guest : Guest) (now : ℕ) (past : List Event) (v k : ℕ) → IsLegalSoFar guest past
        → (advanced guest now past).0 ≡ advance.NotReset v k → AwaitsReset guest past v k }
{}

/// At NotFlushed some page is closing.
pub fn not_flushed_awaits_flush()
    ensures { (guest : Guest) (now : ℕ) (past : List Event) → IsLegalSoFar guest past
        → (advanced guest now past).0 ≡ advance.NotFlushed → some_closing guest past ≡ true }
{}

/// At Finished the guest has switched over.
pub fn finished_has_switched()
    ensures { (guest : Guest) (now : ℕ) (past : List Event) → IsLegalSoFar guest past
        → (advanced guest now past).0 ≡ advance.Finished → list_any is_switched past ≡ true }
{}

/// At Budget the run stands there.
pub fn budget_ends_run()
    ensures { (guest : Guest) (now : ℕ) (past : List Event)
        → (advanced guest now past).0 ≡ advance.Budget → run_end guest past ≡ end.Budget }
{}

/// The advance that answers Switched switches over.
pub fn switched_switches()
    ensures { (guest : Guest) (now : ℕ) (past : List Event)
        → (advanced guest now past).0 ≡ advance.Switched
        → list_any is_switched (advanced guest now past).1 ≡ true }
{}
