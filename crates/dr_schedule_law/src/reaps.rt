//! What a settling and a reap leave.
ghost use Rattle.std.specs.Prelude.{◌≡◌, ◌<◌, ◌-◌, ℕ, true, Some, None};
ghost use Rattle.std.specs.Prelude.{List, [], ◌∷◌, Option, length, slice_get};
ghost use Rattle.dr_types.specs.declared.guest.Guest.{Guest};
ghost use Rattle.dr_types.specs.Scripts.{vcpu_count};
ghost use Rattle.dr_types.specs.Validity.{IsValid};
ghost use Rattle.dr_history.specs.declared.event.Event.{Event};
ghost use Rattle.dr_history.specs.Entries.{pushes, used};
ghost use Rattle.dr_history.specs.Legality.{IsLegalSoFar};
ghost use Rattle.dr_turns.specs.Between.{AtTurnsEnd};
ghost use Rattle.dr_turns.specs.Due.{advanced};
ghost use Rattle.dr_turns.specs.Turns.{after_op, after_exit};
ghost use Rattle.dr_schedule_law.specs.Reaps.{AreFirstDeposited, AreDepositedUpTo, AreRests};
ghost use Rattle.dr_schedule_law.specs.Reaps.{Extends};
ghost use Rattle.dr_schedule_law.specs.Reaps.{is_reaped, rest_from, starts_after, reaped};
ghost use Rattle.dr_schedule_law.specs.Settled.{Range, Settles, SettlesPart};

/// Where the entries of each vCPU below a number are deposited and no others, a settling of what
/// the vCPUs that are reaped pushed since leaves a reap.
pub fn settling_leaves_reap()
    ensures { (guest : Guest) (whose : Option ℕ)
        (starts : ℕ → ℕ) (rs : List Range) (old new : List Event) (n : ℕ)
        → IsLegalSoFar guest old → AreDepositedUpTo guest starts old
        → AreRests guest whose starts rs old → Settles guest rs old new n
        → new ≡ reaped guest whose old }
{}

/// Such a settling that is cut off leaves a part of that reap.
pub fn cut_settling_leaves_part_of_reap()
    ensures { (guest : Guest) (whose : Option ℕ)
        (starts : ℕ → ℕ) (rs : List Range) (old new : List Event) → IsLegalSoFar guest old
        → AreDepositedUpTo guest starts old → AreRests guest whose starts rs old
        → SettlesPart guest rs old new → Extends new (reaped guest whose old) }
{}

/// One range of each vCPU, in their order, with what it pushed since its number: these are the
/// rests where all are reaped.
pub fn ranges_of_all_rest()
    ensures { (guest : Guest) (starts : ℕ → ℕ) (rs : List Range) (past : List Event)
        → length rs ≡ vcpu_count guest
        → ((v : ℕ) → v < vcpu_count guest → slice_get rs v ≡ Some (rest_from v (starts v) past))
        → AreRests guest None starts rs past }
{}

/// The range of what one vCPU pushed since its number is all that rests where it alone is reaped.
pub fn range_of_one_rests()
    ensures { (guest : Guest) (v : ℕ) (starts : ℕ → ℕ) (past : List Event)
        → AreRests guest (Some v) starts (rest_from v (starts v) past ∷ []) past }
{}

/// After a reap all that was pushed is deposited, of each vCPU that is reaped, and of the others
/// what was.
pub fn reap_deposits_all()
    ensures { (guest : Guest) (whose : Option ℕ) (starts : ℕ → ℕ) (past : List Event)
        → IsLegalSoFar guest past → AreDepositedUpTo guest starts past
        → AreDepositedUpTo guest (starts_after whose starts past) (reaped guest whose past) }
{}

/// After a reap no entry is used of a vCPU that is reaped.
pub fn reap_resets_all()
    ensures { (guest : Guest) (whose : Option ℕ) (starts : ℕ → ℕ) (past : List Event) (v : ℕ)
        → IsLegalSoFar guest past → AreDepositedUpTo guest starts past → v < vcpu_count guest
        → is_reaped whose v ≡ true → used v (reaped guest whose past) ≡ 0 }
{}

/// A reap pushes nothing.
pub fn reap_pushes_nothing()
    ensures { (guest : Guest) (whose : Option ℕ) (past : List Event) (v : ℕ)
        → pushes v (reaped guest whose past) ≡ pushes v past }
{}

/// A reap leaves the events that were.
pub fn reap_extends_events()
    ensures { (guest : Guest) (whose : Option ℕ) (past : List Event)
        → Extends past (reaped guest whose past) }
{}

/// What a vCPU pushed and is not deposited is less than its ring has places.
pub fn rest_fits_ring()
    ensures { (guest : Guest) (past : List Event) (v n : ℕ) → IsValid guest
        → IsLegalSoFar guest past → AtTurnsEnd guest past → AreFirstDeposited v n past
        → pushes v past - n < guest.settings.ring }
{}

/// A turn in which a vCPU executes deposits nothing.
pub fn op_deposits_nothing()
    ensures { (guest : Guest) (starts : ℕ → ℕ) (past : List Event) (v : ℕ)
        → AreDepositedUpTo guest starts past
        → AreDepositedUpTo guest starts (after_op guest v past) }
{}

/// Nor does an exit.
pub fn exit_deposits_nothing()
    ensures { (guest : Guest) (starts : ℕ → ℕ) (past : List Event) (v : ℕ)
        → AreDepositedUpTo guest starts past
        → AreDepositedUpTo guest starts (after_exit guest v past) }
{}

/// Nor does an advance.
pub fn advance_deposits_nothing()
    ensures { (guest : Guest) (starts : ℕ → ℕ) (now : ℕ) (past : List Event)
        → AreDepositedUpTo guest starts past
        → AreDepositedUpTo guest starts (advanced guest now past).1 }
{}
