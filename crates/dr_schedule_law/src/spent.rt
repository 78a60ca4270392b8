//! When the rounds of a migration are spent: what a run that ends by its budget tells of its
//! history.
ghost use Rattle.std.specs.Prelude.{◌≡◌, true, false, List, ◌∷◌};
ghost use Rattle.dr_types.specs.declared.guest.Guest.{Guest};
ghost use Rattle.dr_types.specs.Validity.{IsValid};
ghost use Rattle.dr_history.specs.declared.event.Event.{Event};
ghost use Rattle.dr_history.specs.Legality.{IsLegalSoFar};
ghost use Rattle.dr_history.specs.Protection.{started};
ghost use Rattle.dr_history.specs.Vcpus.{stopped};
ghost use Rattle.dr_turns.specs.declared.answers.RunEnd.TheVariants.{Budget};
ghost use Rattle.dr_turns.specs.Due.{run_end};
ghost use Rattle.dr_schedule_law.specs.Spent.{AreSpent};

/// A run ends by its budget only where each round from 1 to the last that the guest may have was
/// answered with more pages than the threshold, and all of them were copied for it.
pub fn rounds_are_spent()
    ensures { (guest : Guest) (past : List Event) → IsLegalSoFar guest past
        → run_end guest past ≡ Budget → AreSpent guest past }
{}

/// And wherever that is so, the run of a valid guest ends by its budget.
pub fn spent_rounds_end_the_run()
    ensures { (guest : Guest) (past : List Event) → IsValid guest → IsLegalSoFar guest past
        → AreSpent guest past → run_end guest past ≡ Budget }
{}

/// Where the rounds of a valid guest are spent logging began, and the guest isn't stopped: it runs
/// on.
pub fn spent_rounds_run_on()
    ensures begun { (guest : Guest) (past : List Event) → IsValid guest → IsLegalSoFar guest past
        → AreSpent guest past → started past ≡ true }
    ensures running { (guest : Guest) (past : List Event) → IsLegalSoFar guest past
        → AreSpent guest past → stopped past ≡ false }
{}

/// Whatever event follows, rounds that are spent stay so.
pub fn spent_rounds_stay_spent()
    ensures { (guest : Guest) (past : List Event) (e : Event) → AreSpent guest past
        → AreSpent guest (e ∷ past) }
{}
