//! What the turns that deposit, reset and flush answer, by the events so far; and that the events
//! that they append break no rule.
ghost use Rattle.std.specs.Prelude.{◌≡◌, ℕ, ◌<◌, true, false, List};
ghost use Rattle.std.specs.List.{list_any};
ghost use Rattle.dr_types.specs.declared.guest.Guest.{Guest};
ghost use Rattle.dr_history.specs.declared.event.Event.{Event};
ghost use Rattle.dr_history.specs.Entries.{opens, pushes, resets};
ghost use Rattle.dr_history.specs.Kinds.{is_switched};
ghost use Rattle.dr_history.specs.Legality.{IsLegalSoFar};
ghost use Rattle.dr_history.specs.Rules.{deposits_entry};
ghost use Rattle.dr_turns.specs.Due.{some_closing};

/// Once the guest has switched over no page is closing.
pub fn closes_before_switch()
    ensures { (guest : Guest) (past : List Event) → IsLegalSoFar guest past
        → some_closing guest past ≡ true → list_any is_switched past ≡ false }
{}

/// Once the guest has switched over each entry that was opened is reset.
pub fn resets_before_switch()
    ensures { (guest : Guest) (past : List Event) (v : ℕ) → IsLegalSoFar guest past
        → resets v past < opens v past → list_any is_switched past ≡ false }
{}

/// Each entry that was reset was deposited before.
pub fn deposits_before_reset()
    ensures { (guest : Guest) (past : List Event) (v k : ℕ) → IsLegalSoFar guest past
        → k < resets v past → list_any (deposits_entry v k) past ≡ true }
{}
