//! How many events a legal history has at most.
ghost use Rattle.std.specs.Prelude.{◌≤◌, List, length};
ghost use Rattle.dr_types.specs.declared.guest.Guest.{Guest};
ghost use Rattle.dr_history.specs.declared.event.Event.{Event};
ghost use Rattle.dr_history.specs.Legality.{IsLegalSoFar};
ghost use Rattle.dr_schedule_law.specs.Bound.{most_events};

/// A legal history has a bounded number of events, by its guest alone.
pub fn events_are_bounded()
    ensures { (guest : Guest) (past : List Event) → IsLegalSoFar guest past
        → length past ≤ most_events guest }
{}
