//! A collector stays in step where a turn deposits nothing.
ghost use Rattle.std.specs.Prelude.{◌≡◌, ℕ, List, [], ◌∷◌, map, length};
ghost use Rattle.dr_types.specs.declared.guest.Guest.{Guest};
ghost use Rattle.dr_types.specs.Scripts.{vcpu_count};
ghost use Rattle.dr_history.specs.declared.event.Event.{Event};
ghost use Rattle.dr_history.specs.declared.event.Event.TheVariants.{Flushed};
ghost use Rattle.dr_ring.specs.Seats.{UserView};
ghost use Rattle.dr_collector.specs.Collected.{Collected, begun};
ghost use Rattle.dr_turns.specs.Due.{advanced};
ghost use Rattle.dr_turns.specs.Turns.{after_op, after_exit};
ghost use Rattle.dr_reap.specs.Harvests.{AllDeposited};

/// A collector that handed out nothing is in step before anything happened.
pub fn begins_all_deposited()
    ensures { (guest : Guest) (users : List UserView) → length users ≡ vcpu_count guest
        → AllDeposited guest [] (map begun users) }
{}

/// A turn that executes leaves a collector in step.
pub fn op_keeps_all_deposited()
    ensures { (guest : Guest) (v : ℕ) (past : List Event) (collected : List Collected)
        → AllDeposited guest past collected → AllDeposited guest (after_op guest v past) collected }
{}

/// An exit does.
pub fn exit_keeps_all_deposited()
    ensures { (guest : Guest) (v : ℕ) (past : List Event) (collected : List Collected)
        → AllDeposited guest past collected
        → AllDeposited guest (after_exit guest v past) collected }
{}

/// An advance does.
pub fn advance_keeps_all_deposited()
    ensures { (guest : Guest) (now : ℕ) (past : List Event) (collected : List Collected)
        → AllDeposited guest past collected
        → AllDeposited guest (advanced guest now past).1 collected }
{}

/// And a flush does.
pub fn flush_keeps_all_deposited()
    ensures { (guest : Guest) (past : List Event) (collected : List Collected)
        → AllDeposited guest past collected → AllDeposited guest (Flushed ∷ past) collected }
{}
