ghost use Rattle.std.specs.Prelude.{◌≡◌, ℕ, ◌<◌, true, false, ◌↔◌, Bool, List, ◌∷◌};
ghost use Rattle.dr_types.specs.declared.guest.Guest.{Guest};
ghost use Rattle.dr_types.specs.declared.guest.Why.{Why};
ghost use Rattle.dr_types.specs.Validity.{IsValid};
ghost use Rattle.dr_history.specs.declared.event.Event.{Event};
ghost use Rattle.dr_history.specs.declared.event.Event.TheVariants.{Start, Exited};
ghost use Rattle.dr_history.specs.Entries.{used};
ghost use Rattle.dr_history.specs.Legality.{IsLegalSoFar};
ghost use Rattle.dr_history.specs.Protection.{started};
ghost use Rattle.dr_history_law.specs.Room.{unpushed};
ghost use Rattle.dr_event_law.specs.May.{AtRest};
ghost use Rattle.dr_turns.specs.declared.answers.Advance.TheVariants.{Budget};
ghost use Rattle.dr_turns.specs.Between.{AtTurnsEnd, MayTurn, OthersFew};
ghost use Rattle.dr_turns.specs.Buffers.{pushed_after, pushed_where_full, all_pushed};
ghost use Rattle.dr_turns.specs.Due.{advanced, is_spent};
ghost use Rattle.dr_turns.specs.Firsts.{first_below};
ghost use Rattle.dr_turns.specs.Least.{IsLeast};
ghost use Rattle.dr_turns.specs.Turns.{after_op};

/// The search for the first vCPU finds the least that passes, or none where none passes.
pub fn search_finds_least()
    ensures { (passes : ℕ → Bool) (n : ℕ) → IsLeast passes n (first_below passes n) }
{}

/// A push never finds its ring full.
pub fn push_finds_place()
    ensures { (guest : Guest) (past : List Event) (v n : ℕ) → IsValid guest
        → IsLegalSoFar guest (pushed_after v n past) → n < unpushed v past
        → used v (pushed_after v n past) < guest.settings.ring }
{}

/// After a turn in which a vCPU executed, nothing is owed and no buffer is full.
pub fn op_leaves_turns_end()
    ensures { (guest : Guest) (past : List Event) (v : ℕ) → MayTurn guest past v
        → AtTurnsEnd guest (after_op guest v past) }
{}

/// Where only one buffer may be full, none is full once that one is pushed where it is.
pub fn push_leaves_turns_end()
    ensures { (guest : Guest) (past : List Event) (v : ℕ) → AtRest guest past
        → OthersFew guest past v → AtTurnsEnd guest (pushed_where_full guest v past) }
{}

/// After an exit nothing is owed and no buffer is full.
pub fn exit_leaves_turns_end()
    ensures { (guest : Guest) (past : List Event) (v : ℕ) (why : Why) → AtRest guest past
        → AtTurnsEnd guest past → AtTurnsEnd guest (Exited v why ∷ all_pushed v past) }
{}

/// After Start nothing is owed and no buffer is full.
pub fn start_leaves_turns_end()
    ensures { (guest : Guest) (past : List Event) (at : ℕ) → IsLegalSoFar guest past
        → AtTurnsEnd guest past → started past ≡ false → AtTurnsEnd guest (Start at ∷ past) }
{}

/// The migrator answers that the budget is spent exactly where all rounds were asked, answered and
/// copied, and the last left too many pages.
pub fn budget_is_spent()
    ensures { (guest : Guest) (now : ℕ) (past : List Event)
        → ((advanced guest now past).0 ≡ Budget) ↔ (is_spent guest past ≡ true) }
{}
