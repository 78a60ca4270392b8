//! What advances append breaks no rule, and what each of them leaves.
ghost use Rattle.std.specs.Prelude.{◌≡◌, ℕ, true, List, Some};
ghost use Rattle.dr_types.specs.declared.guest.Guest.{Guest};
ghost use Rattle.dr_history.specs.declared.event.Event.{Event};
ghost use Rattle.dr_history.specs.Kinds.{is_synced};
ghost use Rattle.dr_history.specs.Legality.{IsLegalSoFar};
ghost use Rattle.dr_history.specs.Lookback.{since};
ghost use Rattle.dr_history.specs.Rounds.{last_synced, is_least_uncopied};
ghost use Rattle.dr_history_law.specs.Copies.{pages_of};
ghost use Rattle.dr_history_law.specs.Cover.{CoversOpened};
ghost use Rattle.dr_turns.specs.declared.answers.Advance.TheVariants.{Answered};
ghost use Rattle.dr_turns.specs.Between.{AtTurnsEnd};
ghost use Rattle.dr_turns.specs.Due.{advanced, page_to_copy};
ghost use Rattle.dr_turns.specs.Firsts.{first_unreset};
ghost use Rattle.dr_turns_law.specs.Advances.{IsLeastUnreset, SameEntries};

/// What an advance appends breaks no rule.
pub fn advance_breaks_no_rule()
    ensures { (guest : Guest) (now : ℕ) (past : List Event) → IsLegalSoFar guest past
        → AtTurnsEnd guest past → IsLegalSoFar guest (advanced guest now past).1 }
{}

/// After an advance nothing is owed and no buffer is full.
pub fn advance_leaves_turns_end()
    ensures { (guest : Guest) (now : ℕ) (past : List Event) → IsLegalSoFar guest past
        → AtTurnsEnd guest past → AtTurnsEnd guest (advanced guest now past).1 }
{}

/// An advance opens, pushes, deposits and resets no entry.
pub fn advance_leaves_entries()
    ensures { (guest : Guest) (now : ℕ) (past : List Event)
        → SameEntries past (advanced guest now past).1 }
{}

/// The first vCPU with an entry to be reset has the least entry that was opened before the last
/// Asked and isn't reset: the one with the number of the vCPU's resets.
pub fn named_entry_is_least()
    ensures { (guest : Guest) (past : List Event) (v : ℕ) → IsLegalSoFar guest past
        → first_unreset guest past ≡ Some v → IsLeastUnreset guest past v }
{}

/// The page that is left is the least page of the last answer without a Copied since.
pub fn copied_page_is_least()
    ensures { (guest : Guest) (past : List Event) (page : ℕ) → IsLegalSoFar guest past
        → page_to_copy guest past ≡ Some page
        → is_least_uncopied page (pages_of (last_synced past)) (since is_synced past) ≡ true }
{}

/// Where an advance answers a round, each entry that was opened before the round was
/// asked is reset, with a Flushed after its Reset.
pub fn answered_advance_covers_opened()
    ensures { (guest : Guest) (now : ℕ) (past : List Event) (r pages : ℕ)
        → IsLegalSoFar guest past → AtTurnsEnd guest past
        → (advanced guest now past).0 ≡ Answered r pages → CoversOpened past }
{}
