//! What holds of every legal history.
#![tactic(auto)]

ghost use Rattle.std.specs.Prelude.{◌≡◌, ℕ, List, ◌∷◌, ◌++◌, Some, true, ◌||◌, ◌&&◌, ◌<◌, nat_le};
ghost use Rattle.std.specs.Prelude.{is_some, IfSome, length, if◌then◌else◌};
ghost use Rattle.std.specs.List.{slice_get, list_any, list_all};
ghost use Rattle.dr_types.specs.Pages.{page_count};
ghost use Rattle.dr_types.specs.Scripts.{vcpu_count};
ghost use Rattle.dr_history.specs.Lookback.{since, before, below, is_number};
ghost use Rattle.dr_history.specs.Kinds.{is_synced, is_asked};
ghost use Rattle.dr_history.specs.Entries.{opens, resets, page_of_entry};
ghost use Rattle.dr_history.specs.Rounds.{is_reset_in, copied_in, last_synced, is_least_uncopied};
ghost use Rattle.dr_history.specs.Rules.{deposits_some, deposits_entry, vcpu_of_op};
ghost use Rattle.dr_history_law.specs.Copies.{copies, pages_of};
ghost use Rattle.dr_types.specs.declared.guest.Guest.{Guest};
ghost use Rattle.dr_history.specs.declared.event.Event.{Event};
ghost use Rattle.dr_history.specs.declared.event.Event.TheVariants.{Opened, Reset, Synced, Stopped};
ghost use Rattle.dr_history.specs.Protection.{started, cached, writable, closing};
ghost use Rattle.dr_history_law.specs.Outstanding.{outstanding, LastForPage};
ghost use Rattle.dr_history_law.specs.Cover.{CoversOpened};
ghost use Rattle.dr_history_law.specs.First.{NoneIsLegal, SomeIsFirst};
ghost use Rattle.dr_history_law.specs.Unsent.{UnsentIsWritten};
ghost use Rattle.dr_history_law.specs.Agreement.{AgreeOrOwed, UncopiedIsOwed};
ghost use Rattle.dr_history_law.specs.Stop.{NoWriteFollows, MemoryStays, OpensLast};
ghost use Rattle.dr_history_law.specs.Switch.{SettlesAtStop, LeftIsDirty, SameAtSwitch};
ghost use Rattle.dr_history_law.specs.Answer.{AnswersExactly, UnsentIsOwed, AnswersUnsent};
ghost use Rattle.dr_history_law.specs.Answer.{AnswersWritten};
ghost use Rattle.dr_history_law.specs.Order.{InOrder, WasHarvested};
ghost use Rattle.dr_history_law.specs.Execution.{ExecutesInOrder, Performs};
ghost use Rattle.dr_history_law.specs.Length.{StaysInScript};
ghost use Rattle.dr_history_law.specs.Room.{StaysInRoom, RoomInRing, FindsRoom, FitsRing};
ghost use Rattle.dr_history_law.specs.Limits.{FitsLimits, FitsRate, FitsThrottle};
ghost use Rattle.dr_history.specs.Throttles.{throttle};
ghost use Rattle.dr_history.specs.Legality.{IsLegalSoFar, IsLegal, first_broken};

/// A page that is cached for a vCPU is writable or closing.
pub fn cached_is_writable_or_closing()
    ensures { (guest : Guest) (past : List Event) (v page : ℕ) → IsLegalSoFar guest past
        → cached v page past ≡ true → (writable page past || closing page past) ≡ true }
{}

/// After Start a page is writable exactly where one entry of it is outstanding, and no more than
/// one is.
pub fn writable_where_outstanding()
    ensures { (guest : Guest) (past : List Event) (page : ℕ) → IsLegalSoFar guest past
        → started past ≡ true → outstanding page past ≡ (if writable page past then 1 else 0) }
{}

/// After Start, memory and the destination agree on a page, or it is dirty, closing or writable.
pub fn agree_or_owed()
    ensures { (guest : Guest) (past : List Event) → IsLegalSoFar guest past
        → AgreeOrOwed guest past }
{}

/// A page with a write and no copy since is dirty, closing or writable.
pub fn uncopied_is_owed()
    ensures { (guest : Guest) (past : List Event) → IsLegalSoFar guest past
        → UncopiedIsOwed guest past }
{}

/// No write follows Stopped.
pub fn no_write_follows_stop()
    ensures { (guest : Guest) (past : List Event) → IsLegalSoFar guest past → NoWriteFollows past }
{}

/// Memory stays what it was at Stopped.
pub fn memory_stays_at_stop()
    ensures { (guest : Guest) (later earlier : List Event)
        → IsLegalSoFar guest (later ++ Stopped ∷ earlier) → MemoryStays guest later earlier }
{}

/// After Stopped an Opened comes only as the last event.
pub fn opened_ends_stopped()
    ensures { (guest : Guest) (e : Event) (earlier : List Event) → IsLegalSoFar guest (e ∷ earlier)
        → OpensLast e earlier }
{}

/// A page of the last answer without its copy is dirty.
pub fn left_is_dirty()
    ensures { (guest : Guest) (past : List Event) → IsLegalSoFar guest past → LeftIsDirty past }
{}

/// After the answer that follows the stop no page is writable or closing, and the dirty ones are
/// those left to copy.
pub fn settles_at_stop()
    ensures { (guest : Guest) (past : List Event) → IsLegalSoFar guest past
        → SettlesAtStop guest past }
{}

/// At the switch-over memory and the destination are the same.
pub fn same_at_switch()
    ensures { (guest : Guest) (past : List Event) → IsLegalSoFar guest past
        → SameAtSwitch guest past }
{}

/// While an Asked has no answer, an unsent page is dirty, closing or has an outstanding entry that
/// was opened before it.
pub fn unsent_is_owed()
    ensures { (guest : Guest) (past : List Event) → IsLegalSoFar guest past
        → UnsentIsOwed guest past }
{}

/// An answer has exactly the pages that are dirty there, rising.
pub fn answers_exactly()
    ensures { (guest : Guest) (later earlier : List Event) (r at : ℕ) (pages : List ℕ)
        → IsLegalSoFar guest (later ++ Synced r at pages ∷ earlier)
        → AnswersExactly guest earlier pages }
{}

/// An answer has each page that is unsent up to its Asked.
pub fn answers_unsent()
    ensures { (guest : Guest) (past : List Event) (r at : ℕ) (pages : List ℕ)
        → IsLegalSoFar guest (Synced r at pages ∷ past) → AnswersUnsent guest past pages }
{}

/// A page that was written before the Asked of an answer, and not copied between the write and the
/// answer, is in the answer.
pub fn answers_written()
    ensures { (guest : Guest) (after : List Event) (r at : ℕ) (pages : List ℕ)
        (later between : List Event) (write : Event) (earlier : List Event)
        → AnswersWritten guest after r at pages later between write earlier }
{}

/// No more is reset than pushed, no more pushed than opened, and no more opened than written, but
/// for one write that is owed.
pub fn opens_in_order()
    ensures { (guest : Guest) (past : List Event) (v : ℕ) → IsLegalSoFar guest past
        → InOrder v past }
{}

/// An entry is reset, and its page protected again, only after it was deposited, so harvested.
pub fn resets_follow_harvest()
    ensures { (guest : Guest) (later earlier : List Event) (v k : ℕ)
        → IsLegalSoFar guest (later ++ Reset v k ∷ earlier) → WasHarvested v k earlier }
{}

/// A vCPU executes its operations each once, in their order.
pub fn executes_in_order()
    ensures { (guest : Guest) (past : List Event) (v : ℕ) → IsLegalSoFar guest past
        → ExecutesInOrder v past }
{}

/// A vCPU's operation is the next one of its script, with its address, bytes, register and value.
pub fn executes_its_script()
    ensures { (guest : Guest) (later : List Event) (e : Event) (earlier : List Event) (v : ℕ)
        → IsLegalSoFar guest (later ++ e ∷ earlier) → vcpu_of_op e ≡ Some v
        → Performs guest earlier v e }
{}

/// A vCPU executes no more operations than its script has.
pub fn stays_in_script()
    ensures { (guest : Guest) (past : List Event) → IsLegalSoFar guest past
        → StaysInScript guest past }
{}

/// But directly after an Opened, the entries used and those unpushed are no more than the room.
pub fn stays_in_room()
    ensures { (guest : Guest) (past : List Event) → IsLegalSoFar guest past
        → StaysInRoom guest past }
{}

/// The room is no more than the ring without its reserve.
pub fn room_in_ring()
    ensures { (guest : Guest) → FitsRing guest → RoomInRing guest }
{}

/// An entry that was opened finds room in the ring.
pub fn finds_room()
    ensures { (guest : Guest) (past : List Event) → FitsRing guest → IsLegalSoFar guest past
        → FindsRoom guest past }
{}

/// At each answer the entries of a rate and the rate are within their limits.
pub fn fits_rate()
    ensures { (guest : Guest) (past : List Event) (r at v : ℕ) (pages : List ℕ) → FitsLimits guest
        → IsLegalSoFar guest (Synced r at pages ∷ past) → FitsRate v at past }
{}

/// A throttle stays within its limits.
pub fn fits_throttle()
    ensures { (guest : Guest) (past : List Event) (v : ℕ) → FitsLimits guest
        → IsLegalSoFar guest past
        → FitsThrottle (throttle guest v past) }
{}

/// What came before legal events is legal.
pub fn earlier_is_legal()
    ensures { (guest : Guest) (later earlier : List Event) → IsLegalSoFar guest (later ++ earlier)
        → IsLegalSoFar guest earlier }
{}

/// An entry that is outstanding is the last one opened for its page.
pub fn outstanding_is_last()
    ensures { (guest : Guest) (v k page : ℕ) (later earlier : List Event)
        → IsLegalSoFar guest (later ++ Opened v k page ∷ earlier)
        → LastForPage v k page later earlier }
{}

/// Each entry that was opened before the Asked of an answer is reset, with a Flushed after its
/// Reset.
pub fn answer_covers_opened()
    ensures { (guest : Guest) (past : List Event) (r at : ℕ) (pages : List ℕ)
        → IsLegalSoFar guest (Synced r at pages ∷ past) → CoversOpened past }
{}

/// A page is unsent exactly where a write into it came before the last Asked, and no copy of it
/// after that write.
pub fn unsent_is_written()
    ensures { (guest : Guest) (page : ℕ) (past : List Event) → UnsentIsWritten guest page past }
{}

/// No rule is broken exactly where the history is legal.
pub fn none_is_legal()
    ensures { (guest : Guest) (past : List Event) → NoneIsLegal guest past }
{}

/// What is found to be broken is the first event that breaks a rule, with the least rule that it
/// breaks.
pub fn some_is_first()
    ensures { (guest : Guest) (past : List Event) → SomeIsFirst guest past }
{}

/// The page to be copied next is the one of the answer that has the number of those copied.
pub fn pages_are_copied_in_order()
    ensures { (guest : Guest) (past : List Event) (page : ℕ) → IsLegalSoFar guest past
        → is_least_uncopied page (pages_of (last_synced past)) (since is_synced past)
        ≡ is_number page (slice_get (pages_of (last_synced past)) (copies past)) }
{}

/// All pages of the last answer are copied where there are as many copies.
pub fn copies_count()
    ensures { (guest : Guest) (past : List Event) → IsLegalSoFar guest past
        → list_all (copied_in (since is_synced past)) (pages_of (last_synced past))
        ≡ nat_le (length (pages_of (last_synced past))) (copies past) }
{}

/// All that was opened before the last Asked is reset where each vCPU has reset as many entries as
/// it had opened there.
pub fn covered_by_counts()
    ensures { (guest : Guest) (past : List Event) → IsLegalSoFar guest past
        → list_all (is_reset_in past) (before is_asked past)
        ≡ list_all (λ v. nat_le (opens v (before is_asked past)) (resets v past))
        (below (vcpu_count guest)) }
{}

/// Some number of a range was deposited where one of them was.
pub fn ranges_are_deposited_by_number()
    ensures { (guest : Guest) (past : List Event) (w from to : ℕ) → from < to
        → IsLegalSoFar guest past
        → list_any (deposits_some w from to) past
        ≡ list_any (λ k. nat_le from k && list_any (deposits_entry w k) past) (below to) }
{}

/// An entry has a page exactly where its number is below the count.
pub fn entries_have_pages()
    ensures { (guest : Guest) (past : List Event) (w k : ℕ) → IsLegalSoFar guest past
        → k < opens w past
        → is_some (page_of_entry w k past) ≡ true }
{}

/// The page of an entry is one of the guest.
pub fn entries_have_pages_of_the_guest()
    ensures { (guest : Guest) (past : List Event) (w k : ℕ) → IsLegalSoFar guest past
        → IfSome (page_of_entry w k past) (λ p. p < page_count guest) }
{}

/// The pages of an answer are pages of the guest.
pub fn answered_pages_exist()
    ensures { (guest : Guest) (past : List Event) (n page : ℕ) → IsLegalSoFar guest past
        → slice_get (pages_of (last_synced past)) n ≡ Some page → page < page_count guest }
{}
