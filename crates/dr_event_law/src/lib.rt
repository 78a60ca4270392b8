//! Which events may come: for each kind, what it needs of the events before it, and that this is
//! enough.
#![tactic(auto)]

ghost use Rattle.std.specs.Prelude.{◌≡◌, ℕ, ◌+◌, ◌<◌, ◌≤◌, max, true, false, not, ◌||◌, ◌&&◌, List};
ghost use Rattle.std.specs.Prelude.{◌∷◌, Some, None, is_some, if◌then◌else◌};
ghost use Rattle.std.specs.List.{list_any};
ghost use Rattle.dr_types.specs.declared.guest.Guest.{Guest};
ghost use Rattle.dr_types.specs.declared.guest.Op.{Op};
ghost use Rattle.dr_types.specs.declared.guest.Why.{Why};
ghost use Rattle.dr_types.specs.Pages.{page_count};
ghost use Rattle.dr_types.specs.Scripts.{vcpu_count, operation};
ghost use Rattle.dr_history.specs.declared.event.Event.{Event};
ghost use Rattle.dr_history.specs.declared.event.Event.TheVariants.{Start, Opened, Filled, Pushed};
ghost use Rattle.dr_history.specs.declared.event.Event.TheVariants.{Exited, Deposited, Reset};
ghost use Rattle.dr_history.specs.declared.event.Event.TheVariants.{Flushed, Asked, Synced, Copied};
ghost use Rattle.dr_history.specs.declared.event.Event.TheVariants.{Throttled, Stopped, Switched};
ghost use Rattle.dr_history.specs.Dirty.{dirty_pages};
ghost use Rattle.dr_history.specs.Entries.{opens, pushes, resets};
ghost use Rattle.dr_history.specs.Execution.{ops, is_next_op};
ghost use Rattle.dr_history.specs.Kinds.{is_asked, is_stopped, is_switched, is_synced};
ghost use Rattle.dr_history.specs.Legality.{IsLegalSoFar};
ghost use Rattle.dr_history.specs.Lookback.{below, since};
ghost use Rattle.dr_history.specs.Protection.{started, cached, closing};
ghost use Rattle.dr_history.specs.Rounds.{asks};
ghost use Rattle.dr_history.specs.Rules.{write_follows, names_exist, reads_memory, write_is_cached};
ghost use Rattle.dr_history.specs.Rules.{last_owes_write, may_end, vcpu_of_op};
ghost use Rattle.dr_history.specs.Throttles.{throttle_due, throttle};
ghost use Rattle.dr_history.specs.Vcpus.{halted, in_guest, stopped};
ghost use Rattle.dr_history_law.specs.Length.{script_length};
ghost use Rattle.dr_history_law.specs.Room.{unpushed};
ghost use Rattle.dr_event_law.specs.May.{Ends, MayFollow, AtRest, MayRun, MayOpen, MayFill};
ghost use Rattle.dr_event_law.specs.May.{MayPush, MayExit, MayDeposit, MayReset, MayStart, MayAsk};
ghost use Rattle.dr_event_law.specs.May.{MayAnswer, MayCopy, MayStop, MaySwitch, IsSettled};
ghost use Rattle.dr_event_law.specs.May.{WritesNext};
ghost use Rattle.dr_event_law.specs.Operations.{op_event, op_page, OpFits};

/// An operation breaks no rule where its vCPU may run, by what its kind needs.
pub fn may_execute()
    ensures { (guest : Guest) (past : List Event) (e : Event) (v : ℕ) → vcpu_of_op e ≡ Some v
        → MayRun guest past v → write_follows guest past e ≡ true → names_exist guest past e ≡ true
        → is_next_op guest past e ≡ true → reads_memory guest past e ≡ true
        → write_is_cached guest past e ≡ true → MayFollow guest past e }
{}

/// A write comes alone where logging has not begun or its page is cached.
pub fn may_write()
    ensures { (guest : Guest) (past : List Event) (v page : ℕ) (e : Event)
        → may_end guest past ≡ true → MayRun guest past v → WritesNext guest past v page e
        → (not (started past) || cached v page past) ≡ true → MayFollow guest past e }
{}

/// A write comes after its Filled.
pub fn may_write_filled()
    ensures { (guest : Guest) (past : List Event) (v page : ℕ) (e : Event) → MayRun guest past v
        → unpushed v past < max 1 guest.settings.buffer → WritesNext guest past v page e
        → MayFollow guest (Filled v page ∷ past) e }
{}

/// A write comes after its Opened.
pub fn may_write_opened()
    ensures { (guest : Guest) (past : List Event) (v k page : ℕ) (e : Event) → MayRun guest past v
        → unpushed v past < max 1 guest.settings.buffer → WritesNext guest past v page e
        → MayFollow guest (Opened v k page ∷ past) e }
{}

/// An Opened breaks no rule where the page is protected.
pub fn may_open()
    ensures { (guest : Guest) (past : List Event) (v page : ℕ) → AtRest guest past
        → MayOpen guest past v page → MayFollow guest past (Opened v (opens v past) page) }
{}

/// A Filled breaks no rule where the page is writable.
pub fn may_fill()
    ensures { (guest : Guest) (past : List Event) (v page : ℕ) → AtRest guest past
        → MayFill guest past v page → MayFollow guest past (Filled v page) }
{}

/// A Pushed breaks no rule where an entry is unpushed and the ring has room.
pub fn may_push()
    ensures { (guest : Guest) (past : List Event) (v : ℕ) → AtRest guest past
        → MayPush guest past v → MayFollow guest past (Pushed v (pushes v past)) }
{}

/// An Exited breaks no rule where its vCPU is in the guest and has pushed all it opened.
pub fn may_exit()
    ensures { (guest : Guest) (past : List Event) (v : ℕ) (why : Why) → AtRest guest past
        → MayExit guest past v why → MayFollow guest past (Exited v why) }
{}

/// A Deposited breaks no rule where its numbers are pushed and none was deposited before.
pub fn may_deposit()
    ensures { (guest : Guest) (past : List Event) (v from to : ℕ) → AtRest guest past
        → MayDeposit guest past v from to → MayFollow guest past (Deposited v from to) }
{}

/// A Reset breaks no rule where the vCPU's next entry is deposited.
pub fn may_reset()
    ensures { (guest : Guest) (past : List Event) (v : ℕ) → AtRest guest past
        → MayReset guest past v → MayFollow guest past (Reset v (resets v past)) }
{}

/// A Flushed breaks no rule where a page is closing.
pub fn may_flush()
    ensures { (guest : Guest) (past : List Event) → AtRest guest past
        → list_any (λ page. closing page past) (below (page_count guest)) ≡ true
        → MayFollow guest past Flushed }
{}

/// A Start breaks no rule where none came and each vCPU is paced, whatever its time.
pub fn may_start()
    ensures { (guest : Guest) (past : List Event) (at : ℕ) → AtRest guest past
        → MayStart guest past → MayFollow guest past (Start at) }
{}

/// An Asked breaks no rule where it is its turn.
pub fn may_ask()
    ensures { (guest : Guest) (past : List Event) → AtRest guest past
        → MayAsk guest past → MayFollow guest past (Asked (asks past + 1)) }
{}

/// A Synced of the dirty pages breaks no rule where the round is asked, and all was reset and
/// flushed.
pub fn may_answer()
    ensures { (guest : Guest) (past : List Event) (r at : ℕ) → AtRest guest past
        → MayAnswer guest past r → MayFollow guest past (Synced r at (dirty_pages guest past)) }
{}

/// A Copied breaks no rule where its page is the next of the open round.
pub fn may_copy()
    ensures { (guest : Guest) (past : List Event) (r page : ℕ) → AtRest guest past
        → MayCopy guest past r page → MayFollow guest past (Copied r page) }
{}

/// A Throttled breaks no rule where it is due, and as long as the formula says.
pub fn may_throttle()
    ensures { (guest : Guest) (past : List Event) (v : ℕ) → last_owes_write past ≡ false
        → list_any is_switched past ≡ false → v < vcpu_count guest
        → throttle_due guest past ≡ Some v
        → MayFollow guest past (Throttled v (throttle guest v past).us) }
{}

/// A Stopped breaks no rule where the last answer has few pages.
pub fn may_stop()
    ensures { (guest : Guest) (past : List Event) → AtRest guest past
        → MayStop guest past → MayFollow guest past Stopped }
{}

/// A Switched breaks no rule where the round after the stop is copied.
pub fn may_switch()
    ensures { (guest : Guest) (past : List Event) → AtRest guest past
        → MaySwitch guest past → MayFollow guest past Switched }
{}

/// The event of an operation that writes a page is the vCPU's next operation, and writes that page.
pub fn next_op_writes()
    ensures { (guest : Guest) (past : List Event) (v page : ℕ) (o : Op) → v < vcpu_count guest
        → page < page_count guest → operation guest v (ops v past) ≡ Some o → OpFits guest o
        → op_page guest o ≡ Some page → WritesNext guest past v page (op_event guest v past o) }
{}

/// The event of an operation that writes no page breaks no rule where its vCPU may run.
pub fn may_execute_quietly()
    ensures { (guest : Guest) (past : List Event) (v : ℕ) (o : Op) → v < vcpu_count guest
        → may_end guest past ≡ true → MayRun guest past v
        → operation guest v (ops v past) ≡ Some o → OpFits guest o → op_page guest o ≡ None
        → MayFollow guest past (op_event guest v past o) }
{}

/// After an event that owes nothing the history is at rest.
pub fn settles_after()
    ensures { (guest : Guest) (past : List Event) (e : Event) → IsSettled e
        → list_any is_switched past ≡ false → AtRest guest (e ∷ past) }
{}

/// No more rounds are asked than the guest's settings say, and one after the stop.
pub fn asks_are_few()
    ensures { (guest : Guest) (past : List Event) → IsLegalSoFar guest past
        → asks past ≤ guest.settings.rounds
        + (if stopped past && list_any is_asked (since is_stopped past) then 1 else 0) }
{}

/// A vCPU that has not halted has a next operation, where scripts end with a halt.
pub fn operation_goes_on()
    ensures { (guest : Guest) (past : List Event) (v : ℕ) → Ends guest → 0 < script_length guest v
        → IsLegalSoFar guest past → halted v past ≡ false
        → is_some (operation guest v (ops v past)) ≡ true }
{}

/// After the answer that follows the stop no vCPU is in the guest.
pub fn out_after_stop()
    ensures { (guest : Guest) (past : List Event) (v : ℕ) → v < vcpu_count guest
        → IsLegalSoFar guest past → stopped past ≡ true
        → list_any is_synced (since is_stopped past) ≡ true → in_guest v past ≡ false }
{}
