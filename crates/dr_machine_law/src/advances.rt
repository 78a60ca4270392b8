ghost use Rattle.std.specs.Prelude.{◌≡◌, ◌<◌, ◌+◌, ℕ, true, false, Ok};
ghost use Rattle.dr_history.specs.Dirty.{dirty};
ghost use Rattle.dr_history.specs.Kinds.{is_synced};
ghost use Rattle.dr_history.specs.Lookback.{since};
ghost use Rattle.dr_history.specs.Memory.{page_bytes, zero_page};
ghost use Rattle.dr_history.specs.Rounds.{last_synced, is_least_uncopied};
ghost use Rattle.dr_history_law.specs.Copies.{pages_of};
ghost use Rattle.dr_history_law.specs.Cover.{CoversOpened};
ghost use Rattle.dr_turns_law.specs.Advances.{SameEntries};

use dr_machine::Machine;
use dr_memory::PageBytes;
use dr_ring::Name;
use dr_turns::Advance;
use dr_types::Memory;

/// Makes the advance that is due. A round is answered once each entry that was opened before it
/// was asked is reset, with a Flushed after its Reset. The page that is copied is the least of the
/// last answer's without a Copied since; its bytes are those of the guest's memory, and it is clean
/// then. So it is with the first of pages of zeros that are copied together, and each of these is
/// zero and clean then. No advance opens, pushes, deposits or resets an entry, or changes the
/// guest's memory.
pub fn advance<N: Name>(
    machine: &mut Machine<N>,
    now: u64,
    into: &mut PageBytes,
) -> Result<Advance, Memory>
    ensures covers { (r pages : ℕ) → result ≡ Ok (Advance.Answered r pages)
        → CoversOpened machine.old.past }
    ensures least { (r page : ℕ) → result ≡ Ok (Advance.Copied r page)
        → let past = machine.old.past in
        is_least_uncopied page (pages_of (last_synced past)) (since is_synced past) ≡ true }
    ensures copied { (r page : ℕ) → result ≡ Ok (Advance.Copied r page)
        → into.new ≡ page_bytes N.guest page machine.new.past }
    ensures clean { (r page : ℕ) → result ≡ Ok (Advance.Copied r page)
        → dirty page machine.new.past ≡ false }
    ensures first { (r page count : ℕ) → result ≡ Ok (Advance.Blank r page count)
        → let past = machine.old.past in
        is_least_uncopied page (pages_of (last_synced past)) (since is_synced past) ≡ true }
    ensures zero { (r page count k : ℕ) → result ≡ Ok (Advance.Blank r page count) → k < count
        → zero_page N.guest (page + k) machine.new.past ≡ true }
    ensures blank_clean { (r page count k : ℕ) → result ≡ Ok (Advance.Blank r page count)
        → k < count → dirty (page + k) machine.new.past ≡ false }
    ensures bytes { (page : ℕ)
        → page_bytes N.guest page machine.new.past ≡ page_bytes N.guest page machine.old.past }
    ensures entries { SameEntries machine.old.past machine.new.past }
{
    machine.recall_kept();
    machine.advance(now, into)
}
