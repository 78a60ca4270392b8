//! What all histories of a run have together, and how it is printed.

ghost use Rattle.std.specs.Prelude.{◌≡◌, ◌<◌, ◌^◌, length, max, reverse};
ghost use Rattle.dr_core_speed.specs.Tallies.{capped_sum, sum_of, tally_of};

use crate::tally::{Tally, tally_of};
use dr_history::Event;
use std::io;

/// How many events all histories and the longest of them have, and how many of each kind.
#[derive(Clone, Copy)]
pub struct Counts {
    pub events: u64,
    pub longest: u64,
    pub kinds: Tally,
}

impl Counts {
    /// The counts before the first history.
    pub fn none() -> Counts {
        Counts {
            events: 0,
            longest: 0,
            kinds: Tally::none(),
        }
    }

    /// Adds the events of a history.
    pub fn add(&mut self, events: &[Event])
        requires { length (reverse events.now) < 2 ^ 63 }
        ensures events { self.new.events ≡ capped_sum self.old.events (length events.now) }
        ensures longest { self.new.longest ≡ max self.old.longest (length events.now) }
        ensures kinds { self.new.kinds ≡ sum_of self.old.kinds (tally_of (reverse events.now)) }
    {
        let count = events.len() as u64;
        self.events = self.events.saturating_add(count);
        self.longest = self.longest.max(count);
        self.kinds = self.kinds.plus(tally_of(events));
    }
}

/// Prints a line of a name and a count.
fn print_count(rt: &impl Print, name: &str, count: u64) -> io::Result<()> {
    println!(rt; "{name}: {count}")
}

/// Prints what the vCPUs did.
fn print_vcpus(rt: &impl Print, kinds: &Tally) -> io::Result<()> {
    print_count(rt, "pages opened", kinds.opened)?;
    print_count(rt, "permissions filled", kinds.filled)?;
    print_count(rt, "entries pushed", kinds.pushed)?;
    print_count(rt, "reads", kinds.read)?;
    print_count(rt, "writes", kinds.write)?;
    print_count(rt, "throttles", kinds.throttled)?;
    print_count(rt, "throttles with a sleep", kinds.sleep)
}

/// Prints what the migrator did.
fn print_migrator(rt: &impl Print, kinds: &Tally) -> io::Result<()> {
    print_count(rt, "ranges deposited", kinds.deposited)?;
    print_count(rt, "ranges deposited after a later one", kinds.out_of_order)?;
    print_count(rt, "entries reset", kinds.reset)?;
    print_count(rt, "flushes", kinds.flushed)?;
    print_count(rt, "rounds answered", kinds.synced)?;
    print_count(rt, "pages copied", kinds.copied)
}

/// Prints the counts of so many guests, one a line.
pub fn print_counts(rt: &impl Print, guests: u64, counts: &Counts) -> io::Result<()> {
    println!(rt; "guests, each with a history of its own: {guests}")?;
    print_count(rt, "events taken", counts.events)?;
    print_count(rt, "events of the longest history", counts.longest)?;
    print_vcpus(rt, &counts.kinds)?;
    print_migrator(rt, &counts.kinds)
}
