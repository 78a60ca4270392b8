//! How many events of each kind a history has.

ghost use Rattle.std.specs.Prelude.{◌≡◌, ◌<◌, ◌^◌, ℕ, Option, [], ◌∷◌, length, reverse};
ghost use Rattle.dr_core_speed.specs.Tallies.{tally_of, counted, last_deposit, sum_of};
ghost use Rattle.dr_core_speed.specs.Tallies.{starts_before, IsSmall};

use dr_history::Event;

/// How many events there are of each kind that matters. `out_of_order` are the Deposited
/// directly after that of a later range of the same vCPU, `sleep` the Throttled of some time.
#[derive(Clone, Copy)]
pub struct Tally {
    pub opened: u64,
    pub filled: u64,
    pub pushed: u64,
    pub deposited: u64,
    pub out_of_order: u64,
    pub reset: u64,
    pub flushed: u64,
    pub copied: u64,
    pub read: u64,
    pub write: u64,
    pub synced: u64,
    pub throttled: u64,
    pub sleep: u64,
}

/// A range with this vCPU and first number begins before the one deposited last.
fn starts_before(v: u32, from: u64, last: Option<(u32, u64)>) -> bool
    ensures { result ≡ starts_before v from last }
{
    match last {
        Some((vcpu, first)) => vcpu == v && from < first,
        None => false,
    }
}

/// The vCPU and the first number of an event that is a Deposited.
fn deposit_of(e: &Event) -> Option<(u32, u64)>
    ensures { result ≡ last_deposit (e.now ∷ []) }
{
    match e {
        Event::Deposited { v, from, .. } => Some((*v, *from)),
        _ => None,
    }
}

impl Tally {
    /// The counts before the first event.
    pub fn none() -> Tally
        ensures { result ≡ tally_of [] }
    {
        Tally {
            opened: 0,
            filled: 0,
            pushed: 0,
            deposited: 0,
            out_of_order: 0,
            reset: 0,
            flushed: 0,
            copied: 0,
            read: 0,
            write: 0,
            synced: 0,
            throttled: 0,
            sleep: 0,
        }
    }

    /// Counts an event. What was deposited last, where that was the event before, tells whether it
    /// is out of order.
    fn count(&mut self, e: &Event, last: Option<(u32, u64)>)
        requires { IsSmall self.old }
        ensures { self.new ≡ counted last e.now self.old }
    {
        match e {
            Event::Opened { .. } => self.opened += 1,
            Event::Filled { .. } => self.filled += 1,
            Event::Pushed { .. } => self.pushed += 1,
            Event::Deposited { v, from, .. } => {
                self.deposited += 1;
                if starts_before(*v, *from, last) {
                    self.out_of_order += 1;
                }
            }
            Event::Reset { .. } => self.reset += 1,
            Event::Flushed => self.flushed += 1,
            Event::Copied { .. } => self.copied += 1,
            Event::Read { .. } => self.read += 1,
            Event::Write { .. } => self.write += 1,
            Event::Synced { .. } => self.synced += 1,
            Event::Throttled { us, .. } => {
                self.throttled += 1;
                if *us > 0 {
                    self.sleep += 1;
                }
            }
            _ => {}
        }
    }

    /// The counts of two together.
    pub fn plus(self, other: Tally) -> Tally
        ensures { result ≡ sum_of self other }
    {
        Tally {
            opened: self.opened.saturating_add(other.opened),
            filled: self.filled.saturating_add(other.filled),
            pushed: self.pushed.saturating_add(other.pushed),
            deposited: self.deposited.saturating_add(other.deposited),
            out_of_order: self.out_of_order.saturating_add(other.out_of_order),
            reset: self.reset.saturating_add(other.reset),
            flushed: self.flushed.saturating_add(other.flushed),
            copied: self.copied.saturating_add(other.copied),
            read: self.read.saturating_add(other.read),
            write: self.write.saturating_add(other.write),
            synced: self.synced.saturating_add(other.synced),
            throttled: self.throttled.saturating_add(other.throttled),
            sleep: self.sleep.saturating_add(other.sleep),
        }
    }
}

/// The counts of events in their order.
pub fn tally_of(events: &[Event]) -> Tally
    requires { length (reverse events.now) < 2 ^ 63 }
    ensures { result ≡ tally_of (reverse events.now) }
{
    let mut tally = Tally::none();
    let mut last = None;
    for e in events {
        tally.count(e, last);
        last = deposit_of(e);
    }
    tally
}
