ghost use Rattle.std.specs.Prelude.{◌≡◌, ◌+◌, ◌≤◌};
ghost use Rattle.dr_report.specs.Tallies.{vcpu_of, counted, answered, IsSmall};

use dr_history::Event;
use dr_rate::rate;
use dr_types::Why;

/// What is counted of a vCPU: its entries since the last answer or the start, its entries and rate
/// at the last answer, its last throttle in microseconds, its ops, and its exits with full and with
/// kicked.
#[derive(Clone, Copy, Debug)]
pub struct Tally {
    pub entries: u64,
    pub answered_entries: u64,
    pub answered_rate: u64,
    pub throttle_us: u64,
    pub ops: u64,
    pub full_exits: u64,
    pub kicked_exits: u64,
}

impl Tally {
    /// Counts an event of the vCPU.
    pub fn count(&mut self, e: &Event)
        requires { IsSmall self.old }
        ensures { self.new ≡ counted e.now self.old }
    {
        match e {
            Event::Read { .. }
            | Event::Write { .. }
            | Event::Paint { .. }
            | Event::Local { .. }
            | Event::Halted { .. } => self.ops += 1,
            Event::Pushed { .. } => self.entries += 1,
            Event::Exited { why: Why::Full, .. } => self.full_exits += 1,
            Event::Exited {
                why: Why::Kicked,
                ..
            } => self.kicked_exits += 1,
            Event::Throttled { us, .. } => self.throttle_us = *us,
            _ => {}
        }
    }

    /// Keeps the entries and their rate for an answer, so many microseconds after the last answer
    /// or the start.
    pub fn answer(&mut self, span: u64)
        requires { self.old.entries ≤ 200000 }
        ensures { self.new ≡ answered span self.old }
    {
        self.answered_entries = self.entries;
        self.answered_rate = rate(self.entries, span);
        self.entries = 0;
    }
}

/// The vCPU whose tally an event changes.
pub fn vcpu_of(e: &Event) -> Option<u32>
    ensures { result ≡ vcpu_of e.now }
{
    match e {
        Event::Read { v, .. }
        | Event::Write { v, .. }
        | Event::Paint { v, .. }
        | Event::Local { v, .. }
        | Event::Halted { v, .. }
        | Event::Pushed { v, .. }
        | Event::Exited { v, .. }
        | Event::Throttled { v, .. } => Some(*v),
        _ => None,
    }
}
