ghost use Rattle.std.specs.Prelude.{◌≡◌};
ghost use Rattle.dr_run.specs.Outcomes.{end_of_drive};

use dr_bench::BenchFault;
use dr_io::Outlet;
use dr_machine::Machine;
use dr_ring::Name;
use dr_turns::RunEnd;

/// How a run ended.
#[derive(Clone, Copy, Debug, PartialEq, Eq)]
pub enum OutcomeEnd {
    /// The guest switched over.
    Switched,
    /// The rounds came to their end, and too many pages were left.
    Budget,
    /// A put failed.
    Sink,
    /// An allocation was refused.
    Memory,
}

/// The machine of a run, and how the run ended. There is none only for want of memory.
#[derive(Drop)]
pub struct Outcome<N: Name> {
    pub machine: Option<Machine<N>>,
    pub end: OutcomeEnd,
}

/// What a run left, with the outlet that was handed in.
#[derive(Drop)]
pub struct RunOutcome<N: Name, O: Outlet> {
    pub outcome: Outcome<N>,
    pub out: O,
}

/// How a drive ended, as the end of its run. A drive never answers that it is still open.
pub fn end_of(drive: Result<RunEnd, BenchFault>) -> OutcomeEnd
    ensures { result ≡ end_of_drive drive }
{
    match drive {
        Ok(RunEnd::Switched) => OutcomeEnd::Switched,
        Ok(_) => OutcomeEnd::Budget,
        Err(BenchFault::Sink) => OutcomeEnd::Sink,
        Err(BenchFault::Memory) => OutcomeEnd::Memory,
    }
}
