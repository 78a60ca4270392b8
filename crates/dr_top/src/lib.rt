//! The top call of every command, by whichever top call has its words.
#![tactic(auto)]

ghost use Rattle.std.specs.Prelude.{◌≡◌, ◌≢◌, ◌↔◌, true, false, Some, None};
ghost use Rattle.std.specs.Prelude.{is_some, map, string_bytes};
ghost use Rattle.dr_types.specs.Ports.{Rose};
ghost use Rattle.dr_command.specs.Words.{command_of, is_command, is_load, is_run};
ghost use Rattle.dr_loader.specs.Loads.{is_bad_stream};
ghost use Rattle.dr_plain.specs.Commands.{EndsOf, PutsNone, SaysOf, TakesOf};
ghost use Rattle.dr_plain.specs.Top.{SomeMigrated};

use dr_io::{Clock, FixedClock, OpenGate, Outlet, Source};
use dr_live::{LiveEnd, live_main};
use dr_machine::Kept;
use dr_plain::{PlainEnd, plain_main};
use dr_stream_explain::Trouble;
use dr_types::Status;
use std::alloc::Global;
use std::sync::Wait;
use std::thread::Threads;

/// How a command ended.
#[derive(Drop)]
pub struct CommandEnd<O: Outlet> {
    pub status: Status,
    /// The outlet that was handed in.
    pub out: O,
    /// What is kept of the machine of a run, and nothing where no guest was run.
    pub kept: Option<Kept>,
    /// What helps to find the damage in a migration stream that is refused.
    pub trouble: Option<Trouble>,
}

/// Does the command `run`, in threads.
#[tactic(auto, using(dr_plain::proofs::Commands::for_run))]
fn run<R: Threads + Wait + Sync, S: Source, O: Outlet + Send, C: Clock + Sync>(
    rt: &R,
    alloc: Global,
    words: &[String],
    source: &mut S,
    out: O,
    clock: &C,
) -> CommandEnd<O>
    requires { is_run (map string_bytes words.now) ≡ true }
    ensures run { result.status ≢ Status.Words }
    ensures says { SaysOf (command_of (map string_bytes words.now)) result.status
        (S.remaining source.old) result.kept (O.told out) (O.told result.out) }
    ensures takes { TakesOf (command_of (map string_bytes words.now)) result.status
        (S.remaining source.old) (S.remaining source.new) }
    ensures untold { is_load (map string_bytes words.now) ≡ false
        → result.status ≡ Status.Done
        → SomeMigrated result.kept (O.told out) (O.told result.out) }
    ensures ends { EndsOf (command_of (map string_bytes words.now)) result.status
        (S.remaining source.old) }
    ensures outlet { result.status ≡ Status.Outlet → Rose (O.faults out) (O.faults result.out) }
    ensures source { result.status ≡ Status.Source
        → Rose (S.faults source.old) (S.faults source.new) }
    ensures trouble { is_some result.trouble ≡ is_bad_stream result.status }
    ensures unput { PutsNone (command_of (map string_bytes words.now)) (Some result.status)
        result.kept → result.out ≡ out }
{
    let LiveEnd { status, out, kept } = live_main(rt, alloc, words, source, out, clock, &OpenGate);
    CommandEnd {
        status,
        out,
        kept,
        trouble: None,
    }
}

/// Does the command of these words, in threads where it needs them.
pub fn command<R: Threads + Wait + Sync, S: Source, O: Outlet + Send>(
    rt: &R,
    alloc: Global,
    words: &[String],
    source: &mut S,
    out: O,
) -> CommandEnd<O>
    ensures words { (result.status ≡ Status.Words)
        ↔ (is_command (map string_bytes words.now) ≡ false) }
    ensures says { SaysOf (command_of (map string_bytes words.now)) result.status
        (S.remaining source.old) result.kept (O.told out) (O.told result.out) }
    ensures takes { TakesOf (command_of (map string_bytes words.now)) result.status
        (S.remaining source.old) (S.remaining source.new) }
    ensures untold { is_load (map string_bytes words.now) ≡ false
        → result.status ≡ Status.Done
        → SomeMigrated result.kept (O.told out) (O.told result.out) }
    ensures ends { EndsOf (command_of (map string_bytes words.now)) result.status
        (S.remaining source.old) }
    ensures outlet { result.status ≡ Status.Outlet → Rose (O.faults out) (O.faults result.out) }
    ensures source { result.status ≡ Status.Source
        → Rose (S.faults source.old) (S.faults source.new) }
    ensures trouble { is_some result.trouble ≡ is_bad_stream result.status }
    ensures unput { PutsNone (command_of (map string_bytes words.now)) (Some result.status)
        result.kept → result.out ≡ out }
{
    let clock = FixedClock { now: 0 };
    let PlainEnd {
        status,
        out,
        kept,
        trouble,
    } = plain_main(alloc, words, source, out, &clock);
    match status {
        Some(status) => CommandEnd {
            status,
            out,
            kept,
            trouble,
        },
        None => run(rt, alloc, words, source, out, &clock),
    }
}
