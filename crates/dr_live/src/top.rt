ghost use Rattle.std.specs.Prelude.{◌≡◌, ◌≢◌, ◌↔◌, true, false, None, map, string_bytes};
ghost use Rattle.dr_types.specs.Ports.{Rose};
ghost use Rattle.dr_command.specs.Words.{is_run};
ghost use Rattle.dr_command_io.specs.Taking.{IfTold, Takes};
ghost use Rattle.dr_plain.specs.Input.{IsGuestFile, most_guest_bytes};
ghost use Rattle.dr_plain.specs.Top.{EndsRun, Says, SomeMigrated};

use crate::live::live;
use dr_command::{Command, read_command};
use dr_io::{Clock, Gate, Outlet, Source};
use dr_machine::Kept;
use dr_plain::{Finished, read_input};
use dr_types::Status;
use std::alloc::Global;
use std::sync::Wait;
use std::thread::Threads;

/// How the command ended.
#[derive(Drop)]
pub struct LiveEnd<O: Outlet> {
    pub status: Status,
    /// The outlet that was handed in.
    pub out: O,
    /// What is kept of the machine of a run, and nothing where no guest was run.
    pub kept: Option<Kept>,
}

/// The command `run`: reads a guest file from the source, migrates the guest in threads, and puts
/// the stream, the image, the report and the journal.
#[tactic(auto, using(dr_plain::proofs::Tops::input_ends))]
fn run_input<
    S: Source,
    O: Outlet + Send,
    C: Clock + Sync,
    G: Gate + Sync,
    R: Threads + Wait + Sync,
>(rt: &R, alloc: Global, src: &mut S, out: O, clock: &C, gate: &G) -> Finished<O>
    ensures run { result.status ≢ Status.Words }
    ensures says { Says result.status (S.remaining src.old) result.kept
        (O.told out) (O.told result.out) }
    ensures takes { Takes most_guest_bytes result.status
        (S.remaining src.old) (S.remaining src.new) }
    ensures untold { result.status ≡ Status.Done
        → SomeMigrated result.kept (O.told out) (O.told result.out) }
    ensures ends { IfTold (S.remaining src.old) (λ bytes.
        IsGuestFile bytes → EndsRun result.status) }
    ensures outlet { result.status ≡ Status.Outlet → Rose (O.faults out) (O.faults result.out) }
    ensures source { result.status ≡ Status.Source → Rose (S.faults src.old) (S.faults src.new) }
    ensures unput { result.kept ≡ None → result.out ≡ out }
{
    match read_input(alloc, src) {
        Ok(guest) => live(rt, alloc, guest, out, clock, gate),
        Err(status) => Finished {
            status,
            out,
            kept: None,
        },
    }
}

/// Does the command `run`: reads a guest file from the source, migrates the guest in threads, and
/// puts the stream, the image, the report and the journal. Where the words are another command or
/// none, nothing is done.
pub fn live_main<
    S: Source,
    O: Outlet + Send,
    C: Clock + Sync,
    G: Gate + Sync,
    R: Threads + Wait + Sync,
>(rt: &R, alloc: Global, words: &[String], src: &mut S, out: O, clock: &C, gate: &G) -> LiveEnd<O>
    ensures words { (result.status ≡ Status.Words)
        ↔ (is_run (map string_bytes words.now) ≡ false) }
    ensures says { Says result.status (S.remaining src.old) result.kept
        (O.told out) (O.told result.out) }
    ensures takes { Takes most_guest_bytes result.status
        (S.remaining src.old) (S.remaining src.new) }
    ensures untold { result.status ≡ Status.Done
        → SomeMigrated result.kept (O.told out) (O.told result.out) }
    ensures ends { is_run (map string_bytes words.now) ≡ true
        → IfTold (S.remaining src.old) (λ bytes. IsGuestFile bytes → EndsRun result.status) }
    ensures outlet { result.status ≡ Status.Outlet → Rose (O.faults out) (O.faults result.out) }
    ensures source { result.status ≡ Status.Source → Rose (S.faults src.old) (S.faults src.new) }
    ensures unread { is_run (map string_bytes words.now) ≡ false → src.new ≡ src.old }
    ensures unput { result.kept ≡ None → result.out ≡ out }
{
    match read_command(words) {
        Some(Command::Run(_)) => {
            let Finished { status, out, kept } = run_input(rt, alloc, src, out, clock, gate);
            LiveEnd { status, out, kept }
        }
        Some(Command::Step(_) | Command::Load(_)) | None => LiveEnd {
            status: Status::Words,
            out,
            kept: None,
        },
    }
}
