ghost use Rattle.std.specs.Prelude.{◌≡◌, ◌≢◌, ◌↔◌, true, false, All, Some, None};
ghost use Rattle.std.specs.Prelude.{IfSome, is_some, map, string_bytes};
ghost use Rattle.dr_types.specs.Ports.{Rose};
ghost use Rattle.dr_history.specs.Times.{times};
ghost use Rattle.dr_command.specs.Words.{command_of, is_command, is_load, is_run, is_step};
ghost use Rattle.dr_command_io.specs.Taking.{IfTold, Takes};
ghost use Rattle.dr_loader.specs.Loads.{LoadEnds, LoadSays, most_stream_bytes};
ghost use Rattle.dr_plain.specs.Commands.{EndsOf, PutsNone, SaysOf, TakesOf, has_refused_stream};
ghost use Rattle.dr_plain.specs.Input.{IsGuestFile, most_guest_bytes};
ghost use Rattle.dr_plain.specs.Top.{EndsRun, IsSomeBut, Says, SchedulesAs, SomeMigrated};

use crate::input::read_input;
use crate::leaving::Finished;
use crate::step::step;
use dr_command::{Command, read_command};
use dr_io::{Clock, Outlet, Source};
use dr_loader::{Loaded, load};
use dr_machine::Kept;
use dr_stream_explain::Trouble;
use dr_types::Status;
use std::alloc::Global;

/// How a command ended.
#[derive(Drop)]
pub struct PlainEnd<O: Outlet> {
    /// The status. There is none where the words are the command `run`, which needs threads.
    pub status: Option<Status>,
    /// The outlet that was handed in.
    pub out: O,
    /// What is kept of the machine of a run, and nothing where no guest was run.
    pub kept: Option<Kept>,
    /// What helps to find the damage in a migration stream that is refused.
    pub trouble: Option<Trouble>,
}

/// A command that was not done.
fn undone<O: Outlet>(status: Option<Status>, out: O) -> PlainEnd<O>
    ensures { result ≡ record {
      status = status;
      out = out;
      kept = None;
      trouble = None;
    } }
{
    PlainEnd {
        status,
        out,
        kept: None,
        trouble: None,
    }
}

/// The command `step`: reads a guest file from the source, migrates the guest, and puts the stream,
/// the image, the report and the journal.
#[tactic(auto, using(crate::proofs::Tops::says_run, crate::proofs::Tops::takes_run))]
fn step_input<S: Source, O: Outlet, C: Clock>(
    alloc: Global,
    src: &mut S,
    out: O,
    clock: &C,
) -> Finished<O>
    ensures step { result.status ≢ Status.Words }
    ensures says { Says result.status (S.remaining src.old) result.kept
        (O.told out) (O.told result.out) }
    ensures scheduled { IfSome result.kept (λ k. SchedulesAs result.status k.guest k.past) }
    ensures times { IfSome result.kept (λ k. All (C.reads clock.now) (times k.past)) }
    ensures takes { Takes most_guest_bytes result.status
        (S.remaining src.old) (S.remaining src.new) }
    ensures untold { result.status ≡ Status.Done
        → SomeMigrated result.kept (O.told out) (O.told result.out) }
    ensures ends { IfTold (S.remaining src.old) (λ bytes.
        IsGuestFile bytes → EndsRun result.status) }
    ensures outlet { result.status ≡ Status.Outlet → Rose (O.faults out) (O.faults result.out) }
    ensures source { result.status ≡ Status.Source → Rose (S.faults src.old) (S.faults src.new) }
    ensures unput { result.kept ≡ None → result.out ≡ out }
{
    match read_input(alloc, src) {
        Ok(guest) => step(alloc, guest, out, clock),
        Err(status) => Finished {
            status,
            out,
            kept: None,
        },
    }
}

/// The command `load`: reads a migration stream from the source, and puts its image and a line of
/// report.
fn load_input<S: Source, O: Outlet>(alloc: Global, src: &mut S, mut out: O) -> PlainEnd<O>
    ensures load { IsSomeBut Status.Words result.status }
    ensures says { IfSome result.status (λ s.
        LoadSays s (S.remaining src.old) (O.told out) (O.told result.out)) }
    ensures takes { IfSome result.status (λ s.
        Takes most_stream_bytes s (S.remaining src.old) (S.remaining src.new)) }
    ensures ends { IfSome result.status (λ s.
        IfTold (S.remaining src.old) (λ bytes. LoadEnds s bytes)) }
    ensures outlet { result.status ≡ Some Status.Outlet
        → Rose (O.faults out) (O.faults result.out) }
    ensures source { result.status ≡ Some Status.Source
        → Rose (S.faults src.old) (S.faults src.new) }
    ensures trouble { is_some result.trouble ≡ has_refused_stream result.status }
    ensures unkept { result.kept ≡ None }
    ensures unput { result.status ≢ Some Status.Done → result.status ≢ Some Status.Outlet
        → result.out ≡ out }
{
    let Loaded { status, trouble } = load(alloc, src, &mut out);
    PlainEnd {
        status: Some(status),
        out,
        kept: None,
        trouble,
    }
}

/// Does a command that needs no threads: `step` reads a guest file from the source, migrates the
/// guest, and puts the stream, the image, the report and the journal; `load` reads a migration
/// stream, and puts its image and a line of report. Where the words are `run` or no command,
/// nothing is done.
pub fn plain_main<S: Source, O: Outlet, C: Clock>(
    alloc: Global,
    words: &[String],
    src: &mut S,
    out: O,
    clock: &C,
) -> PlainEnd<O>
    ensures words { (result.status ≡ Some Status.Words)
        ↔ (is_command (map string_bytes words.now) ≡ false) }
    ensures run { (result.status ≡ None) ↔ (is_run (map string_bytes words.now) ≡ true) }
    ensures step { is_step (map string_bytes words.now) ≡ true
        → IsSomeBut Status.Words result.status }
    ensures load { is_load (map string_bytes words.now) ≡ true
        → IsSomeBut Status.Words result.status }
    ensures says { IfSome result.status (λ s. SaysOf (command_of (map string_bytes words.now)) s
        (S.remaining src.old) result.kept (O.told out) (O.told result.out)) }
    ensures scheduled { IfSome result.kept (λ k. IfSome result.status (λ s.
        SchedulesAs s k.guest k.past)) }
    ensures times { IfSome result.kept (λ k. All (C.reads clock.now) (times k.past)) }
    ensures takes { IfSome result.status (λ s. TakesOf (command_of (map string_bytes words.now)) s
        (S.remaining src.old) (S.remaining src.new)) }
    ensures untold { is_load (map string_bytes words.now) ≡ false
        → result.status ≡ Some Status.Done
        → SomeMigrated result.kept (O.told out) (O.told result.out) }
    ensures ends { IfSome result.status (λ s.
        EndsOf (command_of (map string_bytes words.now)) s (S.remaining src.old)) }
    ensures outlet { result.status ≡ Some Status.Outlet
        → Rose (O.faults out) (O.faults result.out) }
    ensures source { result.status ≡ Some Status.Source
        → Rose (S.faults src.old) (S.faults src.new) }
    ensures trouble { is_some result.trouble ≡ has_refused_stream result.status }
    ensures unread { is_step (map string_bytes words.now) ≡ false
        → is_load (map string_bytes words.now) ≡ false → src.new ≡ src.old }
    ensures unkept { is_step (map string_bytes words.now) ≡ false → result.kept ≡ None }
    ensures unput { PutsNone (command_of (map string_bytes words.now)) result.status result.kept
        → result.out ≡ out }
{
    match read_command(words) {
        Some(Command::Step(_)) => {
            let Finished { status, out, kept } = step_input(alloc, src, out, clock);
            PlainEnd {
                status: Some(status),
                out,
                kept,
                trouble: None,
            }
        }
        Some(Command::Load(_)) => load_input(alloc, src, out),
        Some(Command::Run(_)) => undone(None, out),
        None => undone(Some(Status::Words), out),
    }
}
