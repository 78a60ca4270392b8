ghost use Rattle.std.specs.Prelude.{◌≡◌, ◌≤◌, OnOk, OnErr, IfOk, IfErr};
ghost use Rattle.dr_types.specs.Ports.{put_at, put_all, PutsCut, Rose};
ghost use Rattle.dr_types.specs.Validity.{IsValid};
ghost use Rattle.dr_history.specs.Journal.{journal_text};
ghost use Rattle.dr_history.specs.Legality.{IsLegalSoFar};
ghost use Rattle.dr_history.specs.Memory.{image_of};
ghost use Rattle.dr_history.specs.Report.{report_of};
ghost use Rattle.dr_history.specs.Stream.{stream_of};
ghost use Rattle.dr_run.specs.Outcomes.{SendsAs, StandsAs};
ghost use Rattle.dr_turns.specs.declared.answers.RunEnd.TheVariants as end;
ghost use Rattle.dr_plain.specs.Ended.{IsWhole};
ghost use Rattle.dr_command_io.specs.Puts.{IsFault, PutsPart};
ghost use Rattle.dr_plain.specs.Puts.{puts_after, puts_of, texts_of};

use crate::journal::journal;
use dr_command_io::{PutFault, put};
use dr_history::History;
use dr_io::{Outlet, Port};
use dr_machine::Machine;
use dr_report::report_text;
use dr_ring::Name;
use dr_run::OutcomeEnd;
use dr_slots::page_count;
use dr_types::{Guest, Status};
use std::alloc::Global;

/// Puts the guest's memory on Image, page by page.
#[tactic(auto, using(crate::proofs::Images::page_more, crate::proofs::Images::no_page))]
fn put_image<N: Name, O: Outlet>(machine: &Machine<N>, out: &mut O) -> Result<(), PutFault>
    ensures done { OnOk result (O.told out.new
        ≡ put_at Port.Image (image_of N.guest machine.now.past) (O.told out.old)) }
    ensures cut { let image = image_of N.guest machine.now.past in
        OnErr result (PutsPart Port.Image image (O.told out.old) (O.told out.new)) }
    ensures later { O.faults out.old ≤ O.faults out.new }
    ensures fault { IfErr result (IsFault (O.faults out.old) (O.faults out.new)) }
{
    for page in 0..page_count(machine.guest()) {
        put(out, Port::Image, machine.page(page))?;
    }
    Ok(())
}

/// Puts the report of a history.
fn put_report<O: Outlet>(
    alloc: Global,
    guest: &Guest,
    history: &History,
    out: &mut O,
) -> Result<(), PutFault>
    requires valid { IsValid guest.now }
    requires legal { IsLegalSoFar guest.now history.now.past }
    ensures done { OnOk result (O.told out.new
        ≡ put_at Port.Report (report_of guest.now history.now.past) (O.told out.old)) }
    ensures cut { let report = report_of guest.now history.now.past in
        OnErr result (PutsPart Port.Report report (O.told out.old) (O.told out.new)) }
    ensures later { O.faults out.old ≤ O.faults out.new }
    ensures fault { IfErr result (IsFault (O.faults out.old) (O.faults out.new)) }
{
    let report = report_text(alloc, history, guest)?;
    put(out, Port::Report, report.as_bytes())
}

/// Puts the journal: the guest's text and the history's. Where nobody wants it no text is made.
#[tactic(auto, using(dr_io::proofs::Silence::untold_put))]
fn put_journal<O: Outlet>(
    alloc: Global,
    guest: &Guest,
    history: &History,
    out: &mut O,
) -> Result<(), PutFault>
    requires { IsValid guest.now }
    ensures done { OnOk result (O.told out.new
        ≡ put_at Port.Journal (journal_text guest.now history.now.past) (O.told out.old)) }
    ensures cut { let journal = journal_text guest.now history.now.past in
        OnErr result (PutsPart Port.Journal journal (O.told out.old) (O.told out.new)) }
    ensures later { O.faults out.old ≤ O.faults out.new }
    ensures fault { IfErr result (IsFault (O.faults out.old) (O.faults out.new)) }
{
    if !out.is_wanted(Port::Journal) {
        return Ok(());
    }
    let journal = journal(alloc, guest, history)?;
    put(out, Port::Journal, journal.as_bytes())
}

/// Puts the report and the journal. After an `Err` nothing more is put: all puts before one were
/// made, and a first part of that one.
fn put_texts<O: Outlet>(
    alloc: Global,
    guest: &Guest,
    history: &History,
    out: &mut O,
) -> Result<(), PutFault>
    requires valid { IsValid guest.now }
    requires legal { IsLegalSoFar guest.now history.now.past }
    ensures done { let puts = texts_of guest.now history.now.past in
        OnOk result (O.told out.new ≡ put_all puts (O.told out.old)) }
    ensures cut { let puts = texts_of guest.now history.now.past in
        OnErr result (PutsCut puts (O.told out.old) (O.told out.new)) }
    ensures later { O.faults out.old ≤ O.faults out.new }
    ensures fault { IfErr result (IsFault (O.faults out.old) (O.faults out.new)) }
{
    put_report(alloc, guest, history, out)?;
    put_journal(alloc, guest, history, out)
}

/// Puts what stands after the stream where the guest has switched over: the image and the texts.
fn put_switched<N: Name, O: Outlet>(
    alloc: Global,
    machine: &Machine<N>,
    out: &mut O,
) -> Result<(), PutFault>
    ensures done { let puts = puts_after end.Switched N.guest machine.now.past in
        OnOk result (O.told out.new ≡ put_all puts (O.told out.old)) }
    ensures cut { let puts = puts_after end.Switched N.guest machine.now.past in
        OnErr result (PutsCut puts (O.told out.old) (O.told out.new)) }
    ensures later { O.faults out.old ≤ O.faults out.new }
    ensures fault { IfErr result (IsFault (O.faults out.old) (O.faults out.new)) }
{
    // The image before the texts: a report that says `switched` has its image beside it.
    put_image(machine, out)?;
    put_texts(alloc, machine.guest(), machine.history(), out)
}

/// Puts what stands after the stream of a run, by how it ended, and answers the status of one that
/// was not cut off.
pub fn put_after<N: Name, O: Outlet>(
    alloc: Global,
    machine: &Machine<N>,
    end: OutcomeEnd,
    out: &mut O,
) -> Result<Status, PutFault>
    requires stands { StandsAs end N.guest machine.now.past }
    requires sends { SendsAs end (stream_of N.guest machine.now.past) N.ports (O.told out.old) }
    requires later { N.faults ≤ O.faults out.old }
    requires risen { end ≡ OutcomeEnd.Sink → Rose N.faults (O.faults out.old) }
    ensures whole { IfOk result (IsWhole end) }
    ensures done { let puts = puts_of N.guest machine.now.past in
        OnOk result (O.told out.new ≡ put_all puts N.ports) }
    ensures cut { let puts = puts_of N.guest machine.now.past in
        OnErr result (PutsCut puts N.ports (O.told out.new)) }
    ensures fault { IfErr result (IsFault N.faults (O.faults out.new)) }
{
    match end {
        OutcomeEnd::Switched => {
            put_switched(alloc, machine, out)?;
            Ok(Status::Done)
        }
        OutcomeEnd::Budget => {
            put_texts(alloc, machine.guest(), machine.history(), out)?;
            Ok(Status::Unfinished)
        }
        OutcomeEnd::Sink => Err(PutFault::Outlet),
        OutcomeEnd::Memory => Err(PutFault::Memory),
    }
}
