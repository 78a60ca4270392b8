ghost use Rattle.std.specs.Prelude.{◌≡◌, ◌<◌, ◌^◌, [], length, reverse, map, string_bytes, IfOk};
ghost use Rattle.std.specs.Prelude.{OnOk};
ghost use Rattle.dr_types.specs.Validity.{IsValid};
ghost use Rattle.dr_history.specs.Legality.{IsLegalSoFar};
ghost use Rattle.dr_history.specs.Lookback.{below};
ghost use Rattle.dr_history.specs.Report.{guest_line, report_of};
ghost use Rattle.dr_report.specs.Tallies.{tally_of};
ghost use Rattle.dr_report.specs.Draft.{sheet_of};

use crate::draft::Draft;
use crate::tally::Tally;
use dr_history::{Event, History};
use dr_slots::page_count;
use dr_types::{Guest, Memory, Text};
use std::alloc::Global;
use std::fmt::Write;

/// The report of a history of which each event is legal: a line for the guest, the lines of each
/// answer, a line for each vCPU, and whether the guest switched over. It reads each event once.
pub fn report_text(alloc: Global, history: &History, guest: &Guest) -> Result<Text, Memory>
    requires valid { IsValid guest.now }
    requires legal { IsLegalSoFar guest.now history.now.past }
    ensures { IfOk result (λ text. text ≡ report_of guest.now history.now.past) }
{
    let mut draft = Draft::new(
        guest_line(alloc, guest)?,
        new_tallies(alloc, guest.scripts.len())?,
    );
    take_all(&mut draft, guest, history.events())?;
    Ok(Text::from_string(draft.finish()?))
}

/// The first line.
#[tactic(auto, unfolding(dr_history::specs::Report::guest_line, dr_types::specs::Lines::line_text))]
fn guest_line(alloc: Global, guest: &Guest) -> Result<String, Memory>
    requires { IsValid guest.now }
    ensures { IfOk result (λ text. string_bytes text ≡ guest_line guest.now) }
{
    let settings = guest.settings;
    let pages = page_count(guest);
    let vcpus = guest.scripts.len();
    let ring = settings.ring;
    let soft = settings.soft_limit();
    let mut text = String::new(alloc);
    write!(
        text,
        "guest pages {pages} vcpus {vcpus} ring {ring} soft {soft}\n"
    )?;
    Ok(text)
}

/// The tallies of so many vCPUs before the first event.
fn new_tallies(alloc: Global, vcpus: usize) -> Result<Vec<Tally>, Memory>
    ensures { IfOk result (λ tallies. tallies.items ≡ map (tally_of []) (below vcpus)) }
{
    let mut tallies = Vec::new(alloc);
    for v in 0..vcpus {
        tallies.push(Tally {
            entries: 0,
            answered_entries: 0,
            answered_rate: 0,
            throttle_us: 0,
            ops: 0,
            full_exits: 0,
            kicked_exits: 0,
        })?;
    }
    Ok(tallies)
}

/// Takes the events in their order.
fn take_all(draft: &mut Draft, guest: &Guest, events: &[Event]) -> Result<(), Memory>
    requires valid { IsValid guest.now }
    requires legal { IsLegalSoFar guest.now (reverse events.now) }
    requires few { length (reverse events.now) < 2 ^ 63 }
    requires fresh { draft.old ≡ sheet_of guest.now [] }
    ensures { OnOk result (draft.new ≡ sheet_of guest.now (reverse events.now)) }
{
    for e in events {
        draft.take(e)?;
    }
    Ok(())
}
