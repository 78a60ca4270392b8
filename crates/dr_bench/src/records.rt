ghost use Rattle.std.specs.Prelude.{◌≡◌, ◌<◌, ◌-◌, ◌^◌, true, if◌then◌else◌};
ghost use Rattle.dr_bench.specs.Records.{is_stopping, opens_at, parts_put, records_after};
ghost use Rattle.dr_history.specs.Parts.{parts_bytes};
ghost use Rattle.dr_machine.specs.Copies.{CopiesWithin};
ghost use Rattle.dr_stream.specs.Sending.{Sends};

use dr_io::{Outlet, PutTurn};
use dr_machine::Machine;
use dr_ring::Name;
use dr_slots::page_count;
use dr_stream::Sender;
use dr_turns::Advance;
use dr_types::Guest;

/// Whether the guest is stopped after an advance.
pub fn stopped_after(stopped: bool, due: Advance) -> bool
    ensures { result ≡ (if is_stopping due then true else stopped) }
{
    match due {
        Advance::Stopping => true,
        _ => stopped,
    }
}

/// The advance answers a round whose pages are to be copied.
pub fn opens_at(guest: &Guest, stopped: bool, due: Advance) -> bool
    ensures { result ≡ opens_at guest.now stopped due }
{
    match due {
        Advance::Answered { r: _, pages } => pages > guest.settings.threshold || stopped,
        _ => false,
    }
}

/// Puts the record of an advance by one put, where it has one.
#[tactic(auto, using(crate::proofs::Advancing::sends_none))]
pub fn put_record<N: Name, O: Outlet>(
    sender: &mut Sender<O>,
    machine: &Machine<N>,
    due: Advance,
    opens: bool,
) -> PutTurn
    requires few { sender.old.records < 2 ^ 32 - 1 }
    requires within { CopiesWithin N.guest due }
    ensures { let parts = parts_put N.guest machine.now.past due opens sender.old.records in
        let records = records_after due sender.old.records in
        Sends sender.old (parts_bytes parts) result sender.new records }
{
    match due {
        Advance::Started => sender.header(page_count(machine.guest())),
        Advance::Answered { r, pages: _ } if opens => sender.round(r),
        // From the machine's own memory into the record: no page is kept between.
        Advance::Copied { r: _, page } => sender.page(page, machine.page(page)),
        Advance::Blank { r: _, first, count } => sender.zeros(first, count),
        Advance::Switched => sender.finish(),
        _ => PutTurn::Done,
    }
}
