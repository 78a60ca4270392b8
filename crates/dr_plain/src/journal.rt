ghost use Rattle.std.specs.Prelude.{◌≡◌, IfOk};
ghost use Rattle.dr_history.specs.Journal.{journal_text};

use dr_guestfile::write_guest;
use dr_history::History;
use dr_types::{Guest, Memory, Text};
use std::alloc::Global;

/// The journal: the guest's canonical text, a line `journal`, the events' lines and a line `end`.
#[tactic(auto, unfolding(dr_types::specs::Lines::line_text))]
pub fn journal(alloc: Global, guest: &Guest, history: &History) -> Result<Text, Memory>
    ensures { IfOk result (λ text. text ≡ journal_text guest.now history.now.past) }
{
    let mut journal = write_guest(alloc, guest)?;
    journal.push_str("journal\n")?;
    journal.push_str(history.text(alloc)?.as_str())?;
    journal.push_str("end\n")?;
    Ok(journal)
}
