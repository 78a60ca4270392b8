//! What the tables of the top call share: the command `step` over a file in memory, and the texts
//! that small guests leave.
#![tactic(auto)]

mod command;
mod texts;
mod usual;

pub use command::{LARGE_PIECE, Ran, lengths, source, step, step_on};
pub use texts::{guest_file, joined, journal_of, report_of};
pub use usual::{holds_counts, usual_guest, usual_report};
