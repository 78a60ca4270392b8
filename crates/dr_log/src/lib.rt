//! A guest with its legal history. Every read tells what the events so far leave, by a look-back
//! over them, and nobody looks back: the state beside the events is known to this crate alone.
#![tactic(auto)]

mod answers;
mod deposits;
mod log;
mod memory;
mod op_event;
mod paces;
mod page_reads;
mod round_reads;
mod rounds;
mod throttles;
mod vcpu_reads;
mod zeros;

pub use log::Log;
