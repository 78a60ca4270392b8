//! What follows from the events so far, kept so that nobody looks back.
#![tactic(auto)]

mod entries;
mod entry_fields;
mod memory;
mod protection;
mod protection_fields;
mod round_fields;
mod rounds;
mod running;
mod script_fields;
mod state;
mod state_fields;
mod throttle_fields;
mod throttles;
mod vcpus;

pub use entry_fields::{OpenedEntries, OpenedEntry};
pub use protection_fields::Protection;
pub use round_fields::{Answer, Rounds};
pub use script_fields::Running;
pub use state_fields::State;
pub use throttle_fields::Throttles;
pub use vcpus::{Vcpu, Vcpus};
