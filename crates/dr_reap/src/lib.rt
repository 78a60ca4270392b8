//! Reaps of a bench: batches are deposited, their entries reset, and the permissions dropped.
#![tactic(auto)]

mod deposits;
mod harvests;
mod laws;
mod notes;
mod reaps;
mod resets;
mod settling;

pub use laws::{
    advance_keeps_all_deposited, begins_all_deposited, exit_keeps_all_deposited,
    flush_keeps_all_deposited, op_keeps_all_deposited,
};
pub use notes::{note_of, notes_of};
pub use reaps::{reap_all, reap_one};
pub use settling::settle;
