//! The rings of all vCPUs with their seats, under the name of one run; batches of entries.
#![tactic(auto)]

mod batch;
mod kernels;
mod lists;
mod rings;
mod set;
#[cfg(test)]
mod tests;
mod users;

pub use batch::Batch;
pub use kernels::KernelSeats;
pub use lists::{BatchList, EntryList, KernelSeatList, NoteList};
pub use rings::Rings;
pub use set::{RingParts, RingSet};
pub use users::UserSeats;
