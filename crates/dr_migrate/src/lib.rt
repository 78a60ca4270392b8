//! A migration on one thread, by the schedule.
#![tactic(auto)]

mod context;
mod leaving;
mod reaping;
mod run;
mod waits;

pub use run::drive;
