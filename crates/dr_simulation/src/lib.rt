//! Long simulated migrations, whose events a judge of histories is given.
#![tactic(auto)]

mod asks;
mod migration;
mod rings;
mod vcpus;

pub use asks::events;
pub use migration::migrate;
