//! The migrator's thread: its rounds until the guest is stopped, and the switch-over.
#![tactic(auto)]

mod migrator;

pub use migrator::{rounds_live, switch_live};
