//! The reaper: a thread that empties the rings again and again.
#![tactic(auto)]

mod reaper;

pub use reaper::reap_loop;
