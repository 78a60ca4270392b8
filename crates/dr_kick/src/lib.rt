//! A bell: a count that threads raise, and wait for.
#![tactic(auto)]

mod bell;

pub use bell::Bell;
