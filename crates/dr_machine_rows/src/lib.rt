//! The turns of a machine as tables: what each call answers, and the events that it leaves.
#![tactic(auto)]

mod calls;
#[cfg(test)]
mod tests;

pub use calls::{Call, answer_so};
