//! The user seats of all vCPUs under one name, with what they harvested and no batch has yet.
#![tactic(auto)]

mod collector;
mod fills;
mod pending;
#[cfg(test)]
mod tests;

pub use collector::Collector;
