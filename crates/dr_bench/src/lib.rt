//! The bench: a machine, and the sender that puts each record of its stream in the same turn.
#![tactic(auto)]

mod bench;
mod records;

pub use bench::{Bench, BenchFault};
