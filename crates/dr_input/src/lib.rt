//! Where the program has its input from: a source that may keep what it gave, over a reader that
//! notes why a read failed.
#![tactic(auto)]

mod source;
#[cfg(test)]
mod tests;

pub use source::{InputFile, KeptSource, NotedReader};
