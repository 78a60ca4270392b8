//! The top call of the command `run`: from its words and the bytes of a guest file, by a run in
//! threads, to what stands on its four ports.
#![tactic(auto)]

mod live;
#[cfg(test)]
mod tests;
mod top;

pub use top::{LiveEnd, live_main};
