//! The top call: a command that needs no threads, from its words and the bytes of a guest file to
//! what stands on its four ports.
#![tactic(auto)]

mod ending;
mod input;
mod journal;
mod leaving;
mod plain;
mod step;

pub use input::read_input;
pub use leaving::{Finished, finish};
pub use plain::{PlainEnd, plain_main};
