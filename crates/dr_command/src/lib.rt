//! The words of a command: which command they are, and where its paths stand among them.
#![tactic(auto)]

mod command;
mod paths;
#[cfg(test)]
mod tests;

pub use command::{Command, no_words_are_two_commands, read_command};
pub use paths::Paths;
