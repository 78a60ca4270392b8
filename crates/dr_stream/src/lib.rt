//! The writer of a migration stream: a header, records of rounds and pages, and an end.
#![tactic(auto)]

mod sender;
#[cfg(test)]
mod tests;

pub use sender::Sender;
