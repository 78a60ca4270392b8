//! What the shell that began the program sees of it: the exit code of each status, and texts of the
//! user's with their control characters escaped.
#![tactic(auto)]

mod codes;
mod shown;
#[cfg(test)]
mod tests;

pub use codes::{exit_code, last_code};
pub use shown::Shown;
