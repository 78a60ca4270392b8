//! What the program says where a command was not done, and the exit code that it ends with.
#![tactic(auto)]

mod endings;
mod paths;
mod refusal;

pub use endings::{explain_end, refuse_memory, refuse_unheld, refuse_words};
pub use paths::NamedPaths;
pub use refusal::{Refusal, Spent};
