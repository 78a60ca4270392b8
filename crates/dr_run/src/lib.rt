//! A whole run on one thread: from the rings of a guest to its switch-over, or to the end of its
//! rounds.
#![tactic(auto)]

mod outcome;
mod run;

pub use outcome::{Outcome, OutcomeEnd, RunOutcome, end_of};
pub use run::{Ready, make_ready, step_run};
