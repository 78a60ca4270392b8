//! A whole run in threads: each vCPU, the reaper and the migrator in one of its own, and then the
//! end found on one thread, from the state that they left.
#![tactic(auto)]

mod finding;
mod run;
mod threads;

pub use run::live_run;
