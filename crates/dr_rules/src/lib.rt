//! The rules of a legal history, judged by what a log tells of the events so far.
#![tactic(auto)]

mod answers;
mod deposits;
mod execution;
mod judge;
mod memory;
mod names;
mod ops;
mod paces;
mod protection;
mod rounds;
mod throttles;

pub use judge::broken;
pub use throttles::may_end;
