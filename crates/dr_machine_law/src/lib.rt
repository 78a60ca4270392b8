//! What the turns of a machine leave.
#![tactic(auto)]

mod advances;
mod exits;
mod ops;
mod reaps;
mod starts;

pub use advances::advance;
pub use exits::exit;
pub use ops::op;
pub use reaps::{deposit, flush, reset_turn};
pub use starts::start;
