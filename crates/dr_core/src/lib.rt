//! The judge of histories: it takes an event that breaks no rule, and names the least rule that
//! another breaks.
#![tactic(auto)]

mod keeper;

pub use keeper::{Core, CoreFault};
