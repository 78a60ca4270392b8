//! A bench beside its collector as tables: what each call answers, the events that it leaves, and
//! the bytes that it put.
#![tactic(auto)]

mod calls;
mod driving;
mod reaping;
mod run;
#[cfg(test)]
mod tests;
mod twice;

pub use calls::Call;
pub use run::{Row, does_so};
