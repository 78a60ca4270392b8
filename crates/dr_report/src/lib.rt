//! The text report of a legal history.
#![tactic(auto)]

mod answer;
mod draft;
mod report;
mod tally;
#[cfg(test)]
mod tests;

pub use report::report_text;
