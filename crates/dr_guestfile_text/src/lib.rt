//! The canonical text of a guest: one space between words, no skipped lines, decimal numbers
//! without leading zeros, hex words in lower case.
#![tactic(auto)]

mod writing;

pub use writing::write_guest;
