//! What the tables of tests share: small guest files, and whether a text is read or refused.
#![tactic(auto)]

mod faults;
mod files;
mod texts;

pub use faults::Kind;
pub use files::{SETTINGS, with_sections};
pub use texts::{is_refused, says, stays};
