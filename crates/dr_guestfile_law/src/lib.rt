//! The law of the guest file: the canonical text of a valid guest says that guest again.
#![tactic(auto)]

mod law;

pub use law::written_is_read;
