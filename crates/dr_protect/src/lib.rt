//! Which pages of a guest may be written, and by whom without asking.
#![tactic(auto)]

mod protect;
#[cfg(test)]
mod tests;

pub use protect::Protect;
