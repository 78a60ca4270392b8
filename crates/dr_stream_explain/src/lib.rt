//! What helps to find the damage in a migration stream that is refused: where its fault is, what is
//! there, what may come there, and the last record before it.
#![tactic(auto)]

mod before;
mod coming;
mod found;
mod header_texts;
mod place_texts;
mod record_texts;
mod record_words;
#[cfg(test)]
mod tests;
mod trouble;

pub use trouble::Trouble;
