//! The lines of a guest file, the words of a line, and the numbers that words stand for.
#![tactic(auto)]

mod lines;
mod numbers;
mod words;

pub use lines::{Line, Lines};
pub use numbers::{decimal, hex_byte, hex_word, number, spaced_number};
pub use words::Words;
