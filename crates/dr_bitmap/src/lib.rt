//! A set of numbers below a length.
#![tactic(auto)]

mod bitmap;
#[cfg(test)]
mod tests;

pub use bitmap::Bitmap;
