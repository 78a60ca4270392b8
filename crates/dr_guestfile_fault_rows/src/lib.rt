//! What is said of each fault of a guest file, as tables.
#![tactic(auto)]

#[cfg(test)]
mod tests;
