//! The address spaces of a guest file as tables: lines that are read, and lines that are refused.
#![tactic(auto)]

#[cfg(test)]
mod space_rows;
