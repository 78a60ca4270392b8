//! The lines of a guest file's ops as tables: texts that are read, and texts that are refused.
#![tactic(auto)]

#[cfg(test)]
mod op_rows;
