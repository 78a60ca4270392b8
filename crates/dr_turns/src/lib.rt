//! The turns of a machine as types and definitions: what each answers, and what it appends to the
//! events so far. That what they append breaks no rule is shown in `dr_turns_law`.
#![tactic(auto)]

mod answers;

pub use answers::{Advance, RunEnd, Turn};
