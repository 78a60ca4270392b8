//! What helps to mend a guest file that is refused: where its fault is, what was found there, and
//! what may stand there.
#![tactic(auto)]

mod explaining;
mod found;
mod hints;
mod line_texts;
mod number_texts;
mod op_count;
mod scene;
mod slot_texts;

pub use explaining::{Explained, explain};
