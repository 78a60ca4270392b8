//! The machine: a guest, its legal history and the kernel seats of its rings. Each turn appends its
//! block of events; none is judged, since each is legal by proof.
#![tactic(auto)]

mod advances;
mod copies;
mod deposits;
mod executions;
mod exits;
mod kept;
mod machine;
mod pushes;
mod resets;
mod rig;
mod seated;

pub use deposits::DepositFault;
pub use dr_turns::{Advance, RunEnd, Turn};
pub use kept::Kept;
pub use machine::Machine;
pub use rig::{Rig, new_rig, rings_for};
