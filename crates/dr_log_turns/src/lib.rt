//! The turns of a machine that concern its history alone: which op of a vCPU is next, what is due,
//! and what each appends. None is judged, since each is legal by proof.
#![tactic(auto)]

mod advances;
mod answering;
mod closings;
mod numbers;
mod ops;
mod reads;
mod reasons;
mod rounds;
mod searches;
mod starts;
mod throttles;
mod writes;

pub use advances::advance;
pub use closings::{flush, is_closing};
pub use numbers::{deposited, first_twice, is_next_deposited};
pub use ops::{full_buffer, make_room, next_op, step_after};
pub use reads::{all_out, run_end};
pub use reasons::exit_reason;
pub use throttles::Throttles;
pub use writes::execute;
