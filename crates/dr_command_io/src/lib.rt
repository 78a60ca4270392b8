//! What every command needs of its ends: its input read whole, within its limit, and puts that come
//! to an early end where one fails.
#![tactic(auto)]

mod fault;
mod input;
mod putting;

pub use fault::PutFault;
pub use input::read_whole;
pub use putting::{put, status_of_puts};
