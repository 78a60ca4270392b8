//! The outside of a run: the source, the outlet, the clock and the gate, their ends in memory, and
//! the adapters over the standard library's.
#![tactic(auto)]

mod adapters;
mod byte_source;
mod clock;
mod gate;
mod outlet;
mod port_book;
mod reading;
mod source;
mod system_clock;
#[cfg(test)]
mod tests;

pub use adapters::{PortFiles, ReadSource};
pub use byte_source::ByteSource;
pub use clock::{Clock, FixedClock};
pub use dr_types::Port;
pub use gate::{Gate, OpenGate, Who};
pub use outlet::{Outlet, PutTurn};
pub use port_book::PortBook;
pub use reading::{ReadFault, read_all};
pub use source::{ReadTurn, Source};
pub use system_clock::SystemClock;
