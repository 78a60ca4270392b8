//! Files as the ports of an outlet: created at the first put, written in large pieces.
#![tactic(auto)]

mod fault;
mod file_ports;
mod identity;
mod opener;
mod pieces;
mod port_end;
mod port_ends;
#[cfg(test)]
mod tests;

pub use fault::{Owner, PortCause, PortFault};
pub use file_ports::FilePorts;
pub use identity::{FileIdentity, OwnedFiles};
pub use opener::{Opener, PathOpener, PortPaths};
