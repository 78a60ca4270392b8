//! Dirty rings: a kernel seat that pushes and resets entries, and a user seat that harvests them.
#![tactic(auto)]

mod accesses;
mod kernel;
mod name;
mod note;
mod plays;
mod ring;
#[cfg(test)]
mod tests;
mod user;
mod view;
mod words;

pub use kernel::KernelSeat;
pub use name::Name;
pub use note::Note;
pub use ring::Ring;
pub use user::UserSeat;
