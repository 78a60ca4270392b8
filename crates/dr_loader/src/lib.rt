//! The command `load`: a migration stream from anyone is read whole, and its image is put page by
//! page, or its first fault is answered.
#![tactic(auto)]

mod line;
mod loading;
mod pages;

pub use loading::{Loaded, load};
