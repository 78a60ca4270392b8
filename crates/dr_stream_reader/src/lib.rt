//! The reader of a migration stream of version 1 or 2: record by record, or the image that it
//! loads as.
#![tactic(auto)]

mod bytes;
mod header;
mod image;
mod memory;
mod reader;
mod record;
mod standing;
#[cfg(test)]
mod tests;

pub use image::{Image, read_stream};
pub use reader::StreamReader;
pub use record::Record;
pub use standing::Standing;
