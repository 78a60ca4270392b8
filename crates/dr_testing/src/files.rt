use std::alloc::{AllocError, Global};

/// The lines of a small guest up to its slots.
pub const SETTINGS: &str =
    "dirtyguest 1\nring 8\nreserve 2\nbuffer 0\npace 16\nthreshold 0\nrounds 2\nquota 0\n";

/// A guest of one page, whose sections are this, from line 10 on.
pub fn with_sections(alloc: Global, sections: &str) -> Result<String, AllocError> {
    format!(in alloc; "{SETTINGS}slot 0 0 1\n{sections}")
}
