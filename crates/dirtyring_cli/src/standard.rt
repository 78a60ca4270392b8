use std::rt::Files;
use std::{fs, io};

/// The three lowest descriptors that were free, held by a folder.
///
/// A program may be started with its standard input or output closed. The first file that it opens
/// then gets that number, and what is meant for standard output goes into that file. A folder can
/// be neither read as a file nor written: so while it holds the number, a read of a closed standard
/// input fails, and so does a write to a closed standard output.
#[derive(Drop)]
pub struct Held<F: Drop> {
    first: F,
    second: F,
    third: F,
}

/// A folder, opened.
fn folder<R: Files>(files: &R) -> io::Result<R::File> {
    fs::open(files, "/")
}

/// Holds these descriptors.
pub fn hold_standard<R: Files>(files: &R) -> io::Result<Held<R::File>> {
    let first = folder(files)?;
    let second = folder(files)?;
    let third = folder(files)?;
    Ok(Held {
        first,
        second,
        third,
    })
}
