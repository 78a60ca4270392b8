//! A command over a file in memory.

use dr_guestfile::write_guest;
use dr_io::{ByteSource, FixedClock, Port, PortBook};
use dr_machine::Kept;
use dr_plain::{PlainEnd, plain_main};
use dr_types::{Listed, Memory, Status};
use std::alloc::{AllocError, Global};

fn words_of(alloc: Global, words: &[&str]) -> Result<Vec<String>, AllocError> {
    let mut all = Vec::new(alloc);
    for word in words {
        all.push(String::from_str(alloc, word)?)?;
    }
    Ok(all)
}

/// Does a command on a file.
fn command(alloc: Global, words: &[&str], file: &[u8]) -> Result<PlainEnd<PortBook>, AllocError> {
    let bytes = Listed::from_vec(file.to_vec(alloc)?);
    let mut source = ByteSource::new(bytes, 4096, Listed::new(alloc));
    let out = PortBook::new(alloc, Listed::new(alloc));
    let words = words_of(alloc, words)?;
    let clock = FixedClock { now: 0 };
    Ok(plain_main(alloc, words.as_slice(), &mut source, out, &clock))
}

/// Nothing was put on any port.
fn is_empty(out: &PortBook) -> bool {
    for port in [Port::Report, Port::Stream, Port::Image, Port::Journal] {
        if !out.bytes(port).is_empty() {
            return false;
        }
    }
    true
}

/// A run came to its end.
fn is_run(status: Status) -> bool {
    status == Status::Done || status == Status::Unfinished
}

/// A command on a file ends so; where it is a run that came to its end something was put and is
/// kept, else nothing. `false` also where memory is refused.
pub fn ends(alloc: Global, words: &[&str], file: &[u8], status: Status) -> bool {
    match command(alloc, words, file) {
        Ok(end) => {
            let some = end.kept.is_some() && !is_empty(&end.out);
            let none = end.kept.is_none() && is_empty(&end.out);
            end.status == Some(status) && (if is_run(status) { some } else { none })
        }
        Err(_) => false,
    }
}

/// A command on a file is left alone: there is no status, nothing was put, and nothing is kept.
/// `false` also where memory is refused.
pub fn is_left(alloc: Global, words: &[&str], file: &[u8]) -> bool {
    match command(alloc, words, file) {
        Ok(end) => end.status.is_none() && end.kept.is_none() && is_empty(&end.out),
        Err(_) => false,
    }
}

/// The journal of what is kept: its guest in canonical text, and its events.
fn journal_of(alloc: Global, kept: &Kept) -> Result<String, Memory> {
    let guest = write_guest(alloc, kept.guest())?;
    let events = kept.history().text(alloc)?;
    let mut journal = String::from_str(alloc, guest.as_str())?;
    journal.push_str("journal\n")?;
    journal.push_str(events.as_str())?;
    journal.push_str("end\n")?;
    Ok(journal)
}

/// This is the journal of what is kept.
fn keeps_journal(alloc: Global, kept: &Option<Kept>, journal: &str) -> bool {
    match kept {
        Some(kept) => match journal_of(alloc, kept) {
            Ok(text) => text.as_str() == journal,
            Err(_) => false,
        },
        None => false,
    }
}

/// The run of a guest file ends so; this is the journal that was put, and that of what is kept.
pub fn keeps(alloc: Global, file: &str, status: Status, journal: &str) -> bool {
    match command(alloc, &["step"], file.as_bytes()) {
        Ok(end) => {
            let put = end.out.bytes(Port::Journal) == journal.as_bytes();
            end.status == Some(status) && put && keeps_journal(alloc, &end.kept, journal)
        }
        Err(_) => false,
    }
}
