use crate::fault::{FileFault, StreamFault};

/// How a command ended.
#[derive(Clone, Copy, Debug, PartialEq, Eq)]
pub enum Status {
    /// It was done.
    Done,
    /// The words are no command.
    Words,
    /// The guest file is refused.
    GuestFile(FileFault),
    /// The journal's text is refused at this line.
    JournalText { line: u64 },
    /// The rounds came to their end, and too many pages were left.
    Unfinished,
    /// A put failed.
    Outlet,
    /// A read failed.
    Source,
    /// An allocation was refused.
    Memory,
    /// The journal's history breaks this rule at this event, counted from 0.
    IllegalJournal { event: u64, rule: u32 },
    /// The migration stream is refused.
    BadStream(StreamFault),
    /// The input has more bytes than the command takes.
    TooLong,
}
