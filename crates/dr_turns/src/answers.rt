use dr_types::Step;

/// What came of a vCPU's turn.
#[derive(Clone, Copy, Debug, PartialEq, Eq)]
pub enum Turn {
    /// The run was given up.
    Over,
    /// The vCPU has halted.
    Ended,
    /// The guest is stopped.
    Stopped,
    /// The vCPU was in the guest when a round was asked, and hasn't left it since.
    Kicked,
    /// So many places of its ring are in use, which is no less than the soft limit.
    Full { used: u64, soft: u64 },
    /// It executed an op, which asks this of its thread.
    Done(Step),
}

/// What came of an advance.
#[derive(Clone, Copy, Debug, PartialEq, Eq)]
pub enum Advance {
    /// A vCPU has executed too few ops, so many since the start or since the last round was asked.
    NotPaced { v: u32, done: u32 },
    /// Logging began.
    Started,
    /// A vCPU that is kicked is still in the guest.
    NotOut { v: u32 },
    /// An entry that was opened before the round was asked isn't reset.
    NotReset { v: u32, k: u64 },
    /// A page was reset and waits for a flush.
    NotFlushed,
    /// The round was answered with so many pages.
    Answered { r: u32, pages: u32 },
    /// A page of the round was copied.
    Copied { r: u32, page: u32 },
    /// So many pages of the round were copied, from the first on, each of which is zero.
    Blank { r: u32, first: u32, count: u32 },
    /// A round was asked.
    Asked { r: u32 },
    /// The guest was stopped.
    Stopping,
    /// The guest switched over.
    Switched,
    /// It had switched over before.
    Finished,
    /// All rounds were asked, and the last left too many pages.
    Budget,
}

/// Where a run stands.
#[derive(Clone, Copy, Debug, PartialEq, Eq)]
pub enum RunEnd {
    /// It goes on.
    Open,
    /// The guest has switched over.
    Switched,
    /// All rounds were asked, and the last left too many pages.
    Budget,
}
