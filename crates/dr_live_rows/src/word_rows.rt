//! The words of a command.

use crate::runs::command;
use dr_io::FixedClock;
use dr_plain_testing::lengths;
use dr_types::{FileFault, Status};
use std::alloc::{AllocError, Global};
use std::sync::Wait;
use std::test::Fail;
use std::thread::Threads;

/// Words that are another command or none.
const OTHER_ROWS: &[&[&str]] = &[
    &[],
    &["step"],
    &["step", "--in", "a"],
    &["walk"],
    &["run", "run"],
    &["run", "--in"],
    &["run", "--image", ""],
];

/// Words that are the command `run`: an empty file is refused for its first line.
const RUN_ROWS: &[&[&str]] = &[&["run"], &["run", "--in", "--stream", "--stream", "--in"]];

/// The command on an empty file ends so, puts nothing and keeps nothing.
fn ends<R: Threads + Wait + Sync>(
    rt: &R,
    alloc: Global,
    words: &[&str],
    status: Status,
) -> Result<bool, AllocError> {
    let end = command(rt, alloc, words, "", &[], &FixedClock { now: 0 })?;
    let nothing = end.kept.is_none() && lengths(&end.out) == [0, 0, 0, 0];
    Ok(end.status == status && nothing)
}

#[test]
fn knows_its_words(rt: HostRuntime) -> Result<(), Fail> {
    for &row in OTHER_ROWS {
        assert!(rt; ends(&rt, rt.alloc(), row, Status::Words)?, "at {row:?}");
    }
    let refused = Status::GuestFile(FileFault::Magic { no: 1 });
    for &row in RUN_ROWS {
        assert!(rt; ends(&rt, rt.alloc(), row, refused)?, "at {row:?}");
    }
    Ok(())
}
