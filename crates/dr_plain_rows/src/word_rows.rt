//! The words of a command.

use crate::commands::{ends, is_left};
use dr_types::{FileFault, Status};
use std::test::Fail;

/// Words that are no command.
const OTHER_ROWS: &[&[&str]] = &[
    &[],
    &["walk"],
    &["step", "step"],
    &["step", "--json"],
    &["step", "--in"],
    &["step", "--in", ""],
    &["step", "--in=a"],
    &["step", "--report", "a"],
    &["step", "--in", "a", "--in", "a"],
    &["step", "--image", "a", "--stream", "b", "--image", "c"],
    &["step", "--journal", "a", "b"],
    &["step", "-i", "a"],
    &["step", "--", "a"],
    &["--in", "a", "step"],
    &["run", "run"],
    &["run", "step"],
    &["run", "--in"],
    &["run", "--json"],
    &["run", "--image", "a", "--image", "b"],
    &["--in", "a", "run"],
];

#[test]
fn knows_its_words(rt: HostRuntime) -> Result<(), Fail> {
    for &row in OTHER_ROWS {
        assert!(rt; ends(rt.alloc(), row, b"", Status::Words), "at {row:?}");
    }
    Ok(())
}

/// Words that are a command: an empty file is refused for its first line.
const STEP_ROWS: &[&[&str]] = &[
    &["step"],
    &["step", "--in", "a"],
    &["step", "--in", "--stream", "--stream", "--in"],
    &[
        "step",
        "--journal",
        "a",
        "--image",
        "a",
        "--in",
        "a",
        "--stream",
        "a",
    ],
    &["step", "--image", "step"],
];

#[test]
fn takes_each_option_once(rt: HostRuntime) -> Result<(), Fail> {
    let status = Status::GuestFile(FileFault::Magic { no: 1 });
    for &row in STEP_ROWS {
        assert!(rt; ends(rt.alloc(), row, b"", status), "at {row:?}");
    }
    Ok(())
}

/// Words that are the command `run`, which needs threads.
const RUN_ROWS: &[&[&str]] = &[
    &["run"],
    &["run", "--in", "step"],
    &[
        "run",
        "--journal",
        "a",
        "--image",
        "a",
        "--in",
        "a",
        "--stream",
        "a",
    ],
];

#[test]
fn leaves_a_run_alone(rt: HostRuntime) -> Result<(), Fail> {
    for &row in RUN_ROWS {
        assert!(rt; is_left(rt.alloc(), row, b""), "at {row:?}");
    }
    Ok(())
}
