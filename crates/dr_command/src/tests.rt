//! Which words are which command, and where its paths stand among them.

use crate::{Command, Paths, read_command};
use std::alloc::{AllocError, Global};
use std::test::Fail;

fn words(alloc: Global, words: &[&str]) -> Result<Vec<String>, AllocError> {
    let mut all = Vec::new(alloc);
    for word in words {
        all.push(String::from_str(alloc, word)?)?;
    }
    Ok(all)
}

/// The command that these words are.
fn command(alloc: Global, row: &[&str]) -> Result<Option<Command>, AllocError> {
    let words = words(alloc, row)?;
    Ok(read_command(words.as_slice()))
}

#[test]
fn finds_commands(rt: HostRuntime) -> Result<(), Fail> {
    let none = Paths::none();
    let input = Some(2);
    let rows: [(&[&str], Option<Command>); 16] = [
        (&["step"], Some(Command::Step(none))),
        (&["run"], Some(Command::Run(none))),
        (
            &["step", "--in", "a"],
            Some(Command::Step(Paths { input, ..none })),
        ),
        (
            &["run", "--in", "step"],
            Some(Command::Run(Paths { input, ..none })),
        ),
        (
            &["step", "--in", "--stream", "--stream", "--in"],
            Some(Command::Step(Paths {
                input,
                stream: Some(4),
                ..none
            })),
        ),
        (
            &[
                "run",
                "--journal",
                "a",
                "--image",
                "a",
                "--stream",
                "a",
                "--in",
                "a",
            ],
            Some(Command::Run(Paths {
                input: Some(8),
                stream: Some(6),
                image: Some(4),
                journal: Some(2),
            })),
        ),
        (&["load"], Some(Command::Load(none))),
        (
            &["load", "--image", "a", "--in", "a"],
            Some(Command::Load(Paths {
                input: Some(4),
                image: input,
                ..none
            })),
        ),
        (&["load", "--stream", "a"], None),
        (&["load", "--in", "a", "--journal", "a"], None),
        (&["load", "--in", "a", "--in", "a"], None),
        (&["load", "a"], None),
        (&["step", "--in", ""], None),
        (&["run", "run"], None),
        (&["walk"], None),
        (&[], None),
    ];
    for (row, wanted) in rows {
        let said = command(rt.alloc(), row)?;
        assert_eq!(rt; said, wanted);
        assert_eq!(rt; said.map(|it| it.paths()), wanted.map(|it| it.paths()));
    }
    Ok(())
}
