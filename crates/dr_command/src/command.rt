ghost use Rattle.std.specs.Prelude.{◌≡◌, ℕ, List, true, false, map, string_bytes};
ghost use Rattle.std.specs.Str.{bytes_eq};
ghost use Rattle.dr_command.specs.Words.{
  command_named,
  command_of,
  is_load,
  is_run,
  is_step,
  load_with,
  paths_of,
};

use crate::paths::{Paths, read_paths};

/// A command, with where its paths stand among the words.
#[derive(Clone, Copy, Debug, PartialEq, Eq, Drop)]
pub enum Command {
    /// A migration on one thread, by the schedule.
    Step(Paths),
    /// A migration in threads.
    Run(Paths),
    /// A migration stream that is loaded. It says no path of a stream or a journal.
    Load(Paths),
}

impl Command {
    /// Where its paths stand.
    pub fn paths(self) -> Paths
        ensures { result ≡ paths_of self }
    {
        match self {
            Command::Step(paths) | Command::Run(paths) | Command::Load(paths) => paths,
        }
    }
}

/// The command `load`, which has neither of the paths of a stream and a journal.
fn load_with(paths: Paths) -> Option<Command>
    ensures { result ≡ load_with paths }
{
    if paths.stream.is_some() || paths.journal.is_some() {
        None
    } else {
        Some(Command::Load(paths))
    }
}

/// The command of this name.
fn command_named(name: &str, paths: Paths) -> Option<Command>
    ensures { result ≡ command_named name.now paths }
{
    if name == "step" {
        Some(Command::Step(paths))
    } else if name == "run" {
        Some(Command::Run(paths))
    } else if name == "load" {
        load_with(paths)
    } else {
        None
    }
}

/// The command that the words are: its name, and then each of its options at most once, with
/// the next word as its path. `None` where they are no command.
pub fn read_command(words: &[String]) -> Option<Command>
    ensures { result ≡ command_of (map string_bytes words.now) }
{
    if words.is_empty() {
        return None;
    }
    let paths = read_paths(words)?;
    command_named(words[0].as_str(), paths)
}

/// No words are two commands.
pub fn no_words_are_two_commands()
    ensures step { (words : List (List ℕ)) → is_step words ≡ true
        → (is_run words ≡ false) × (is_load words ≡ false) }
    ensures run { (words : List (List ℕ)) → is_run words ≡ true
        → (is_step words ≡ false) × (is_load words ≡ false) }
{}
