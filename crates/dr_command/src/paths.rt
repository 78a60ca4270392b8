ghost use Rattle.std.specs.Prelude.{◌≡◌, ◌+◌, ◌<◌, ◌^◌, Some, string_bytes, length, map, drop};
ghost use Rattle.std.specs.Str.{bytes_eq};
ghost use Rattle.dr_command.specs.Words.{no_paths, paths_from, said_once, with_named, with_option};

/// Where the paths of a command stand among its words; `None` for a path that isn't said.
#[derive(Clone, Copy, Debug, PartialEq, Eq, Drop)]
pub struct Paths {
    pub input: Option<usize>,
    pub stream: Option<usize>,
    pub image: Option<usize>,
    pub journal: Option<usize>,
}

impl Paths {
    /// No path is said.
    pub fn none() -> Paths
        ensures { result ≡ no_paths }
    {
        Paths {
            input: None,
            stream: None,
            image: None,
            journal: None,
        }
    }
}

/// A path's place, where none was said before.
fn said_once(said: Option<usize>, at: usize) -> Option<Option<usize>>
    ensures { result ≡ said_once said at }
{
    match said {
        None => Some(Some(at)),
        Some(_) => None,
    }
}

/// The paths with one more, whose option has this name and whose word stands at this place.
fn with_named(paths: Paths, name: &str, at: usize) -> Option<Paths>
    ensures { result ≡ with_named paths name.now at }
{
    if name == "--in" {
        let input = said_once(paths.input, at)?;
        Some(Paths { input, ..paths })
    } else if name == "--stream" {
        let stream = said_once(paths.stream, at)?;
        Some(Paths { stream, ..paths })
    } else if name == "--image" {
        let image = said_once(paths.image, at)?;
        Some(Paths { image, ..paths })
    } else if name == "--journal" {
        let journal = said_once(paths.journal, at)?;
        Some(Paths { journal, ..paths })
    } else {
        None
    }
}

/// The paths with one more: an option takes the next word as its path, but no empty one.
fn with_option(paths: Paths, name: &str, path: &str, at: usize) -> Option<Paths>
    ensures { result ≡ with_option paths name.now path.now at }
{
    if path.is_empty() {
        None
    } else {
        with_named(paths, name, at)
    }
}

/// The paths that the words after the first say: each option at most once, with the next word as
/// its path. `None` where they say something else.
pub(crate) fn read_paths(words: &[String]) -> Option<Paths>
    ensures { result ≡ paths_from (drop 1 (map string_bytes words.now)) 1 (Some no_paths) }
{
    let mut paths = Paths::none();
    let mut at = 1;
    while at < words.len() {
        if at + 1 == words.len() {
            return None;
        }
        paths = with_option(paths, words[at].as_str(), words[at + 1].as_str(), at + 1)?;
        at += 2;
    }
    Some(paths)
}
