ghost use Rattle.std.specs.Prelude.{◌≡◌, map, string_bytes};
ghost use Rattle.dr_command.specs.Words.{is_load};

use dr_command::{Command, Paths, read_command};
use dr_io::Port;
use dr_io_files::PortPaths;
use std::alloc::AllocError;

/// The words of a command, and where its paths stand among them.
#[derive(Clone, Copy)]
pub struct NamedPaths<'a> {
    pub words: &'a [String],
    pub places: Paths,
}

impl<'a> NamedPaths<'a> {
    /// The paths of the command that the words are.
    pub fn of(words: &'a [String]) -> NamedPaths<'a> {
        let places = match read_command(words) {
            Some(command) => command.paths(),
            None => Paths::none(),
        };
        NamedPaths { words, places }
    }

    fn at(&self, place: Option<usize>) -> Option<&'a str> {
        Some(self.words.get(place?)?.as_str())
    }

    /// The words are the command `load`.
    pub fn is_load(&self) -> bool
        ensures { result ≡ is_load (map string_bytes self.now.words.now) }
    {
        match read_command(self.words) {
            Some(Command::Load(_)) => true,
            _ => false,
        }
    }

    /// The path of the input.
    pub fn input(&self) -> Option<&'a str> {
        self.at(self.places.input)
    }

    /// The path of a port.
    pub fn port(&self, port: Port) -> Option<&'a str> {
        match port {
            Port::Report => None,
            Port::Stream => self.at(self.places.stream),
            Port::Image => self.at(self.places.image),
            Port::Journal => self.at(self.places.journal),
        }
    }

    /// The paths of all ports, to keep.
    pub fn ports(&self) -> Result<PortPaths, AllocError> {
        Ok(PortPaths {
            stream: self.kept_path(self.places.stream)?,
            image: self.kept_path(self.places.image)?,
            journal: self.kept_path(self.places.journal)?,
        })
    }

    fn kept_path(&self, place: Option<usize>) -> Result<Option<String>, AllocError> {
        match place.and_then(|at| self.words.get(at)) {
            Some(path) => Ok(Some(path.clone()?)),
            None => Ok(None),
        }
    }
}
