ghost use Rattle.std.specs.Prelude.{◌≡◌, option_map};
ghost use Rattle.dr_io_files.specs.Paths.{path_of};

use crate::fault::{Owner, PortCause, PortFault};
use crate::identity::{FileIdentity, OwnedFiles};
use dr_io::Port;
use std::fs;
use std::io::Write;
use std::rt::Files;

/// Opens the writers of named ports.
pub trait Opener: Drop {
    type Writer: Write + Drop;

    /// Whether the port has a name.
    fn names(&self, port: Port) -> bool;

    /// Looks at all named ports before any is opened: the first that can't be had.
    fn check(&self) -> Result<(), PortFault>;

    /// The writer of a port, or nothing where the port has no name.
    fn open(&mut self, port: Port) -> Option<Result<Self::Writer, PortCause>>;
}

/// The paths of the ports that go to files.
#[derive(Debug, Drop)]
pub struct PortPaths {
    pub stream: Option<String>,
    pub image: Option<String>,
    pub journal: Option<String>,
}

impl PortPaths {
    /// The path of a port, where it has one.
    fn of(&self, port: Port) -> Option<&String>
        ensures { option_map (λ path. path.now) result ≡ path_of port self.now }
    {
        match port {
            Port::Report => None,
            Port::Stream => self.stream.as_ref(),
            Port::Image => self.image.as_ref(),
            Port::Journal => self.journal.as_ref(),
        }
    }
}

/// Creates the files of ports at their paths. No two ports get one file, by whatever paths, and no
/// port gets the file that the input is read from or that the report goes to.
#[derive(Drop)]
pub struct PathOpener<R: Files + Drop> {
    files: R,
    paths: PortPaths,
    owned: OwnedFiles,
}

impl<R: Files + Drop> PathOpener<R> {
    /// What creates files at these paths, where these have an owner.
    pub fn new(files: R, paths: PortPaths, owned: OwnedFiles) -> PathOpener<R> {
        PathOpener {
            files,
            paths,
            owned,
        }
    }

    /// The file that lies at the path of a port, where there is one.
    fn file_of(&self, port: Port) -> Option<FileIdentity> {
        FileIdentity::of_path(&self.files, self.paths.of(port)?.as_str())
    }

    /// The same, where nobody has it.
    fn unowned_file(
        &self,
        owned: &OwnedFiles,
        port: Port,
    ) -> Result<Option<FileIdentity>, PortCause> {
        let file = self.file_of(port);
        match file.and_then(|file| owned.owner(file)) {
            None => Ok(file),
            Some(owner) => Err(PortCause::Owned(owner)),
        }
    }

    /// Gives a port the file that lies at its path.
    fn take(&self, owned: &mut OwnedFiles, port: Port) -> Result<(), PortCause> {
        owned.take(port, self.unowned_file(owned, port)?);
        Ok(())
    }

    /// Creates the file of a port at its path.
    fn create(&self, port: Port, path: &str) -> Result<R::File, PortCause> {
        // Two paths may lead to one file that wasn't there when all were looked at.
        self.unowned_file(&self.owned, port)?;
        Ok(fs::create(&self.files, path)?)
    }
}

impl<R: Files + Drop> Opener for PathOpener<R> {
    type Writer = R::File;

    fn names(&self, port: Port) -> bool {
        self.paths.of(port).is_some()
    }

    fn check(&self) -> Result<(), PortFault> {
        let mut owned = self.owned;
        if owned.report.is_some() && owned.report == owned.input {
            let cause = PortCause::Owned(Owner::Input);
            return PortFault::at(Port::Report, Err(cause));
        }
        for port in [Port::Stream, Port::Image, Port::Journal] {
            PortFault::at(port, self.take(&mut owned, port))?;
        }
        Ok(())
    }

    fn open(&mut self, port: Port) -> Option<Result<R::File, PortCause>> {
        let created = self.create(port, self.paths.of(port)?.as_str());
        if created.is_ok() {
            let file = self.file_of(port);
            self.owned.take(port, file);
        }
        Some(created)
    }
}
