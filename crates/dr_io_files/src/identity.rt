ghost use Rattle.std.specs.Prelude.{◌≡◌, ◌≢◌, None, Some, IfSome};
ghost use Rattle.dr_io_files.specs.Owners.{file_of};

use crate::fault::Owner;
use dr_io::Port;
use std::fs;
use std::os::unix::fs::MetadataExt;
use std::rt::Files;

/// Which file it is, whatever path leads to it: its device, and its number there.
#[derive(Clone, Copy, Debug, PartialEq, Eq)]
pub struct FileIdentity {
    device: u64,
    inode: u64,
}

impl FileIdentity {
    /// The regular file that a path leads to, also through links. There is none where nothing is at
    /// the path, and none for a pipe, a terminal or another device: two may write to one of these.
    pub fn of_path<R: Files>(files: &R, path: &str) -> Option<FileIdentity> {
        let found = fs::metadata(files, path).ok()?;
        if found.is_file() {
            Some(FileIdentity {
                device: found.dev(),
                inode: found.ino(),
            })
        } else {
            None
        }
    }
}

/// The files that have an owner.
#[derive(Clone, Copy, Debug)]
pub struct OwnedFiles {
    /// The file that the input is read from.
    pub input: Option<FileIdentity>,
    /// The file that standard output goes to.
    pub report: Option<FileIdentity>,
    pub stream: Option<FileIdentity>,
    pub image: Option<FileIdentity>,
    pub journal: Option<FileIdentity>,
}

impl OwnedFiles {
    /// The input and the report have these, and no other port has a file yet.
    pub fn new(input: Option<FileIdentity>, report: Option<FileIdentity>) -> OwnedFiles
        ensures input { file_of Owner.Input result ≡ input }
        ensures report { file_of (Owner.Port Port.Report) result ≡ report }
        ensures stream { file_of (Owner.Port Port.Stream) result ≡ None }
        ensures image { file_of (Owner.Port Port.Image) result ≡ None }
        ensures journal { file_of (Owner.Port Port.Journal) result ≡ None }
    {
        OwnedFiles {
            input,
            report,
            stream: None,
            image: None,
            journal: None,
        }
    }

    /// Who has this file.
    pub fn owner(&self, file: FileIdentity) -> Option<Owner>
        ensures has { IfSome result (λ owner. file_of owner self.now ≡ Some file) }
        ensures none { result ≡ None → (owner : Owner) → file_of owner self.now ≢ Some file }
    {
        let wanted = Some(file);
        if self.input == wanted {
            Some(Owner::Input)
        } else if self.report == wanted {
            Some(Owner::Port(Port::Report))
        } else if self.stream == wanted {
            Some(Owner::Port(Port::Stream))
        } else if self.image == wanted {
            Some(Owner::Port(Port::Image))
        } else if self.journal == wanted {
            Some(Owner::Port(Port::Journal))
        } else {
            None
        }
    }

    /// The port has this file from now on.
    pub fn take(&mut self, port: Port, file: Option<FileIdentity>)
        ensures taken { file_of (Owner.Port port) self.new ≡ file }
        ensures others { (owner : Owner) → owner ≢ Owner.Port port
            → file_of owner self.new ≡ file_of owner self.old }
    {
        match port {
            Port::Report => self.report = file,
            Port::Stream => self.stream = file,
            Port::Image => self.image = file,
            Port::Journal => self.journal = file,
        }
    }
}
