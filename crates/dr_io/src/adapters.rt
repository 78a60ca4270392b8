ghost use Rattle.std.specs.Prelude.{◌≡◌, ◌≢◌, None, IfErr, ℕ};
ghost use Rattle.std.specs.Io.{ReadsAtMost};
ghost use Rattle.std.specs.IoError.{error_kind};
ghost use Rattle.dr_types.specs.Ports.{silent};

use crate::outlet::{Outlet, PutTurn};
use crate::source::{ReadTurn, Source};
use dr_types::Port;
use std::io;
use std::io::{ErrorKind, Read, Write};
use std::marker::Model;

/// A reader as a source. It tells nothing of what is left. A read that is interrupted is no fault.
/// Contracts see its count of faults.
#[derive(Drop)]
pub struct ReadSource<R: Read + Drop> {
    reader: R,
    faults: u64,
}

impl<R: Read + Drop> Model for ReadSource<R> {
    ghost use Rattle.std.specs.Prelude.{ℕ};

    ghost Value = { ℕ };

    ghost view = { λ s. s.faults };
}

impl<R: Read + Drop> ReadSource<R> {
    /// The source of what the reader gives.
    pub fn new(reader: R) -> ReadSource<R>
        ensures { result ≡ 0 }
    {
        ReadSource { reader, faults: 0 }
    }
}

impl<R: Read + Drop> Source for ReadSource<R> {
    ghost remaining = { λ s. None };

    ghost faults = { λ s. s };

    fn read(&mut self, buf: &mut [u8]) -> ReadTurn {
        match read_uninterrupted(&mut self.reader, buf) {
            Ok(0) => ReadTurn::End,
            Ok(n) => ReadTurn::Bytes(n),
            Err(_) => {
                self.faults = self.faults.saturating_add(1);
                ReadTurn::Failed
            }
        }
    }
}

/// One read, tried again where a signal interrupts it.
fn read_uninterrupted<R: Read>(reader: &mut R, buf: &mut [u8]) -> io::Result<usize>
    ensures bound { ReadsAtMost result buf.new }
    ensures retried { IfErr result (λ why. error_kind why ≢ ErrorKind.Interrupted) }
{
    for _ in 0..u64::MAX {
        match reader.read(buf) {
            Err(why) if why.kind() == ErrorKind::Interrupted => {}
            read => return read,
        }
    }
    Err(io::Error::from(ErrorKind::TimedOut))
}

/// Writers as the ports of an outlet. It tells of no port. A port without a writer is discarded.
/// Contracts see its count of faults.
#[derive(Drop)]
pub struct PortFiles<W: Write + Drop> {
    report: Option<W>,
    stream: Option<W>,
    image: Option<W>,
    journal: Option<W>,
    faults: u64,
}

impl<W: Write + Drop> Model for PortFiles<W> {
    ghost use Rattle.std.specs.Prelude.{ℕ};

    ghost Value = { ℕ };

    ghost view = { λ p. p.faults };
}

impl<W: Write + Drop> PortFiles<W> {
    /// The outlet over these writers.
    pub fn new(
        report: Option<W>,
        stream: Option<W>,
        image: Option<W>,
        journal: Option<W>,
    ) -> PortFiles<W>
        ensures { result ≡ 0 }
    {
        PortFiles {
            report,
            stream,
            image,
            journal,
            faults: 0,
        }
    }
}

#[tactic(auto, using(crate::proofs::Silence::silent_put))]
impl<W: Write + Drop> Outlet for PortFiles<W> {
    ghost told = { λ p. silent };

    ghost faults = { λ p. p };

    fn is_wanted(&self, port: Port) -> bool {
        match port {
            Port::Report => self.report.is_some(),
            Port::Stream => self.stream.is_some(),
            Port::Image => self.image.is_some(),
            Port::Journal => self.journal.is_some(),
        }
    }

    fn put(&mut self, port: Port, bytes: &[u8]) -> PutTurn {
        let written = match port {
            Port::Report => is_written(&mut self.report, bytes),
            Port::Stream => is_written(&mut self.stream, bytes),
            Port::Image => is_written(&mut self.image, bytes),
            Port::Journal => is_written(&mut self.journal, bytes),
        };
        if written {
            return PutTurn::Done;
        }
        self.faults = self.faults.saturating_add(1);
        PutTurn::Failed
    }
}

/// Writes the bytes, where there is a writer, and says whether it took them.
fn is_written<W: Write + Drop>(writer: &mut Option<W>, bytes: &[u8]) -> bool {
    match writer {
        Some(writer) => writer.write_all(bytes).is_ok(),
        None => true,
    }
}
