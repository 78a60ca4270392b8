ghost use Rattle.std.specs.Prelude.{◌≡◌, ℕ};
ghost use Rattle.dr_types.specs.Ports.{silent};

use crate::fault::PortFault;
use crate::opener::Opener;
use crate::pieces::Pieces;
use crate::port_end::PortEnd;
use crate::port_ends::PortEnds;
use dr_io::{Outlet, Port, PutTurn};
use std::alloc::Global;
use std::io::Write;
use std::marker::Model;

/// A report and up to three named files as the ports of an outlet. It tells of no port.
///
/// All files are created at the first put on any port, and none before. Where a port can't be had
/// beside the others none is created, and each put fails. Bytes of the stream and of the image wait
/// in a buffer of 64 KiB each, and are written before a put on another port that has a writer. A
/// port that failed once, at its creation, at a write or at a flush, fails from then on. Contracts
/// see the count of faults.
#[derive(Drop)]
pub struct FilePorts<W: Write + Drop, O: Opener> {
    ends: PortEnds<W, O::Writer>,
    opener: O,
    alloc: Global,
    /// What looking at all ports came to, from the first put on.
    checked: Option<Result<(), PortFault>>,
    first: Option<PortFault>,
    faults: u64,
}

impl<W: Write + Drop, O: Opener> Model for FilePorts<W, O> {
    ghost use Rattle.std.specs.Prelude.{ℕ};

    ghost Value = { ℕ };

    ghost view = { λ p. p.faults };
}

impl<W: Write + Drop, O: Opener> FilePorts<W, O> {
    /// The outlet with this report, and with the files that the opener will create.
    pub fn new(alloc: Global, report: W, opener: O) -> FilePorts<W, O>
        ensures { result ≡ 0 }
    {
        FilePorts {
            ends: PortEnds {
                report: PortEnd::Open(Pieces::straight(alloc, report)),
                stream: PortEnd::Discarded,
                image: PortEnd::Discarded,
                journal: PortEnd::Discarded,
            },
            opener,
            alloc,
            checked: None,
            first: None,
            faults: 0,
        }
    }

    /// Writes what waits, flushes each port, and answers the first fault of all: of a put, or of
    /// this. A port that failed before has nothing left.
    pub fn finish(mut self) -> Option<PortFault> {
        let flushed = self.ends.flush();
        self.first.or(flushed.err())
    }

    /// Looks at all ports and opens them, at the first put.
    fn open_once(&mut self) -> Result<(), PortFault>
        ensures { self.new ≡ self.old }
    {
        if let Some(checked) = self.checked {
            return checked;
        }
        let checked = self.opener.check();
        self.checked = Some(checked);
        if checked.is_ok() {
            self.open_all();
        }
        checked
    }

    fn open_all(&mut self)
        ensures { self.new ≡ self.old }
    {
        self.ends.stream = self.opened(Port::Stream);
        self.ends.image = self.opened(Port::Image);
        self.ends.journal = self.opened(Port::Journal);
    }

    fn opened(&mut self, port: Port) -> PortEnd<O::Writer>
        ensures { self.new ≡ self.old }
    {
        match self.opener.open(port) {
            None => PortEnd::Discarded,
            Some(Err(cause)) => PortEnd::Broken(cause),
            Some(Ok(writer)) => PortEnd::Open(self.pieces(port, writer)),
        }
    }

    fn pieces(&self, port: Port, writer: O::Writer) -> Pieces<O::Writer> {
        match port {
            Port::Stream | Port::Image => Pieces::large(self.alloc, writer),
            Port::Report | Port::Journal => Pieces::straight(self.alloc, writer),
        }
    }

    fn try_put(&mut self, port: Port, bytes: &[u8]) -> Result<(), PortFault>
        ensures { self.new ≡ self.old }
    {
        self.open_once()?;
        self.ends.put(port, bytes)
    }
}

#[tactic(auto, using(dr_io::proofs::Silence::silent_put))]
impl<W: Write + Drop, O: Opener> Outlet for FilePorts<W, O> {
    ghost told = { λ p. silent };

    ghost faults = { λ p. p };

    fn is_wanted(&self, port: Port) -> bool {
        port == Port::Report || self.opener.names(port)
    }

    fn put(&mut self, port: Port, bytes: &[u8]) -> PutTurn {
        match self.try_put(port, bytes) {
            Ok(()) => PutTurn::Done,
            Err(fault) => {
                self.first = self.first.or(Some(fault));
                self.faults = self.faults.saturating_add(1);
                PutTurn::Failed
            }
        }
    }
}
