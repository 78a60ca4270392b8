ghost use Rattle.std.specs.Prelude.{◌≡◌, ◌≢◌, OnOk};
ghost use Rattle.dr_types.specs.declared.port.Port.TheVariants.{Report, Stream, Image, Journal};
ghost use Rattle.std.specs.Io.KnownBytes.{Keeps};
ghost use Rattle.dr_io_files.specs.Held.{held_at, NothingWaits, Gets};

use crate::fault::PortFault;
use crate::port_end::PortEnd;
use dr_io::Port;
use std::io::Write;

/// Where the bytes of four ports go.
#[derive(Drop)]
pub struct PortEnds<W: Write + Drop, F: Write + Drop> {
    pub report: PortEnd<W>,
    pub stream: PortEnd<F>,
    pub image: PortEnd<F>,
    pub journal: PortEnd<F>,
}

impl<W: Write + Drop, F: Write + Drop> PortEnds<W, F> {
    /// Puts bytes on a port. What waits at other ports is written first, and where that fails the
    /// bytes are not taken.
    pub fn put(&mut self, port: Port, bytes: &[u8]) -> Result<(), PortFault>
        ensures report { OnOk result (Gets Report port
            (held_at W.contents self.old.report) (held_at W.contents self.new.report) bytes.now) }
        ensures stream { OnOk result (Gets Stream port
            (held_at F.contents self.old.stream) (held_at F.contents self.new.stream) bytes.now) }
        ensures image { OnOk result (Gets Image port
            (held_at F.contents self.old.image) (held_at F.contents self.new.image) bytes.now) }
        ensures journal { OnOk result (Gets Journal port
            (held_at F.contents self.old.journal) (held_at F.contents self.new.journal) bytes.now) }
    {
        self.write_out_for(port)?;
        self.put_alone(port, bytes)
    }

    /// Flushes each port. After an `Err` the others were flushed all the same.
    pub fn flush(&mut self) -> Result<(), PortFault>
        ensures waits_report { NothingWaits self.new.report }
        ensures waits_stream { NothingWaits self.new.stream }
        ensures waits_image { NothingWaits self.new.image }
        ensures waits_journal { NothingWaits self.new.journal }
        ensures report { OnOk result (Keeps
            (held_at W.contents self.old.report) (held_at W.contents self.new.report)) }
        ensures stream { OnOk result (Keeps
            (held_at F.contents self.old.stream) (held_at F.contents self.new.stream)) }
        ensures image { OnOk result (Keeps
            (held_at F.contents self.old.image) (held_at F.contents self.new.image)) }
        ensures journal { OnOk result (Keeps
            (held_at F.contents self.old.journal) (held_at F.contents self.new.journal)) }
    {
        let stream = self.stream.flush();
        let image = self.image.flush();
        let journal = self.journal.flush();
        let report = self.report.flush();
        PortFault::at(Port::Stream, stream)?;
        PortFault::at(Port::Image, image)?;
        PortFault::at(Port::Journal, journal)?;
        PortFault::at(Port::Report, report)
    }

    fn is_open(&self, port: Port) -> bool {
        match port {
            Port::Report => self.report.is_open(),
            Port::Stream => self.stream.is_open(),
            Port::Image => self.image.is_open(),
            Port::Journal => self.journal.is_open(),
        }
    }

    /// Writes what waits at other ports, where this one has a writer that is to follow them.
    #[tactic(auto, using(crate::proofs::Growing::keeps_itself))]
    fn write_out_for(&mut self, port: Port) -> Result<(), PortFault>
        ensures report { self.new.report ≡ self.old.report }
        ensures journal { self.new.journal ≡ self.old.journal }
        ensures stream { OnOk result (Keeps
            (held_at F.contents self.old.stream) (held_at F.contents self.new.stream)) }
        ensures image { OnOk result (Keeps
            (held_at F.contents self.old.image) (held_at F.contents self.new.image)) }
    {
        if self.is_open(port) {
            self.write_out_beside(port)
        } else {
            Ok(())
        }
    }

    /// Writes what waits at the other ports.
    #[tactic(auto, using(crate::proofs::Growing::keeps_itself))]
    fn write_out_beside(&mut self, port: Port) -> Result<(), PortFault>
        ensures waits_stream { port ≢ Stream → NothingWaits self.new.stream }
        ensures waits_image { port ≢ Image → NothingWaits self.new.image }
        ensures report { self.new.report ≡ self.old.report }
        ensures journal { self.new.journal ≡ self.old.journal }
        ensures stream { OnOk result (Keeps
            (held_at F.contents self.old.stream) (held_at F.contents self.new.stream)) }
        ensures image { OnOk result (Keeps
            (held_at F.contents self.old.image) (held_at F.contents self.new.image)) }
    {
        // So no journal or report is in its file before the stream and the image that it speaks of.
        let stream = if port == Port::Stream {
            Ok(())
        } else {
            self.stream.write_out()
        };
        let image = if port == Port::Image {
            Ok(())
        } else {
            self.image.write_out()
        };
        PortFault::at(Port::Stream, stream)?;
        PortFault::at(Port::Image, image)
    }

    /// Puts bytes on a port.
    fn put_alone(&mut self, port: Port, bytes: &[u8]) -> Result<(), PortFault>
        ensures report { OnOk result (Gets Report port
            (held_at W.contents self.old.report) (held_at W.contents self.new.report) bytes.now) }
        ensures stream { OnOk result (Gets Stream port
            (held_at F.contents self.old.stream) (held_at F.contents self.new.stream) bytes.now) }
        ensures image { OnOk result (Gets Image port
            (held_at F.contents self.old.image) (held_at F.contents self.new.image) bytes.now) }
        ensures journal { OnOk result (Gets Journal port
            (held_at F.contents self.old.journal) (held_at F.contents self.new.journal) bytes.now) }
    {
        let done = match port {
            Port::Report => self.report.put(bytes),
            Port::Stream => self.stream.put(bytes),
            Port::Image => self.image.put(bytes),
            Port::Journal => self.journal.put(bytes),
        };
        PortFault::at(port, done)
    }
}
