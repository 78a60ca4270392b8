ghost use Rattle.std.specs.Prelude.{◌≡◌, Err, OnOk, OnErr, is_ok, true};
ghost use Rattle.std.specs.Io.KnownBytes.{Appends, Keeps};
ghost use Rattle.dr_io_files.specs.Held.{held_at, is_broken, NothingWaits};
ghost use Rattle.dr_io_files.specs.declared.port_end.PortEnd.TheVariants.{Discarded, Broken};

use crate::fault::PortCause;
use crate::pieces::Pieces;
use std::io;
use std::io::Write;

/// Where the bytes of a port go.
#[derive(Drop)]
pub enum PortEnd<W: Write + Drop> {
    /// The port has no name: it takes all bytes, and they are gone.
    Discarded,
    /// It has a writer, and bytes that wait for it.
    Open(Pieces<W>),
    /// Its writer could not be had, or did not take all. It takes no bytes any more.
    Broken(PortCause),
}

impl<W: Write + Drop> PortEnd<W> {
    /// There is a writer that took all so far.
    pub fn is_open(&self) -> bool {
        matches!(self, PortEnd::Open(_))
    }

    /// Puts bytes. After an `Err` the port is broken, and each later put fails for the same cause.
    pub fn put(&mut self, bytes: &[u8]) -> Result<(), PortCause>
        ensures discarded { self.old ≡ Discarded → is_ok result ≡ true }
        ensures broken { (cause : PortCause) → self.old ≡ Broken cause → result ≡ Err cause }
        ensures breaks { OnErr result (is_broken self.new ≡ true) }
        ensures added { OnOk result (Appends
            (held_at W.contents self.old) (held_at W.contents self.new) bytes.now) }
    {
        match self {
            PortEnd::Discarded => Ok(()),
            PortEnd::Open(pieces) => {
                let added = pieces.add(bytes);
                self.goes_on(added)
            }
            PortEnd::Broken(cause) => Err(*cause),
        }
    }

    /// Writes what waits. Where nothing waits, it does nothing.
    pub fn write_out(&mut self) -> Result<(), PortCause>
        ensures breaks { OnErr result (is_broken self.new ≡ true) }
        ensures settled { NothingWaits self.new }
        ensures kept { OnOk result (Keeps
            (held_at W.contents self.old) (held_at W.contents self.new)) }
    {
        match self {
            PortEnd::Open(pieces) => {
                let settled = pieces.write_out();
                self.goes_on(settled)
            }
            PortEnd::Discarded | PortEnd::Broken(_) => Ok(()),
        }
    }

    /// Writes what waits, and flushes the writer.
    pub fn flush(&mut self) -> Result<(), PortCause>
        ensures breaks { OnErr result (is_broken self.new ≡ true) }
        ensures settled { NothingWaits self.new }
        ensures kept { OnOk result (Keeps
            (held_at W.contents self.old) (held_at W.contents self.new)) }
    {
        match self {
            PortEnd::Open(pieces) => {
                let flushed = pieces.flush();
                self.goes_on(flushed)
            }
            PortEnd::Discarded | PortEnd::Broken(_) => Ok(()),
        }
    }

    /// Breaks the port where its writer failed.
    fn goes_on(&mut self, done: io::Result<()>) -> Result<(), PortCause>
        ensures says { is_ok result ≡ is_ok done }
        ensures kept { OnOk result (self.new ≡ self.old) }
        ensures breaks { OnErr result (is_broken self.new ≡ true) }
    {
        match done {
            Ok(()) => Ok(()),
            Err(why) => {
                let cause = PortCause::System(why);
                *self = PortEnd::Broken(cause);
                Err(cause)
            }
        }
    }
}
