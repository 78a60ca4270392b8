ghost use Rattle.std.specs.Prelude.{◌≡◌, [], OnOk};
ghost use Rattle.std.specs.Io.KnownBytes.{Appends, Keeps};
ghost use Rattle.dr_io_files.specs.Held.{held};

use std::alloc::Global;
use std::io;
use std::io::Write;

/// How many bytes may wait for a file.
const MOST_WAITING: usize = 65_536;

/// A writer with the bytes that wait for it.
#[derive(Drop)]
pub struct Pieces<W: Write + Drop> {
    writer: W,
    waiting: Vec<u8>,
}

impl<W: Write + Drop> Pieces<W> {
    /// A writer that is given each put as it comes.
    pub fn straight(alloc: Global, writer: W) -> Pieces<W>
        ensures { Keeps (W.contents writer) (held W.contents result) }
    {
        Pieces {
            writer,
            waiting: Vec::new(alloc),
        }
    }

    /// A writer that is given large pieces, or each put as it comes where memory is refused.
    pub fn large(alloc: Global, writer: W) -> Pieces<W>
        ensures { Keeps (W.contents writer) (held W.contents result) }
    {
        match Vec::with_capacity(alloc, MOST_WAITING) {
            Ok(waiting) => Pieces { writer, waiting },
            Err(_) => Pieces::straight(alloc, writer),
        }
    }

    fn has_room(&self, bytes: &[u8]) -> bool {
        bytes.len() <= self.waiting.capacity() - self.waiting.len()
    }

    /// Adds bytes. Those that don't fit are written after all that waited.
    pub fn add(&mut self, bytes: &[u8]) -> io::Result<()>
        ensures { OnOk result
            (Appends (held W.contents self.old) (held W.contents self.new) bytes.now) }
    {
        if !self.has_room(bytes) {
            self.write_waiting()?;
            if bytes.len() > self.waiting.capacity() {
                return self.writer.write_all(bytes);
            }
        }
        self.waiting.extend_from_slice(bytes)?;
        Ok(())
    }

    /// Writes what waits.
    fn write_waiting(&mut self) -> io::Result<()>
        ensures empty { OnOk result (self.new.waiting.items ≡ []) }
        ensures held { OnOk result (Keeps (held W.contents self.old) (held W.contents self.new)) }
    {
        self.writer.write_all(self.waiting.as_slice())?;
        self.waiting.clear();
        Ok(())
    }

    /// Writes what waits, and flushes the writer.
    pub fn flush(&mut self) -> io::Result<()>
        ensures empty { OnOk result (self.new.waiting.items ≡ []) }
        ensures held { OnOk result (Keeps (held W.contents self.old) (held W.contents self.new)) }
    {
        self.write_waiting()?;
        self.writer.flush()
    }

    /// Flushes where something waits.
    pub fn write_out(&mut self) -> io::Result<()>
        ensures empty { OnOk result (self.new.waiting.items ≡ []) }
        ensures held { OnOk result (Keeps (held W.contents self.old) (held W.contents self.new)) }
    {
        if self.waiting.is_empty() {
            return Ok(());
        }
        self.flush()
    }
}
