ghost use Rattle.std.specs.Prelude.{◌≡◌, ◌<◌, ◌≤◌, Some, None, [], IfSome, is_some, length, take};
ghost use Rattle.dr_io.specs.Reading.{Reads};
ghost use Rattle.dr_input.specs.Kept.{IsLonger, MovesBytes};

use dr_io::{ReadTurn, Source};
use dr_types::{Bytes, Listed};
use std::alloc::Global;
use std::cell::Cell;
use std::io;
use std::io::Read;
use std::marker::Model;

/// Where a command's input comes from.
#[derive(Drop)]
pub enum InputFile<R: Read + Drop, F: Read + Drop> {
    /// Standard input.
    Standard(R),
    /// A file that was opened by its path.
    Named(F),
    /// A file that can't be opened: each read of it fails for this cause.
    Unopened(io::Error),
}

impl<R: Read + Drop, F: Read + Drop> Read for InputFile<R, F> {
    fn read(&mut self, buf: &mut [u8]) -> io::Result<usize> {
        match self {
            InputFile::Standard(reader) => reader.read(buf),
            InputFile::Named(file) => file.read(buf),
            InputFile::Unopened(why) => Err(*why),
        }
    }
}

/// A reader that notes why the last of its reads that failed did so.
#[derive(Drop)]
pub struct NotedReader<'a, R: Read + Drop> {
    reader: R,
    cause: &'a Cell<Option<io::Error>>,
}

impl<'a, R: Read + Drop> NotedReader<'a, R> {
    /// The reader, whose causes are noted there.
    pub fn new(reader: R, cause: &'a Cell<Option<io::Error>>) -> NotedReader<'a, R> {
        NotedReader { reader, cause }
    }
}

impl<R: Read + Drop> Read for NotedReader<'_, R> {
    fn read(&mut self, buf: &mut [u8]) -> io::Result<usize> {
        let read = self.reader.read(buf);
        if let Err(why) = read {
            self.cause.set(Some(why));
        }
        read
    }
}

/// A source that keeps a copy of the bytes that it gave, so that a fault in them can be shown, or
/// keeps nothing. Contracts see the source and these bytes.
#[derive(Drop)]
pub struct KeptSource<S: Source + Drop> {
    source: S,
    kept: Option<Bytes>,
}

impl<S: Source + Drop> Model for KeptSource<S> {
    ghost use Rattle.dr_input.specs.Kept.{Kept};

    ghost Value = { Kept S };

    ghost view = { λ k. record { source = k.source; bytes = k.kept } };
}

impl<S: Source + Drop> KeptSource<S> {
    /// The source, of which nothing was kept yet.
    pub fn new(alloc: Global, source: S) -> KeptSource<S>
        ensures source { result.source ≡ source }
        ensures nothing { result.bytes ≡ Some [] }
    {
        KeptSource {
            source,
            kept: Some(Listed::new(alloc)),
        }
    }

    /// The source, of which nothing will be kept. It takes no memory, and neither do its reads.
    pub fn keeping_nothing(source: S) -> KeptSource<S>
        ensures source { result.source ≡ source }
        ensures nothing { result.bytes ≡ None }
    {
        KeptSource { source, kept: None }
    }

    /// The bytes that it gave; `None` where it keeps nothing, or memory for some of them was
    /// refused.
    pub fn kept(&self) -> Option<&[u8]>
        ensures bytes { IfSome result (λ kept. self.now.bytes ≡ Some kept.now) }
        ensures refused { is_some result ≡ is_some self.now.bytes }
    {
        match &self.kept {
            Some(kept) => Some(kept.as_slice()),
            None => None,
        }
    }

    /// Keeps these bytes after the others, where those were kept.
    fn keep(&mut self, more: &[u8])
        ensures source { self.new.source ≡ self.old.source }
        ensures longer { IfSome self.new.bytes (IsLonger self.old.bytes more.now) }
        ensures nothing { self.old.bytes ≡ None → self.new.bytes ≡ None }
    {
        self.kept = longer(self.kept.take(), more);
    }
}

/// The bytes with these after them; `None` where memory is refused, or there were none before.
fn longer(kept: Option<Bytes>, more: &[u8]) -> Option<Bytes>
    ensures longer { IfSome result (IsLonger kept more.now) }
    ensures nothing { kept ≡ None → result ≡ None }
{
    let mut kept = kept?;
    match kept.append(more) {
        Ok(()) => Some(kept),
        Err(_) => None,
    }
}

/// The first bytes.
fn front(bytes: &[u8], count: usize) -> &[u8]
    requires { count ≤ length bytes.now }
    ensures { result.now ≡ take count bytes.now }
{
    &bytes[..count]
}

impl<S: Source + Drop> Source for KeptSource<S> {
    ghost remaining = { λ k. S.remaining k.source };

    ghost faults = { λ k. S.faults k.source };

    /// Reads from its source, and keeps what came, unless it keeps nothing.
    fn read(&mut self, buf: &mut [u8]) -> ReadTurn
        requires { 0 < length buf.old }
        ensures reads { Reads (S.remaining self.old.source)
            (S.faults self.old.source) buf.new result
            (S.remaining self.new.source) (S.faults self.new.source) }
        ensures kept { MovesBytes self.old.bytes (S.remaining self.old.source) self.new.bytes
            (S.remaining self.new.source) }
        ensures nothing { self.old.bytes ≡ None → self.new.bytes ≡ None }
    {
        let turn = self.source.read(buf);
        if let ReadTurn::Bytes(n) = turn {
            self.keep(front(buf, n));
        }
        turn
    }
}
