ghost use Rattle.std.specs.Prelude.{◌≡◌, ◌≤◌, Err};
ghost use Rattle.dr_types.specs.Ports.{Rose};
ghost use Rattle.dr_io.specs.declared.outlet.PutTurn.TheVariants.{Failed};
ghost use Rattle.dr_io.specs.declared.reading.ReadFault.TheVariants as fault;

use crate::{
    ByteSource, Clock, FixedClock, Gate, OpenGate, Outlet, PortBook, PortFiles, PutTurn, ReadFault,
    ReadSource, Source, SystemClock, Who, read_all,
};
use Step::{Ends, Fails, Gives, Interrupted};
use dr_types::{Bytes, Listed, NumberList, Port};
use std::alloc::Global;
use std::io;
use std::io::{ErrorKind, Read, Write};
use std::test::Fail;

/// What a fake reader does at a read.
#[derive(Clone, Copy, Debug, PartialEq, Eq)]
enum Step {
    Gives(u8),
    Ends,
    Interrupted,
    Fails,
}

/// Does the next of its steps at each read, and fails past the last.
#[derive(Drop)]
struct Reader {
    steps: [Step; 4],
    at: usize,
}

impl Read for Reader {
    fn read(&mut self, buf: &mut [u8]) -> io::Result<usize> {
        let step = self.steps.get(self.at).copied().unwrap_or(Fails);
        self.at = self.at.saturating_add(1);
        match step {
            Gives(byte) if !buf.is_empty() => {
                buf[0] = byte;
                Ok(1)
            }
            Ends => Ok(0),
            Interrupted => Err(io::Error::from(ErrorKind::Interrupted)),
            _ => Err(io::Error::from(ErrorKind::Other)),
        }
    }
}

/// The source of these steps.
fn reading(steps: [Step; 4]) -> ReadSource<Reader> {
    ReadSource::new(Reader { steps, at: 0 })
}

/// Takes at most `piece` bytes a write, after so many interrupted ones, and is closed once it has
/// taken `room` bytes.
#[derive(Drop)]
struct Pipe {
    taken: Bytes,
    piece: usize,
    room: usize,
    interrupts: u32,
}

impl Write for Pipe {
    fn write(&mut self, buf: &[u8]) -> io::Result<usize> {
        if self.interrupts > 0 {
            self.interrupts -= 1;
            return Err(io::Error::from(ErrorKind::Interrupted));
        }
        let remaining = self.room.saturating_sub(self.taken.len());
        if remaining == 0 {
            return Err(io::Error::from(ErrorKind::BrokenPipe));
        }
        let n = buf.len().min(self.piece).min(remaining);
        match self.taken.append(&buf[..n]) {
            Ok(()) => Ok(n),
            Err(_) => Err(io::Error::from(ErrorKind::OutOfMemory)),
        }
    }

    fn flush(&mut self) -> io::Result<()> {
        Ok(())
    }
}

/// A pipe that has taken nothing.
fn new_pipe(alloc: Global, piece: usize, room: usize, interrupts: u32) -> Pipe {
    Pipe {
        taken: Listed::new(alloc),
        piece,
        room,
        interrupts,
    }
}

/// Fails at each write.
#[derive(Drop)]
struct Broken;

impl Write for Broken {
    fn write(&mut self, _buf: &[u8]) -> io::Result<usize> {
        Err(io::Error::from(ErrorKind::Other))
    }

    fn flush(&mut self) -> io::Result<()> {
        Ok(())
    }
}

fn numbers(alloc: Global, number: u64) -> Result<NumberList, Fail> {
    let mut list = Listed::new(alloc);
    list.push(number)?;
    Ok(list)
}

fn source(alloc: Global, piece: usize, fails: u64) -> Result<ByteSource, Fail>
    requires { 1 ≤ piece }
{
    let mut bytes = Listed::new(alloc);
    bytes.append(b"abcde")?;
    Ok(ByteSource::new(bytes, piece, numbers(alloc, fails)?))
}

/// A put, which counts its fault where it fails.
fn put_on<O: Outlet>(out: &mut O, port: Port, bytes: &[u8]) -> PutTurn
    ensures { result ≡ Failed → Rose (O.faults out.old) (O.faults out.new) }
{
    out.put(port, bytes)
}

fn time_of<C: Clock>(clock: &C) -> u64 {
    clock.sleep_us(1);
    clock.now_us()
}

fn pass<G: Gate>(gate: &G) {
    gate.pass(Who::Vcpu(0), 1);
    gate.pass(Who::Reaper, 2);
    gate.pass(Who::Migrator, 3);
    gate.pass(Who::Lane(0), 4);
}

/// How much was read, or why not. A read that fails is counted.
fn outcome<S: Source>(alloc: Global, source: &mut S, limit: u64) -> Result<usize, ReadFault>
    ensures { result ≡ Err fault.Failed → Rose (S.faults source.old) (S.faults source.new) }
{
    Ok(read_all(alloc, source, limit)?.len())
}

#[test]
fn a_reader_is_a_source(rt: HostRuntime) -> Result<(), Fail> {
    let steps = [Gives(b'a'), Gives(b'b'), Ends, Fails];
    let mut whole = reading(steps);
    let all = read_all(rt.alloc(), &mut whole, 2)?;
    assert_eq!(rt; all.as_slice(), b"ab".as_slice());
    assert_eq!(rt; outcome(rt.alloc(), &mut whole, 2), Err(ReadFault::Failed));
    let mut long = reading(steps);
    assert_eq!(rt; outcome(rt.alloc(), &mut long, 1), Err(ReadFault::TooLong));
    Ok(())
}

#[test]
fn a_reader_fails_in_mid_stream(rt: HostRuntime) {
    for (steps, next) in [
        ([Fails, Gives(b'a'), Ends, Ends], Ok(1)),
        ([Gives(b'a'), Fails, Ends, Ends], Ok(0)),
        ([Gives(b'a'), Fails, Gives(b'b'), Ends], Ok(1)),
        ([Gives(b'a'), Fails, Fails, Ends], Err(ReadFault::Failed)),
        ([Interrupted, Fails, Ends, Ends], Ok(0)),
    ] {
        let mut source = reading(steps);
        assert_eq!(rt; outcome(rt.alloc(), &mut source, 9), Err(ReadFault::Failed));
        assert_eq!(rt; outcome(rt.alloc(), &mut source, 9), next);
    }
}

#[test]
fn an_interrupted_read_is_tried_again(rt: HostRuntime) -> Result<(), Fail> {
    for (steps, expected) in [
        ([Interrupted, Gives(b'a'), Gives(b'b'), Ends], "ab"),
        ([Gives(b'a'), Interrupted, Gives(b'b'), Ends], "ab"),
        ([Gives(b'a'), Interrupted, Interrupted, Ends], "a"),
        ([Interrupted, Interrupted, Interrupted, Ends], ""),
    ] {
        let all = read_all(rt.alloc(), &mut reading(steps), 9)?;
        assert_eq!(rt; all.as_slice(), expected.as_bytes());
    }
    Ok(())
}

#[test]
fn bytes_come_in_pieces(rt: HostRuntime) -> Result<(), Fail> {
    for (fails, limit, expected) in [
        (9, 5, Ok(5)),
        (9, 4, Err(ReadFault::TooLong)),
        (2, 5, Err(ReadFault::Failed)),
    ] {
        let mut pieces = source(rt.alloc(), 2, fails)?;
        assert_eq!(rt;
            outcome(rt.alloc(), &mut pieces, limit),
            expected,
            "{fails} {limit}"
        );
    }
    Ok(())
}

#[test]
fn a_book_keeps_four_ports(rt: HostRuntime) -> Result<(), Fail> {
    let mut book = PortBook::new(rt.alloc(), numbers(rt.alloc(), 2)?);
    for (port, bytes, expected) in [
        (Port::Stream, b"ab", PutTurn::Done),
        (Port::Stream, b"cd", PutTurn::Failed),
        (Port::Stream, b"ef", PutTurn::Done),
        (Port::Report, b"re", PutTurn::Done),
        (Port::Image, b"im", PutTurn::Done),
        (Port::Journal, b"jo", PutTurn::Done),
    ] {
        assert_eq!(rt; put_on(&mut book, port, bytes), expected);
    }
    for (port, bytes) in [
        (Port::Stream, "abef"),
        (Port::Report, "re"),
        (Port::Image, "im"),
        (Port::Journal, "jo"),
    ] {
        assert_eq!(rt; book.bytes(port), bytes.as_bytes());
    }
    Ok(())
}

#[test]
fn writers_are_an_outlet(rt: HostRuntime) {
    let mut report = Vec::new(rt.alloc());
    let mut files = PortFiles::new(Some(&mut report), None, None, None);
    assert_eq!(rt; put_on(&mut files, Port::Report, b"ab"), PutTurn::Done);
    assert_eq!(rt; put_on(&mut files, Port::Stream, b"cd"), PutTurn::Done);
    drop(files);
    assert_eq!(rt; report.as_slice(), b"ab".as_slice());
}

#[test]
fn a_failing_writer_is_a_fault(rt: HostRuntime) {
    let mut broken = PortFiles::new(None, Some(Broken), Some(Broken), None);
    for (port, expected) in [
        (Port::Report, PutTurn::Done),
        (Port::Stream, PutTurn::Failed),
        (Port::Image, PutTurn::Failed),
        (Port::Journal, PutTurn::Done),
    ] {
        assert_eq!(rt; put_on(&mut broken, port, b"ab"), expected);
    }
}

#[test]
fn a_writer_takes_a_first_part(rt: HostRuntime) {
    for (piece, room, interrupts, expected, taken) in [
        (1, 6, 0, PutTurn::Done, "abcdef"),
        (4, 6, 0, PutTurn::Done, "abcdef"),
        (1, 9, 2, PutTurn::Done, "abcdef"),
        (9, 5, 0, PutTurn::Failed, "abcde"),
        (2, 3, 1, PutTurn::Failed, "abc"),
        (1, 0, 0, PutTurn::Failed, ""),
        (0, 9, 0, PutTurn::Failed, ""),
    ] {
        let mut stream = new_pipe(rt.alloc(), piece, room, interrupts);
        let mut files = PortFiles::new(None, Some(&mut stream), None, None);
        assert_eq!(rt; put_on(&mut files, Port::Stream, b"abcdef"), expected);
        drop(files);
        assert_eq!(rt; stream.taken.as_slice(), taken.as_bytes());
    }
}

#[test]
fn a_closed_pipe_stays_closed(rt: HostRuntime) {
    let mut report = new_pipe(rt.alloc(), 9, 5, 0);
    let mut stream = new_pipe(rt.alloc(), 9, 9, 0);
    let mut files = PortFiles::new(Some(&mut report), Some(&mut stream), None, None);
    for (port, bytes, expected) in [
        (Port::Report, b"ab", PutTurn::Done),
        (Port::Report, b"cd", PutTurn::Done),
        (Port::Report, b"ef", PutTurn::Failed),
        (Port::Stream, b"gh", PutTurn::Done),
        (Port::Report, b"ij", PutTurn::Failed),
        (Port::Journal, b"kl", PutTurn::Done),
        (Port::Stream, b"mn", PutTurn::Done),
        (Port::Report, b"op", PutTurn::Failed),
    ] {
        assert_eq!(rt; put_on(&mut files, port, bytes), expected);
    }
    drop(files);
    assert_eq!(rt; report.taken.as_slice(), b"abcde".as_slice());
    assert_eq!(rt; stream.taken.as_slice(), b"ghmn".as_slice());
}

#[test]
fn clocks_and_gates(rt: HostRuntime) {
    pass(&OpenGate);
    assert_eq!(rt; time_of(&FixedClock { now: 7 }), 7);
    assert!(rt; time_of(&SystemClock::new(&rt)) > 0);
}
