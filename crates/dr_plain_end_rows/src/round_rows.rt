//! When the clock is read, and where the rounds end.

use dr_io::{Clock, Port, PortBook};
use dr_plain_testing::{LARGE_PIECE, guest_file, joined, source, step, step_on};
use dr_types::Status;
use std::alloc::{AllocError, Global};
use std::cell::Cell;
use std::test::Fail;

/// A clock that goes on by one microsecond at each answer.
#[derive(Drop)]
struct TickingClock {
    ticks: Cell<u64>,
}

impl Clock for TickingClock {
    ghost reads = { λ c t. Unit {0} };

    fn now_us(&self) -> u64 {
        let now = self.ticks.get();
        self.ticks.set(now.saturating_add(1));
        now
    }

    fn sleep_us(&self, _us: u64) {}
}

/// The journal of this guest file, by a clock that goes on from this time, is this.
fn writes(alloc: Global, file: &str, from: u64, journal: &str) -> Result<bool, AllocError> {
    let mut source = source(alloc, file, LARGE_PIECE, &[])?;
    let clock = TickingClock {
        ticks: Cell::new(from),
    };
    let end = step(alloc, &mut source, &[], &clock)?;
    Ok(end.out.bytes(Port::Journal) == journal.as_bytes())
}

/// The first step waits for the halt, the second begins at 42; between the answers a page is
/// copied, and rounds are asked.
#[test]
fn reads_the_clock_at_each_step(rt: HostRuntime) -> Result<(), Fail> {
    let alloc = rt.alloc();
    let file = guest_file(alloc, "")?;
    let first = "h 0 0\nx 0 halted\nstart 42\nask 1\nsync 1 44 1 0\ncopy 1 0\n";
    let rest = "ask 2\nsync 2 47 0\nstop\nask 3\nsync 3 50 0\nswitched\n";
    let expected = joined(alloc, &[&file, "journal\n", first, rest, "end\n"])?;
    assert!(rt; writes(alloc, &file, 41, &expected)?, "the journal");
    Ok(())
}

/// The journal of a guest file in its canonical text, whose first round leaves few pages.
fn short_journal(alloc: Global, file: &str) -> Result<String, AllocError> {
    let ops = "f 0 0 1 05\nh 0 1\nx 0 halted\nw 1 0 0 41\nh 1 1\nx 1 halted\n";
    let rounds =
        "start 0\nask 1\nsync 1 0 2 0 1\nstop\nask 2\nsync 2 0 2 0 1\ncopy 2 0\ncopy 2 1\nswitched\n";
    joined(alloc, &[file, "journal\n", ops, rounds, "end\n"])
}

/// The first page begins with `A`, and the second is painted with 5.
fn is_painted(image: &[u8]) -> bool {
    image.starts_with(b"A\0")
        && image.get(4096).copied() == Some(5)
        && image.last().copied() == Some(5)
}

/// The ports hold this journal, a stream of a header, round 2, two pages and the end, and the
/// image.
fn is_short(out: &PortBook, journal: &[u8]) -> bool {
    out.bytes(Port::Journal) == journal
        && out.bytes(Port::Stream).len() == 16 + 8 + 2 * 4104 + 8
        && is_painted(out.bytes(Port::Image))
}

#[test]
fn stops_after_a_small_first_round(rt: HostRuntime) -> Result<(), Fail> {
    let alloc = rt.alloc();
    let head =
        "dirtyguest 1\nring 8\nreserve 2\nbuffer 0\npace 2\nthreshold 2\nrounds 1\nquota 0\n";
    let tail = "slot 0 0 2\nvcpu\nf 1 05\nhalt\nvcpu\nw 0 41\nhalt\n";
    let file = joined(alloc, &[head, tail])?;
    let end = step_on(alloc, &file, &[], 0)?;
    assert!(rt; end.status == Some(Status::Done), "the status");
    let journal = short_journal(alloc, &file)?;
    assert!(rt; is_short(&end.out, journal.as_bytes()), "the ports");
    Ok(())
}
