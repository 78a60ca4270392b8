ghost use Rattle.std.specs.Prelude.{◌≡◌, ◌≤◌, ◌<◌, Some, drop, length};
ghost use Rattle.dr_io.specs.Reading.{Reads};
ghost use Rattle.dr_io.specs.Feed.{new_feed, next_turn, after_read};

use crate::source::{ReadTurn, Source};
use dr_types::{Bytes, NumberList};
use std::marker::Model;

/// Bytes in memory, given in pieces of at most so many. It fails at the listed reads, numbered
/// from 1, and at no other.
#[derive(Debug, Drop)]
pub struct ByteSource {
    bytes: Bytes,
    taken: usize,
    piece: usize,
    fails: NumberList,
    reads: u64,
    faults: u64,
}

impl Model for ByteSource {
    ghost use Rattle.std.specs.Prelude.{◌≤◌, drop, length};
    ghost use Rattle.dr_io.specs.Feed.{Feed};

    ghost Value = { Feed };

    ghost view = { λ s. record {
      remaining = drop s.taken s.bytes;
      piece = s.piece;
      fails = s.fails;
      reads = s.reads;
      faults = s.faults;
    } };

    ghost invariant = { λ s. (s.taken ≤ length s.bytes) × (1 ≤ s.piece) };
}

impl ByteSource {
    /// A source of these bytes, which gives at most `piece` bytes a read.
    pub fn new(bytes: Bytes, piece: usize, fails: NumberList) -> ByteSource
        requires { 1 ≤ piece }
        ensures { result ≡ new_feed bytes piece fails }
    {
        ByteSource {
            bytes,
            taken: 0,
            piece,
            fails,
            reads: 0,
            faults: 0,
        }
    }
}

impl Source for ByteSource {
    ghost remaining = { λ s. Some s.remaining };

    ghost faults = { λ s. s.faults };

    /// Reads the next bytes into the front of `buf`.
    fn read(&mut self, buf: &mut [u8]) -> ReadTurn
        requires { 0 < length buf.old }
        ensures reads { Reads (Some self.old.remaining) self.old.faults buf.new result
            (Some self.new.remaining) self.new.faults }
        ensures turn { result ≡ next_turn self.old (length buf.old) }
        ensures after { self.new ≡ after_read self.old result }
    {
        self.reads = self.reads.saturating_add(1);
        if self.fails.as_slice().contains(&self.reads) {
            self.faults = self.faults.saturating_add(1);
            return ReadTurn::Failed;
        }
        let remaining = &self.bytes.as_slice()[self.taken..];
        if remaining.is_empty() {
            return ReadTurn::End;
        }
        let n = remaining.len().min(self.piece).min(buf.len());
        buf[..n].copy_from_slice(&remaining[..n]);
        self.taken += n;
        ReadTurn::Bytes(n)
    }
}
