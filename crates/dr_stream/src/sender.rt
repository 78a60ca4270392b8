ghost use Rattle.std.specs.Prelude.{◌≡◌, ◌+◌, ◌-◌, ◌^◌, ◌<◌, ◌++◌, length};
ghost use Rattle.dr_history.specs.Parts.{end_record, header, page_record, round_record, word};
ghost use Rattle.dr_history.specs.Parts.{zeros_record};
ghost use Rattle.dr_history.specs.Stream.{written_version};
ghost use Rattle.dr_stream.specs.Sending.{Sends};

use dr_io::{Outlet, PutTurn};
use dr_types::Port;
use dr_types::limits::PAGE_BYTES;
use std::marker::Model;

/// The version of the stream.
const VERSION: u32 = 2;

/// How many bytes a record has for its kind and its number.
const HEAD_BYTES: usize = 8;

/// How many bytes a record of zeros has.
const ZEROS_BYTES: usize = HEAD_BYTES + 4;

/// Puts a migration stream on an outlet, each part by one put on `Port::Stream`. Contracts see what
/// the outlet tells, its count of faults, and how many records of pages were put.
#[derive(Drop)]
pub struct Sender<O: Outlet> {
    out: O,
    records: u32,
}

impl<O: Outlet> Model for Sender<O> {
    ghost use Rattle.dr_stream.specs.Sending.{Sending};

    ghost Value = { Sending };

    ghost view = { λ s. record {
      told = O.told s.out;
      faults = O.faults s.out;
      records = s.records;
    } };
}

impl<O: Outlet> Sender<O> {
    /// A sender over an outlet. Nothing is put.
    pub fn new(out: O) -> Sender<O>
        ensures { result ≡ record { told = O.told out; faults = O.faults out; records = 0 } }
    {
        Sender { out, records: 0 }
    }

    /// The outlet. Nothing is put.
    pub fn into_outlet(self) -> O
        ensures told { O.told result ≡ self.told }
        ensures faults { O.faults result ≡ self.faults }
    {
        self.out
    }

    /// Puts the header of a stream of so many pages.
    pub fn header(&mut self, pages: u32) -> PutTurn
        ensures { Sends self.old (header written_version pages) result self.new self.old.records }
    {
        let mut bytes = [0; 16];
        bytes[..8].copy_from_slice(b"DRSTREAM");
        bytes[8..12].copy_from_slice(&VERSION.to_le_bytes());
        bytes[12..].copy_from_slice(&pages.to_le_bytes());
        self.out.put(Port::Stream, &bytes)
    }

    /// Puts the record that begins round `r`.
    pub fn round(&mut self, r: u32) -> PutTurn
        ensures { Sends self.old (round_record r) result self.new self.old.records }
    {
        self.out.put(Port::Stream, &head(1, r))
    }

    /// Puts the record of page `p` with its 4,096 bytes. It counts as put even where the put fails.
    pub fn page(&mut self, p: u32, bytes: &[u8]) -> PutTurn
        requires whole { length bytes.now ≡ PAGE_BYTES }
        requires few { self.old.records < 2 ^ 32 - 1 }
        ensures { Sends self.old (page_record p bytes.now) result self.new (self.old.records + 1) }
    {
        let mut record = [0; HEAD_BYTES + PAGE_BYTES];
        record[..HEAD_BYTES].copy_from_slice(&head(2, p));
        record[HEAD_BYTES..].copy_from_slice(bytes);
        self.records += 1;
        self.out.put(Port::Stream, &record)
    }

    /// Puts the record of so many pages of zeros, from a first one on. It counts as put even where
    /// the put fails.
    pub fn zeros(&mut self, first: u32, count: u32) -> PutTurn
        requires few { self.old.records < 2 ^ 32 - 1 }
        ensures { Sends self.old (zeros_record first count) result self.new
            (self.old.records + 1) }
    {
        let mut zeros = [0; ZEROS_BYTES];
        zeros[..HEAD_BYTES].copy_from_slice(&head(4, first));
        zeros[HEAD_BYTES..].copy_from_slice(&count.to_le_bytes());
        self.records += 1;
        self.out.put(Port::Stream, &zeros)
    }

    /// Puts the end record, which says how many records of pages were put.
    pub fn finish(&mut self) -> PutTurn
        ensures { Sends self.old (end_record self.old.records) result self.new self.old.records }
    {
        self.out.put(Port::Stream, &head(3, self.records))
    }
}

/// The first bytes of a record: its kind and its number.
fn head(kind: u32, number: u32) -> [u8; HEAD_BYTES]
    ensures { result ≡ word kind ++ word number }
{
    let mut bytes = [0; HEAD_BYTES];
    bytes[..4].copy_from_slice(&kind.to_le_bytes());
    bytes[4..].copy_from_slice(&number.to_le_bytes());
    bytes
}
