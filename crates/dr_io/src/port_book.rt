ghost use Rattle.std.specs.Prelude.{◌≡◌, ◌++◌, Some, OnOk, OnErr, IsTrue};
ghost use Rattle.dr_io.specs.Numbers.{one_more, is_listed};
ghost use Rattle.dr_io.specs.Puts.{Puts};
ghost use Rattle.dr_io.specs.Book.{
  empty_book,
  told_by,
  bytes_of,
  with_added,
  counted,
  after_put,
};
ghost use Rattle.dr_io.specs.declared.outlet.PutTurn.TheVariants.{Failed};

use crate::outlet::{Outlet, PutTurn};
use dr_types::{Bytes, Listed, Memory, NumberList, Port};
use std::alloc::Global;
use std::marker::Model;

/// Four ports in memory. It fails at the listed puts, numbered from 1, and where memory is refused,
/// and adds nothing there.
#[derive(Debug, Drop)]
pub struct PortBook {
    report: Bytes,
    stream: Bytes,
    image: Bytes,
    journal: Bytes,
    fails: NumberList,
    puts: u64,
    faults: u64,
}

impl Model for PortBook {
    ghost use Rattle.dr_io.specs.Book.{Book};

    ghost Value = { Book };

    ghost view = { λ b. record {
      report = b.report;
      stream = b.stream;
      image = b.image;
      journal = b.journal;
      fails = b.fails;
      puts = b.puts;
      faults = b.faults;
    } };
}

impl PortBook {
    /// Four empty ports.
    pub fn new(alloc: Global, fails: NumberList) -> PortBook
        ensures { result ≡ empty_book fails }
    {
        PortBook {
            report: Listed::new(alloc),
            stream: Listed::new(alloc),
            image: Listed::new(alloc),
            journal: Listed::new(alloc),
            fails,
            puts: 0,
            faults: 0,
        }
    }

    /// The bytes of a port.
    pub fn bytes(&self, port: Port) -> &[u8]
        ensures { result.now ≡ bytes_of port self.now }
    {
        match port {
            Port::Report => self.report.as_slice(),
            Port::Stream => self.stream.as_slice(),
            Port::Image => self.image.as_slice(),
            Port::Journal => self.journal.as_slice(),
        }
    }

    fn add(&mut self, port: Port, bytes: &[u8]) -> Result<(), Memory>
        ensures ok { OnOk result (self.new ≡ with_added port bytes.now self.old) }
        ensures err { OnErr result (self.new ≡ self.old) }
    {
        match port {
            Port::Report => self.report.append(bytes),
            Port::Stream => self.stream.append(bytes),
            Port::Image => self.image.append(bytes),
            Port::Journal => self.journal.append(bytes),
        }
    }
}

impl Outlet for PortBook {
    ghost told = { told_by };

    ghost faults = { λ b. b.faults };

    /// Adds bytes to a port.
    fn put(&mut self, port: Port, bytes: &[u8]) -> PutTurn
        ensures puts { Puts (told_by self.old) self.old.faults port bytes.now result
            (told_by self.new) self.new.faults }
        ensures after { self.new ≡ after_put self.old port bytes.now result }
        ensures listed { IsTrue (is_listed (one_more self.old.puts) self.old.fails)
            → result ≡ Failed }
    {
        self.puts = self.puts.saturating_add(1);
        let is_listed = self.fails.as_slice().contains(&self.puts);
        if !is_listed && self.add(port, bytes).is_ok() {
            return PutTurn::Done;
        }
        self.faults = self.faults.saturating_add(1);
        PutTurn::Failed
    }
}
