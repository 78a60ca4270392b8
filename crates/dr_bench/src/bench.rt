ghost use Rattle.std.specs.Prelude.{◌≡◌, ◌<◌, ◌≤◌, ◌-◌, ◌^◌, [], true, false, length};
ghost use Rattle.std.specs.Prelude.{Ok, Err, IfOk, IfErr, OnOk};
ghost use Rattle.dr_types.specs.Pages.{page_count};
ghost use Rattle.dr_types.specs.Ports.{Rose};
ghost use Rattle.dr_types.specs.Scripts.{vcpu_count};
ghost use Rattle.dr_types.specs.Validity.{IsValid};
ghost use Rattle.dr_history.specs.Legality.{IsLegal};
ghost use Rattle.dr_history.specs.Memory.{page_bytes};
ghost use Rattle.dr_history.specs.Stream.{sent_records};
ghost use Rattle.dr_log_turns.specs.Throttled.{last_throttle};
ghost use Rattle.dr_machine.specs.Answers.{ExitTurn, FlushTurn, IsNoteOf, OpTurn, ResetTurn};
ghost use Rattle.dr_machine.specs.Answers.{TellsDeposited};
ghost use Rattle.dr_machine.specs.Deposited.{DepositTurn};
ghost use Rattle.dr_machine.specs.Tied.{AreRingsFor};
ghost use Rattle.dr_seat_law.specs.Seats.{AreSeats};
ghost use Rattle.dr_turns.specs.Between.{AtTurnsEnd};
ghost use Rattle.dr_turns.specs.Due.{advanced, run_end};
ghost use Rattle.dr_turns.specs.Turns.{all_out};
ghost use Rattle.dr_bench.specs.Bench.{BenchKeeps, SameStanding, machine_of};
ghost use Rattle.dr_bench.specs.Records.{AdvanceFails};

use crate::records::{opens_at, put_record, stopped_after};
use dr_history::History;
use dr_io::{Outlet, PutTurn};
use dr_machine::{DepositFault, Machine};
use dr_ring::{Name, Note};
use dr_ring_set::{Batch, Rings};
use dr_stream::Sender;
use dr_turns::{Advance, RunEnd, Turn};
use dr_types::{Guest, Memory, Why};
use std::marker::Model;

/// Why an advance failed.
#[derive(Clone, Copy, Debug, PartialEq, Eq)]
pub enum BenchFault {
    /// A put of the stream failed.
    Sink,
    /// An allocation was refused.
    Memory,
}

impl From<Memory> for BenchFault {
    ghost use Rattle.std.specs.Prelude.{◌≡◌};
    ghost use Rattle.dr_bench.specs.declared.bench.BenchFault.TheVariants.{Memory};

    ghost from_gives = { λ _ fault. fault ≡ Memory };

    fn from(_error: Memory) -> BenchFault {
        BenchFault::Memory
    }
}

/// A machine and the outlet that its stream goes to. Its type keeps that the outlet's Stream port
/// has grown by the stream of what happened, or by a first part of it after a failed put, and that
/// its other ports are what they were. Contracts see the machine, the outlet, and whether a put
/// failed.
#[derive(Drop)]
pub struct Bench<N: Name, O: Outlet> {
    machine: Machine<N>,
    sender: Sender<O>,
    stopped: bool,
    failed: bool,
}

impl<N: Name, O: Outlet> Model for Bench<N, O> {
    ghost use Rattle.dr_bench.specs.Bench.{BenchView, BenchKeeps, IsTracked, bench_of};

    ghost Value = { BenchView };

    ghost view = { λ b. bench_of b.machine b.sender b.failed };

    ghost invariant = { λ b.
        BenchKeeps N.guest N.ports N.faults (bench_of b.machine b.sender b.failed)
        × IsTracked N.guest b.machine.past b.sender.records b.stopped };
}

impl<N: Name, O: Outlet> Bench<N, O> {
    /// A bench of a machine of which nothing has happened, and an outlet that is as the name says.
    #[tactic(auto, using(crate::proofs::Keeping::begins))]
    pub fn new(machine: Machine<N>, out: O) -> Bench<N, O>
        requires past { machine.past ≡ [] }
        requires ports { O.told out ≡ N.ports }
        requires faults { O.faults out ≡ N.faults }
        ensures past { result.past ≡ machine.past }
        ensures seats { result.seats ≡ machine.seats }
        ensures over { result.over ≡ machine.over }
        ensures failed { result.failed ≡ false }
        ensures told { result.told ≡ O.told out }
        ensures count { result.faults ≡ O.faults out }
    {
        Bench {
            machine,
            sender: Sender::new(out),
            stopped: false,
            failed: false,
        }
    }

    /// The machine and the outlet, with all that the type keeps.
    pub fn into_parts(self) -> (Machine<N>, O)
        ensures past { result.0.past ≡ self.past }
        ensures seats { result.0.seats ≡ self.seats }
        ensures over { result.0.over ≡ self.over }
        ensures told { O.told result.1 ≡ self.told }
        ensures count { O.faults result.1 ≡ self.faults }
        ensures keeps { BenchKeeps N.guest N.ports N.faults self }
        ensures legal { IsLegal N.guest self.past }
    {
        self.machine.recall_kept();
        (self.machine, self.sender.into_outlet())
    }

    /// What the type of a bench keeps.
    pub fn recall_kept(&self)
        ensures keeps { BenchKeeps N.guest N.ports N.faults self.now }
        ensures legal { IsLegal N.guest self.now.past }
        ensures end { AtTurnsEnd N.guest self.now.past }
        ensures seats { AreSeats N.guest self.now.past self.now.seats }
        ensures one_each { length self.now.seats ≡ vcpu_count N.guest }
        ensures rings { AreRingsFor N.guest N.rings }
    {
        self.machine.recall_kept();
    }

    /// A put failed before.
    pub fn failed(&self) -> bool
        ensures failed { result ≡ self.now.failed }
        ensures risen { result ≡ true → Rose N.faults self.now.faults }
        ensures over { result ≡ true → self.now.over ≡ true }
    {
        self.failed
    }

    /// Executes a vCPU's next op, or tells why not.
    pub fn op(&mut self, rings: &Rings<N>, v: u32) -> Result<Turn, Memory>
        requires { v < vcpu_count N.guest }
        ensures turn { OpTurn N.guest v result (machine_of self.old) (machine_of self.new) }
        ensures standing { SameStanding self.old self.new }
    {
        self.machine.op(rings, v)
    }

    /// A vCPU leaves the guest, after its whole buffer; `None` where it isn't in the guest.
    pub fn exit(&mut self, rings: &Rings<N>, v: u32) -> Result<Option<Why>, Memory>
        requires { v < vcpu_count N.guest }
        ensures turn { ExitTurn N.guest v result (machine_of self.old) (machine_of self.new) }
        ensures standing { SameStanding self.old self.new }
    {
        self.machine.exit(rings, v)
    }

    /// A copy of what v's kernel seat knows.
    pub fn note(&mut self, rings: &Rings<N>, v: u32) -> Note
        requires { v < vcpu_count N.guest }
        ensures stays { self.new ≡ self.old }
        ensures note { IsNoteOf N.rings self.old.seats v result }
    {
        self.machine.note(rings, v)
    }

    /// Deposits a batch, or hands it back where an entry of it was deposited before or there is no
    /// memory. Batches of one vCPU may come in any order.
    pub fn deposit(&mut self, rings: &Rings<N>, batch: Batch<N>) -> Result<(), DepositFault<N>>
        requires { 0 < length batch.entries }
        ensures turn { DepositTurn batch result (machine_of self.old) (machine_of self.new) }
        ensures standing { SameStanding self.old self.new }
    {
        self.machine.deposit(rings, batch)
    }

    /// How many of v's entries are deposited, where these are its first; `None` where one isn't and
    /// a later one is.
    pub fn deposited(&self, v: u32) -> Option<u64>
        requires { v < vcpu_count N.guest }
        ensures { TellsDeposited v self.now.past result }
    {
        self.machine.deposited(v)
    }

    /// Resets v's next entry, where that is deposited, and answers how many entries it reset.
    pub fn reset_turn(&mut self, rings: &Rings<N>, v: u32) -> Result<u32, Memory>
        requires { v < vcpu_count N.guest }
        ensures turn { ResetTurn v result (machine_of self.old) (machine_of self.new) }
        ensures standing { SameStanding self.old self.new }
    {
        self.machine.reset_turn(rings, v)
    }

    /// Drops all permissions that vCPUs have, where a page was reset since the last flush. Answers
    /// whether there was one.
    pub fn flush(&mut self) -> Result<bool, Memory>
        ensures turn { FlushTurn N.guest result (machine_of self.old) (machine_of self.new) }
        ensures standing { SameStanding self.old self.new }
    {
        self.machine.flush()
    }

    /// Makes the advance that is due, and puts its record in the same turn. Where that
    /// put fails, what the advance appended stands, and the run is given up.
    pub fn advance(&mut self, now: u64) -> Result<Advance, BenchFault>
        requires { self.old.failed ≡ false }
        ensures answer { IfOk result (λ a. a ≡ (advanced N.guest now self.old.past).0) }
        ensures appended { OnOk result (self.new.past ≡ (advanced N.guest now self.old.past).1) }
        ensures over { OnOk result (self.new.over ≡ self.old.over) }
        ensures failed { OnOk result (self.new.failed ≡ false) }
        ensures seats { self.new.seats ≡ self.old.seats }
        ensures later { self.old.faults ≤ self.new.faults }
        ensures fault { IfErr result (AdvanceFails N.guest now self.old self.new) }
    {
        self.recall_room();
        // Copy, clearing and record are one turn: a write comes before all of it and is sent, or
        // after all of it and makes the page dirty again.
        let due = self.machine.make_advance(now)?;
        let opens = opens_at(self.machine.guest(), self.stopped, due);
        self.stopped = stopped_after(self.stopped, due);
        match put_record(&mut self.sender, &self.machine, due, opens) {
            PutTurn::Done => Ok(due),
            PutTurn::Failed => {
                self.failed = true;
                self.machine.give_up();
                Err(BenchFault::Sink)
            }
        }
    }

    /// One record of pages more may be put, and the guest's pages have room in their count.
    #[tactic(auto, using(crate::proofs::Counting::records_fit))]
    fn recall_room(&self)
        ensures few { sent_records N.guest self.now.past < 2 ^ 32 - 1 }
        ensures pages { page_count N.guest < 2 ^ 32 }
    {
        let _recall_guest = self.machine.guest();
        self.machine.recall_kept();
    }

    /// How long a vCPU was last throttled, in microseconds: what its last Throttled says, or 0.
    pub fn throttle_us(&self, v: u32) -> u64
        requires { v < vcpu_count N.guest }
        ensures { result ≡ last_throttle v self.now.past }
    {
        self.machine.throttle_us(v)
    }

    /// Ends the run: from now on no vCPU executes.
    pub fn give_up(&mut self)
        ensures { self.new ≡ record self.old { over = true } }
    {
        self.machine.give_up();
    }

    /// The run was given up.
    pub fn over(&self) -> bool
        ensures { result ≡ self.now.over }
    {
        self.machine.over()
    }

    /// The guest is stopped, or every vCPU has halted.
    pub fn all_out(&self) -> bool
        ensures { result ≡ all_out N.guest self.now.past }
    {
        self.machine.all_out()
    }

    /// Where the run stands.
    pub fn end(&self) -> RunEnd
        ensures { result ≡ run_end N.guest self.now.past }
    {
        self.machine.end()
    }

    /// The guest that the name fixes.
    pub fn guest(&self) -> &Guest
        ensures is { result.now ≡ N.guest }
        ensures valid { IsValid result.now }
    {
        self.machine.guest()
    }

    /// What has happened, which is legal.
    pub fn history(&self) -> &History
        ensures past { result.now.past ≡ self.now.past }
        ensures legal { IsLegal N.guest result.now.past }
    {
        self.machine.history()
    }

    /// The bytes of a page.
    pub fn page(&self, page: u32) -> &[u8]
        requires { page < page_count N.guest }
        ensures bytes { result.now ≡ page_bytes N.guest page self.now.past }
        ensures len { length result.now ≡ 4096 }
    {
        self.machine.page(page)
    }
}
