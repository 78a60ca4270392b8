ghost use Rattle.std.specs.Prelude.{◌≡◌, ◌<◌, [], true, false, map, length};
ghost use Rattle.std.specs.Prelude.{Some, IfOk, OnOk, OnErr};
ghost use Rattle.dr_types.specs.Pages.{page_count};
ghost use Rattle.dr_types.specs.Scripts.{operation, vcpu_count};
ghost use Rattle.dr_types.specs.Validity.{IsValid};
ghost use Rattle.dr_history.specs.Execution.{ops};
ghost use Rattle.dr_history.specs.Legality.{IsLegal};
ghost use Rattle.dr_history.specs.Memory.{page_bytes};
ghost use Rattle.dr_ring.specs.Seats.{new_kernel};
ghost use Rattle.dr_seat_law.specs.Seats.{AreSeats};
ghost use Rattle.dr_turns.specs.Between.{AtTurnsEnd, MayTurn};
ghost use Rattle.dr_turns.specs.Due.{advanced, run_end};
ghost use Rattle.dr_turns.specs.Turns.{all_out, op_step, after_op};
ghost use Rattle.dr_log_turns.specs.Throttled.{last_throttle};
ghost use Rattle.dr_machine.specs.Answers.{ExitTurn, FlushTurn, IsNoteOf, OpTurn, ResetTurn};
ghost use Rattle.dr_machine.specs.Answers.{TellsDeposited};
ghost use Rattle.dr_machine.specs.Copies.{CopiesWithin, copied_into};
ghost use Rattle.dr_machine.specs.Deposited.{DepositTurn};
ghost use Rattle.dr_machine.specs.Tied.{AreRingsFor};

use crate::copies::read_copied;
use crate::deposits::DepositFault;
use crate::kept::Kept;
use crate::seated::SeatedLog;
use dr_history::History;
use dr_log_turns::{
    Throttles, all_out, deposited, first_twice, full_buffer, is_closing, is_next_deposited,
    next_op, run_end, step_after,
};
use dr_memory::PageBytes;
use dr_ring::{Name, Note};
use dr_ring_set::{Batch, KernelSeats, Rings};
use dr_turns::{Advance, RunEnd, Turn};
use dr_types::{Guest, Memory, Op, Why};
use std::alloc::Global;
use std::marker::Model;

/// The guest that the name fixes, what has happened to it, and the kernel seats of its rings. Its
/// type keeps that the history is legal, that nothing is owed between turns, and that each seat has
/// pushed and reset what the events say.
#[derive(Drop)]
pub struct Machine<N: Name> {
    alloc: Global,
    seated: SeatedLog<N>,
    throttles: Throttles,
    over: bool,
}

impl<N: Name> Model for Machine<N> {
    ghost use Rattle.dr_turns.specs.Between.{AtTurnsEnd};
    ghost use Rattle.dr_log_turns.specs.Throttled.{AreThrottles};
    ghost use Rattle.dr_machine.specs.Views.{MachineView};

    ghost Value = { MachineView };

    ghost view = { λ m.
        record { past = m.seated.past; seats = m.seated.seats; over = m.over } };

    ghost invariant = { λ m.
        AtTurnsEnd N.guest m.seated.past × AreThrottles N.guest m.seated.past m.throttles };
}

impl<N: Name> Machine<N> {
    /// A machine of which nothing has happened.
    pub(crate) fn new(
        alloc: Global,
        guest: &Guest,
        seats: KernelSeats<N>,
    ) -> Result<Machine<N>, Memory>
        requires guest { guest.now ≡ N.guest }
        requires valid { IsValid guest.now }
        requires rings { AreRingsFor N.guest N.rings }
        requires seats { seats ≡ map new_kernel N.rings }
        ensures past { IfOk result (λ m. m.past ≡ []) }
        ensures seats { IfOk result (λ m. m.seats ≡ seats) }
        ensures over { IfOk result (λ m. m.over ≡ false) }
    {
        let seated = SeatedLog::new(alloc, guest, seats)?;
        let throttles = Throttles::new(alloc, seated.log().vcpus())?;
        Ok(Machine {
            alloc,
            seated,
            throttles,
            over: false,
        })
    }

    /// What the type of a machine keeps: its history is legal, and the list of each kernel seat has
    /// its vCPU's entries from the first to the last that is pushed, with their number that is
    /// reset. No buffer is full.
    pub fn recall_kept(&self)
        ensures legal { IsLegal N.guest self.now.past }
        ensures end { AtTurnsEnd N.guest self.now.past }
        ensures seats { AreSeats N.guest self.now.past self.now.seats }
        ensures one_each { length self.now.seats ≡ vcpu_count N.guest }
        ensures rings { AreRingsFor N.guest N.rings }
    {
        self.seated.recall_legal();
        self.seated.recall_seats();
    }

    /// Executes a vCPU's next op, or tells why not.
    pub fn op(&mut self, rings: &Rings<N>, v: u32) -> Result<Turn, Memory>
        requires { v < vcpu_count N.guest }
        ensures { OpTurn N.guest v result self.old self.new }
    {
        match next_op(self.seated.log(), self.over, v) {
            Err(turn) => Ok(turn),
            Ok(op) => self.execute(rings, v, op),
        }
    }

    /// Executes an op, which is the vCPU's next.
    #[tactic(auto, using(crate::proofs::Used::for_op_throttles))]
    fn execute(&mut self, rings: &Rings<N>, v: u32, op: Op) -> Result<Turn, Memory>
        requires vcpu { v < vcpu_count N.guest }
        requires turn { MayTurn N.guest self.old.past v }
        requires op { operation N.guest v (ops v self.old.past) ≡ Some op }
        ensures done { IfOk result (λ turn. turn ≡ Turn.Done (op_step (Some op))) }
        ensures appended { OnOk result (self.new.past ≡ after_op N.guest v self.old.past) }
        ensures over { self.new.over ≡ self.old.over }
        ensures err { OnErr result (self.new ≡ self.old) }
    {
        self.seated.execute(rings, v, op)?;
        Ok(Turn::Done(step_after(op)))
    }

    /// A vCPU leaves the guest, after its whole buffer; `None` where it isn't in the guest.
    pub fn exit(&mut self, rings: &Rings<N>, v: u32) -> Result<Option<Why>, Memory>
        requires { v < vcpu_count N.guest }
        ensures { ExitTurn N.guest v result self.old self.new }
    {
        let inside = self.seated.log().in_guest(v);
        if inside {
            let events = full_buffer(self.seated.log().guest()) + 1;
            self.seated.reserve(events)?;
            Ok(Some(self.seated.leave(rings, v)))
        } else {
            Ok(None)
        }
    }

    /// A copy of what v's kernel seat knows.
    pub fn note(&mut self, rings: &Rings<N>, v: u32) -> Note
        requires { v < vcpu_count N.guest }
        ensures stays { self.new ≡ self.old }
        ensures note { IsNoteOf N.rings self.old.seats v result }
    {
        self.seated.note(rings, v)
    }

    /// Deposits a batch, or hands it back where an entry of it was deposited before or there is no
    /// memory. Batches of one vCPU may come in any order.
    pub fn deposit(&mut self, rings: &Rings<N>, batch: Batch<N>) -> Result<(), DepositFault<N>>
        requires { 0 < length batch.entries }
        ensures { DepositTurn batch result self.old self.new }
    {
        self.seated.recall_seats();
        let to = batch.first + batch.entries.len() as u64;
        match first_twice(self.seated.log(), batch.vcpu, batch.first, to) {
            Some(k) => return Err(DepositFault::Twice { batch, k }),
            None => {}
        }
        // Twice is judged before memory: a batch that can never be deposited isn't tried again.
        match self.seated.reserve(1) {
            Ok(()) => {}
            Err(_) => return Err(DepositFault::Memory { batch }),
        }
        self.seated.deposit_fresh(rings, batch);
        Ok(())
    }

    /// How many of v's entries are deposited, where these are its first; `None` where one isn't and
    /// a later one is.
    pub fn deposited(&self, v: u32) -> Option<u64>
        requires { v < vcpu_count N.guest }
        ensures { TellsDeposited v self.now.past result }
    {
        deposited(self.seated.log(), v)
    }

    /// Resets v's next entry, where that is deposited, and answers how many entries it reset.
    pub fn reset_turn(&mut self, rings: &Rings<N>, v: u32) -> Result<u32, Memory>
        requires { v < vcpu_count N.guest }
        ensures { ResetTurn v result self.old self.new }
    {
        if is_next_deposited(self.seated.log(), v) {
            self.seated.reserve(1)?;
            // The page stays on the list of closing pages until a flush, so it needs its place
            // there.
            self.seated.make_closing_room()?;
            self.seated.reset_next(rings, v);
            Ok(1)
        } else {
            Ok(0)
        }
    }

    /// Drops all permissions that vCPUs have, where a page was reset since the last flush. Answers
    /// whether there was one.
    pub fn flush(&mut self) -> Result<bool, Memory>
        ensures { FlushTurn N.guest result self.old self.new }
    {
        if is_closing(self.seated.log()) {
            self.seated.reserve(1)?;
            self.seated.flush();
            Ok(true)
        } else {
            Ok(false)
        }
    }

    /// Makes the advance that is due: the first of the list that applies. A page that it
    /// copies goes into the bytes.
    #[tactic(auto, using(crate::proofs::Copying::same_bytes))]
    pub fn advance(&mut self, now: u64, into: &mut PageBytes) -> Result<Advance, Memory>
        ensures answer { IfOk result (λ a. a ≡ (advanced N.guest now self.old.past).0) }
        ensures appended { OnOk result (self.new.past ≡ (advanced N.guest now self.old.past).1) }
        ensures seats { self.new.seats ≡ self.old.seats }
        ensures over { self.new.over ≡ self.old.over }
        ensures into { IfOk result (λ a. into.new ≡ copied_into N.guest self.old.past a into.old) }
        ensures err { OnErr result (self.new ≡ self.old) }
        ensures kept { OnErr result (into.new ≡ into.old) }
    {
        self.recall_kept();
        let due = self.make_advance(now)?;
        read_copied(self.seated.log(), due, into);
        Ok(due)
    }

    /// Makes the advance that is due, as `advance` does. The bytes of a page that it copies are
    /// left to be read by `page`.
    #[tactic(auto, using(crate::proofs::Copying::copies_within))]
    pub fn make_advance(&mut self, now: u64) -> Result<Advance, Memory>
        ensures answer { IfOk result (λ a. a ≡ (advanced N.guest now self.old.past).0) }
        ensures appended { OnOk result (self.new.past ≡ (advanced N.guest now self.old.past).1) }
        ensures within { IfOk result (CopiesWithin N.guest) }
        ensures seats { self.new.seats ≡ self.old.seats }
        ensures over { self.new.over ≡ self.old.over }
        ensures err { OnErr result (self.new ≡ self.old) }
    {
        self.seated.recall_legal();
        let due = self.seated.advance(self.alloc, now)?;
        self.throttles.follow(self.seated.log(), due);
        Ok(due)
    }

    /// How long a vCPU was last throttled, in microseconds: what its last Throttled says, or 0.
    pub fn throttle_us(&self, v: u32) -> u64
        requires { v < vcpu_count N.guest }
        ensures { result ≡ last_throttle v self.now.past }
    {
        self.throttles.of(v)
    }

    /// Ends the run: from now on no vCPU executes.
    pub fn give_up(&mut self)
        ensures { self.new ≡ record self.old { over = true } }
    {
        self.over = true;
    }

    /// The run was given up.
    pub fn over(&self) -> bool
        ensures { result ≡ self.now.over }
    {
        self.over
    }

    /// The guest is stopped, or every vCPU has halted.
    pub fn all_out(&self) -> bool
        ensures { result ≡ all_out N.guest self.now.past }
    {
        all_out(self.seated.log())
    }

    /// Where the run stands.
    pub fn end(&self) -> RunEnd
        ensures { result ≡ run_end N.guest self.now.past }
    {
        run_end(self.seated.log())
    }

    /// The guest that the name fixes.
    pub fn guest(&self) -> &Guest
        ensures is { result.now ≡ N.guest }
        ensures valid { IsValid result.now }
    {
        self.seated.log().guest()
    }

    /// What has happened, which is legal.
    pub fn history(&self) -> &History
        ensures past { result.now.past ≡ self.now.past }
        ensures legal { IsLegal N.guest result.now.past }
    {
        self.seated.log().history()
    }

    /// The bytes of a page.
    #[tactic(auto, using(dr_history::proofs::Pages::whole_page))]
    pub fn page(&self, page: u32) -> &[u8]
        requires { page < page_count N.guest }
        ensures bytes { result.now ≡ page_bytes N.guest page self.now.past }
        ensures len { length result.now ≡ 4096 }
    {
        self.seated.log().page(page)
    }

    /// What is left without the name: the guest that it fixes, the history and the kernel seats,
    /// one for each vCPU.
    pub fn keep(self) -> Kept
        ensures guest { result.guest ≡ N.guest }
        ensures past { result.past ≡ self.past }
        ensures seats { result.seats ≡ self.seats }
        ensures one_each { length result.seats ≡ vcpu_count N.guest }
    {
        self.recall_kept();
        let Machine { seated, .. } = self;
        let (guest, history, seats) = seated.into_parts();
        Kept::of(guest, history, seats)
    }
}
