ghost use Rattle.std.specs.Prelude.{◌≡◌, ◌<◌, ◌≤◌, ◌+◌, ◌^◌, ◌∷◌, ◌||◌, not, true, false, Some};
ghost use Rattle.std.specs.Prelude.{None, IfSome};
ghost use Rattle.dr_types.specs.Pages.{page_count};
ghost use Rattle.dr_types.specs.Scripts.{operation, vcpu_count};
ghost use Rattle.dr_history.specs.declared.event.Event.{Event};
ghost use Rattle.dr_history.specs.Entries.{opens};
ghost use Rattle.dr_history.specs.Execution.{ops};
ghost use Rattle.dr_history.specs.Lines.{FitsLine};
ghost use Rattle.dr_history.specs.Protection.{started, cached, writable};
ghost use Rattle.dr_event_law.specs.May.{WritesNext};
ghost use Rattle.dr_event_law.specs.Operations.{op_page};
ghost use Rattle.dr_log.specs.Room.{HasEntry, has_page};
ghost use Rattle.dr_turns.specs.Between.{MayTurn};
ghost use Rattle.dr_turns.specs.Turns.{event_after, executed};

use dr_history::Event;
use dr_log::Log;
use dr_slots::{page_of_address, page_of_frame};
use dr_types::{Guest, Op};

/// The page that an op writes.
pub fn written_page(guest: &Guest, op: Op) -> Option<u32>
    requires { page_count guest.now < 2 ^ 32 }
    ensures is { result ≡ op_page guest.now op }
    ensures within { IfSome result (λ page. page < page_count guest.now) }
{
    match op {
        Op::W { space, addr, .. } | Op::S { space, addr } => page_of_address(guest, space, addr),
        Op::F { space, gfn, .. } => page_of_frame(guest, space, gfn),
        _ => None,
    }
}

/// A write that needs no permission.
#[tactic(auto, using(crate::proofs::Used::for_write_alone))]
fn write_alone(log: &mut Log, v: u32, e: Event, page: u32)
    requires turn { MayTurn log.old.guest log.old.past v }
    requires event { WritesNext log.old.guest log.old.past v page e }
    requires fits { FitsLine e }
    requires free { (not (started log.old.past) || cached v page log.old.past) ≡ true }
    requires events { 1 ≤ log.old.room.events }
    requires room { has_page page log.old.room ≡ true }
    ensures guest { log.new.guest ≡ log.old.guest }
    ensures past { log.new.past ≡ e ∷ log.old.past }
    ensures events { log.old.room.events ≤ log.new.room.events + 1 }
{
    log.take(e);
}

/// A write to a writable page, after the vCPU's permission.
#[tactic(auto, using(crate::proofs::Used::for_write_filled))]
fn write_filled(log: &mut Log, v: u32, e: Event, page: u32)
    requires turn { MayTurn log.old.guest log.old.past v }
    requires event { WritesNext log.old.guest log.old.past v page e }
    requires fits { FitsLine e }
    requires within { page < page_count log.old.guest }
    requires asks { (not (started log.old.past) || cached v page log.old.past) ≡ false }
    requires writable { writable page log.old.past ≡ true }
    requires events { 2 ≤ log.old.room.events }
    requires room { has_page page log.old.room ≡ true }
    ensures guest { log.new.guest ≡ log.old.guest }
    ensures past { log.new.past ≡ e ∷ Event.Filled v page ∷ log.old.past }
    ensures events { log.old.room.events ≤ log.new.room.events + 2 }
{
    log.take(Event::Filled { v, page });
    log.take(e);
}

/// A write to a protected page, after the entry that it opens.
#[tactic(auto, using(crate::proofs::Used::for_write_opened))]
fn write_opened(log: &mut Log, v: u32, e: Event, page: u32)
    requires turn { MayTurn log.old.guest log.old.past v }
    requires vcpu { v < vcpu_count log.old.guest }
    requires event { WritesNext log.old.guest log.old.past v page e }
    requires fits { FitsLine e }
    requires within { page < page_count log.old.guest }
    requires asks { (not (started log.old.past) || cached v page log.old.past) ≡ false }
    requires protected { writable page log.old.past ≡ false }
    requires events { 2 ≤ log.old.room.events }
    requires entry { HasEntry v log.old.room }
    requires room { has_page page log.old.room ≡ true }
    ensures guest { log.new.guest ≡ log.old.guest }
    ensures past { log.new.past ≡ e ∷ Event.Opened v (opens v log.old.past) page ∷ log.old.past }
    ensures events { log.old.room.events ≤ log.new.room.events + 2 }
{
    let k = log.opens(v);
    log.take(Event::Opened { v, k, page });
    log.take(e);
}

/// A write, after what its page needs.
fn write(log: &mut Log, v: u32, e: Event, page: u32)
    requires turn { MayTurn log.old.guest log.old.past v }
    requires vcpu { v < vcpu_count log.old.guest }
    requires event { WritesNext log.old.guest log.old.past v page e }
    requires fits { FitsLine e }
    requires within { page < page_count log.old.guest }
    requires events { 2 ≤ log.old.room.events }
    requires entry { HasEntry v log.old.room }
    requires room { has_page page log.old.room ≡ true }
    ensures guest { log.new.guest ≡ log.old.guest }
    ensures past { log.new.past ≡ event_after v e (Some page) log.old.past }
    ensures events { log.old.room.events ≤ log.new.room.events + 2 }
{
    let started = log.started();
    let cached = log.cached(v, page);
    let writable = log.writable(page);
    if !started || cached {
        write_alone(log, v, e, page);
    } else if writable {
        write_filled(log, v, e, page);
    } else {
        write_opened(log, v, e, page);
    }
}

/// The vCPU executes its next op, after what the page needs that it writes.
#[tactic(auto, unfolding(dr_turns::specs::Turns::executed), using(crate::proofs::Used::for_op))]
pub fn execute(log: &mut Log, v: u32, op: Op)
    requires turn { MayTurn log.old.guest log.old.past v }
    requires vcpu { v < vcpu_count log.old.guest }
    requires op { operation log.old.guest v (ops v log.old.past) ≡ Some op }
    requires events { 2 ≤ log.old.room.events }
    requires entry { HasEntry v log.old.room }
    requires room { IfSome (op_page log.old.guest op) (λ page. has_page page log.old.room ≡ true) }
    ensures guest { log.new.guest ≡ log.old.guest }
    ensures past { log.new.past ≡ executed log.old.guest v log.old.past }
    ensures events { log.old.room.events ≤ log.new.room.events + 2 }
{
    let e = log.op_event(v, op);
    match written_page(log.guest(), op) {
        None => log.take(e),
        Some(page) => write(log, v, e, page),
    }
}
