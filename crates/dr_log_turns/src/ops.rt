ghost use Rattle.std.specs.Prelude.{◌≡◌, ◌<◌, ◌≤◌, ◌+◌, max, Some, None, IfOk, IfErr, OnOk};
ghost use Rattle.std.specs.Prelude.{IfSome, true};
ghost use Rattle.dr_types.specs.Scripts.{operation, vcpu_count};
ghost use Rattle.dr_history.specs.Execution.{ops};
ghost use Rattle.dr_event_law.specs.Operations.{op_page};
ghost use Rattle.dr_log.specs.Room.{HasEntry, has_page};
ghost use Rattle.dr_turns.specs.Between.{AtTurnsEnd, MayTurn};
ghost use Rattle.dr_turns.specs.Turns.{refusal, op_step};

use crate::writes::written_page;
use dr_log::Log;
use dr_turns::Turn;
use dr_types::{Guest, Memory, Op, Step};

/// How many entries fill a buffer.
pub fn full_buffer(guest: &Guest) -> u64
    ensures { result ≡ max 1 guest.now.settings.buffer }
{
    u64::from(guest.settings.buffer.max(1))
}

/// Why a vCPU executes nothing, if it doesn't.
fn refusal(log: &Log, over: bool, v: u32) -> Option<Turn>
    requires { v < vcpu_count log.now.guest }
    ensures { result ≡ refusal log.now.guest over v log.now.past }
{
    let used = log.used(v);
    let soft = u64::from(log.guest().settings.soft_limit());
    if over {
        Some(Turn::Over)
    } else if log.halted(v) {
        Some(Turn::Ended)
    } else if log.stopped() {
        Some(Turn::Stopped)
    } else if log.kicked(v) {
        Some(Turn::Kicked)
    } else if soft <= used {
        Some(Turn::Full { used, soft })
    } else {
        None
    }
}

/// The op that a vCPU executes next, or why it executes nothing.
#[tactic(auto, using(dr_turns_law::proofs::Executing::may_turn))]
pub fn next_op(log: &Log, over: bool, v: u32) -> Result<Op, Turn>
    requires vcpu { v < vcpu_count log.now.guest }
    requires end { AtTurnsEnd log.now.guest log.now.past }
    ensures refused { IfErr result (λ turn. refusal log.now.guest over v log.now.past ≡ Some turn) }
    ensures free { OnOk result (refusal log.now.guest over v log.now.past ≡ None) }
    ensures turn { OnOk result (MayTurn log.now.guest log.now.past v) }
    ensures op { IfOk result (λ op. operation log.now.guest v (ops v log.now.past) ≡ Some op) }
{
    match refusal(log, over, v) {
        Some(turn) => return Err(turn),
        None => {}
    }
    log.recall_legal();
    match log.next_op(v) {
        Some(op) => Ok(op),
        None => unreachable!(),
    }
}

/// What an op asks of its vCPU's thread.
pub fn step_after(op: Op) -> Step
    ensures { result ≡ op_step (Some op) }
{
    match op {
        Op::Nap { us } => Step::Nap(us),
        Op::Halt => Step::Halted,
        _ => Step::Plain,
    }
}

/// Room for all that a vCPU's turn may append, and for the page that its op writes.
pub fn make_room(log: &mut Log, v: u32, op: Op) -> Result<(), Memory>
    requires { v < vcpu_count log.old.guest }
    ensures guest { log.new.guest ≡ log.old.guest }
    ensures past { log.new.past ≡ log.old.past }
    ensures events { OnOk result (2 + max 1 log.old.guest.settings.buffer ≤ log.new.room.events) }
    ensures entry { OnOk result (HasEntry v log.new.room) }
    ensures page { OnOk result (IfSome (op_page log.old.guest op)
        (λ page. has_page page log.new.room ≡ true)) }
{
    // An Opened or Filled, the op itself, and the pushes of a buffer that is full then.
    let events = 2 + full_buffer(log.guest());
    let page = written_page(log.guest(), op);
    log.reserve(events)?;
    if let Some(page) = page {
        log.make_page_room(page)?;
    }
    log.make_entry_room(v)
}
