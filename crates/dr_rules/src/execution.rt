ghost use Rattle.std.specs.Prelude.{◌≡◌, ◌==◌, ◌&&◌, ◌<◌, ◌-◌, nat_lt, max, reverse};
ghost use Rattle.dr_types.specs.Scripts.{operation, vcpu_count};
ghost use Rattle.dr_history.specs.Rules.{not_switched, op_before_stop, op_not_kicked, op_has_room};
ghost use Rattle.dr_history.specs.Rules.{op_has_buffer, follows_script, before_fault};
ghost use Rattle.dr_history.specs.Entries.{opens, pushes};
ghost use Rattle.dr_history.specs.Execution.{ops, acc, is_store};
ghost use Rattle.dr_rules.specs.Named.{IsNamed};

use crate::ops::{is_fill, is_halt, is_load, is_local, is_store, vcpu_of_op};
use dr_history::Event;
use dr_log::Log;

/// Rule 3: nothing comes after the switch-over.
#[tactic(auto, unfolding(dr_history::specs::Rules::not_switched))]
pub fn not_switched(log: &Log, e: &Event) -> bool
    ensures { result ≡ not_switched log.now.guest log.now.past e.now }
{
    !log.switched()
}

/// The operation has the next number, and is the one of that number.
fn is_next(i: u32, executed: u64, is_it: bool) -> bool
    ensures { result ≡ (i == executed && is_it) }
{
    u64::from(i) == executed && is_it
}

/// The operation that a vCPU executes next stores these bytes.
fn stores_next(log: &Log, v: u32, space: u32, addr: u64, len: u32, value: u64) -> bool
    requires { v < vcpu_count log.now.guest }
    ensures { let past = log.now.past in
        let op = operation log.now.guest v (ops v past) in
        result ≡ is_store op (acc log.now.guest v past) space addr len value }
{
    let op = log.next_op(v);
    let register = log.register(v);
    is_store(op, register, space, addr, len, value)
}

/// Rule 4: an operation is the next one of its vCPU's script, with its space, address,
/// bytes and register.
#[tactic(auto, unfolding(dr_history::specs::Rules::follows_script))]
pub fn follows_script(log: &Log, e: &Event) -> bool
    requires { IsNamed log.now.guest e.now }
    ensures { result ≡ follows_script log.now.guest log.now.past e.now }
{
    match e {
        Event::Read {
            v,
            i,
            space,
            addr,
            ..
        } => {
            let executed = log.ops(*v);
            let loads = is_load(log.next_op(*v), *space, *addr);
            is_next(*i, executed, loads)
        }
        Event::Write {
            v,
            i,
            space,
            addr,
            len,
            value,
        } => {
            let executed = log.ops(*v);
            let stores = stores_next(log, *v, *space, *addr, *len, *value);
            is_next(*i, executed, stores)
        }
        Event::Paint { v, i, page, byte } => {
            let executed = log.ops(*v);
            let fills = is_fill(log.guest(), log.next_op(*v), *page, *byte);
            is_next(*i, executed, fills)
        }
        Event::Local { v, i } => {
            let executed = log.ops(*v);
            let local = is_local(log.next_op(*v));
            is_next(*i, executed, local)
        }
        Event::Halted { v, i } => {
            let executed = log.ops(*v);
            let halts = is_halt(log.next_op(*v));
            is_next(*i, executed, halts)
        }
        _ => true,
    }
}

/// Rule 6: no operation comes after the guest is stopped.
#[tactic(auto, unfolding(dr_history::specs::Rules::op_before_stop))]
pub fn op_before_stop(log: &Log, e: &Event) -> bool
    ensures { result ≡ op_before_stop log.now.guest log.now.past e.now }
{
    match vcpu_of_op(e) {
        Some(_) => !log.stopped(),
        None => true,
    }
}

/// Rule 7: a vCPU that is kicked executes nothing.
#[tactic(auto, unfolding(dr_history::specs::Rules::op_not_kicked))]
pub fn op_not_kicked(log: &Log, e: &Event) -> bool
    requires { IsNamed log.now.guest e.now }
    ensures { result ≡ op_not_kicked log.now.guest log.now.past e.now }
{
    match e {
        Event::Read { v, .. }
        | Event::Write { v, .. }
        | Event::Paint { v, .. }
        | Event::Local { v, .. }
        | Event::Halted { v, .. } => !log.kicked(*v),
        _ => true,
    }
}

/// Rule 8: a vCPU executes nothing while its ring is soft full.
#[tactic(auto, unfolding(dr_history::specs::Rules::op_has_room))]
pub fn op_has_room(log: &Log, e: &Event) -> bool
    requires { IsNamed log.now.guest e.now }
    ensures { result ≡ op_has_room log.now.guest log.now.past e.now }
{
    match vcpu_of_op(e) {
        Some(v) => !log.is_full(v),
        None => true,
    }
}

/// How many entries a vCPU opened, apart from an Opened directly before.
fn opens_before_fault(count: u64, v: u32, events: &[Event]) -> u64
    ensures { count ≡ opens v (reverse events.now)
        → result ≡ opens v (before_fault (reverse events.now)) }
{
    match events.last() {
        Some(Event::Opened { v: w, .. }) => {
            if *w == v {
                count.saturating_sub(1)
            } else {
                count
            }
        }
        _ => count,
    }
}

/// A vCPU's log buffer has room.
fn has_buffer(log: &Log, v: u32) -> bool
    requires { v < vcpu_count log.now.guest }
    ensures { let past = log.now.past in
        result ≡ nat_lt (opens v (before_fault past) - pushes v past)
        (max 1 log.now.guest.settings.buffer) }
{
    let opens = opens_before_fault(log.opens(v), v, log.events());
    opens.saturating_sub(log.pushes(v)) < u64::from(log.guest().settings.buffer.max(1))
}

/// Rule 9: a vCPU executes nothing while its log buffer is full.
#[tactic(auto, unfolding(dr_history::specs::Rules::op_has_buffer))]
pub fn op_has_buffer(log: &Log, e: &Event) -> bool
    requires { IsNamed log.now.guest e.now }
    ensures { result ≡ op_has_buffer log.now.guest log.now.past e.now }
{
    match vcpu_of_op(e) {
        Some(v) => has_buffer(log, v),
        None => true,
    }
}
