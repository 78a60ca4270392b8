ghost use Rattle.std.specs.Prelude.{◌≡◌, ◌<◌, false, length};
ghost use Rattle.dr_types.specs.Scripts.{vcpu_count};
ghost use Rattle.dr_types.specs.Validity.{IsValid};
ghost use Rattle.dr_history.specs.Protection.{started};

use dr_machine::{Advance, Machine, Rig, RunEnd, Turn, new_rig};
use dr_machine_law::op;
use dr_memory::PageBytes;
use dr_ring::Name;
use dr_ring_set::{RingSet, Rings};
use dr_types::{Guest, Memory, Step, Why};
use std::alloc::Global;

/// A call of a machine, with its vCPU, and what it answers.
#[derive(Clone, Copy, Debug)]
pub enum Call {
    Op(u32, Turn),
    Exit(u32, Option<Why>),
    Flush(bool),
    /// The reset of a vCPU's next entry: how many are reset.
    Reset(u32, u32),
    /// How many of a vCPU's entries are deposited.
    Deposited(u32, Option<u64>),
    AllOut(bool),
    End(RunEnd),
    GiveUp,
    /// The first byte of a page.
    Byte(u32, u8),
}

fn page_begins<N: Name>(machine: &Machine<N>, page: u32, byte: u8) -> bool {
    let guest = machine.guest();
    if page < dr_slots::page_count(guest) {
        machine.page(page)[0] == byte
    } else {
        false
    }
}

/// A call on a vCPU of the guest answers as it should.
fn answers_for<N: Name>(
    machine: &mut Machine<N>,
    rings: &Rings<N>,
    call: Call,
) -> Result<bool, Memory> {
    let vcpus = rings.vcpus();
    machine.recall_kept();
    match call {
        Call::Op(v, turn) if v < vcpus => Ok(machine.op(rings, v)? == turn),
        Call::Exit(v, why) if v < vcpus => Ok(machine.exit(rings, v)? == why),
        Call::Reset(v, count) if v < vcpus => Ok(machine.reset_turn(rings, v)? == count),
        Call::Deposited(v, count) if v < vcpus => Ok(machine.deposited(v) == count),
        _ => Ok(false),
    }
}

/// The call answers as it should.
fn answers<N: Name>(
    machine: &mut Machine<N>,
    rings: &Rings<N>,
    call: Call,
) -> Result<bool, Memory> {
    match call {
        Call::Flush(some) => Ok(machine.flush()? == some),
        Call::AllOut(out) => Ok(machine.all_out() == out),
        Call::End(end) => Ok(machine.end() == end),
        Call::Byte(page, byte) => Ok(page_begins(machine, page, byte)),
        Call::GiveUp => {
            machine.give_up();
            Ok(machine.over())
        }
        _ => answers_for(machine, rings, call),
    }
}

/// So many turns of vCPU 0 execute plain ops.
fn all_plain<N: Name>(
    machine: &mut Machine<N>,
    rings: &Rings<N>,
    turns: u32,
) -> Result<bool, Memory>
    requires { 0 < vcpu_count N.guest }
    ensures { started machine.new.past ≡ started machine.old.past }
{
    let mut all = true;
    for _ in 0..turns {
        let turn = op(machine, rings, 0)?;
        all = all && turn == Turn::Done(Step::Plain);
    }
    Ok(all)
}

/// So many turns of vCPU 0 execute plain ops, and logging starts at 7.
fn starts<N: Name>(rig: &mut Rig<N>, early: u32) -> Result<bool, Memory>
    requires vcpu { 0 < vcpu_count N.guest }
    requires fresh { started rig.old.machine.past ≡ false }
{
    let plain = all_plain(&mut rig.machine, &rig.rings, early)?;
    let mut into = PageBytes::new();
    let begun = rig.machine.advance(7, &mut into)? == Advance::Started;
    Ok(plain && begun)
}

/// Each call answers as it should.
fn all_answer<N: Name>(rig: &mut Rig<N>, calls: &[Call]) -> Result<bool, Memory> {
    let mut all = true;
    for call in calls {
        let right = answers(&mut rig.machine, &rig.rings, *call)?;
        all = all && right;
    }
    Ok(all)
}

/// The events end with these lines.
fn ends_with<N: Name>(alloc: Global, rig: &Rig<N>, lines: &[u8]) -> Result<bool, Memory> {
    let text = rig.machine.history().text(alloc)?;
    Ok(text.as_bytes().ends_with(lines))
}

fn run<N: Name>(
    alloc: Global,
    rig: &mut Rig<N>,
    early: u32,
    calls: &[Call],
    lines: &[u8],
) -> Result<bool, Memory>
    requires { started rig.old.machine.past ≡ false }
{
    if rig.rings.vcpus() == 0 {
        return Ok(false);
    }
    rig.machine.recall_kept();
    let begun = starts(rig, early)?;
    let answered = all_answer(rig, calls)?;
    let ended = ends_with(alloc, rig, lines)?;
    Ok(begun && answered && ended)
}

/// A new machine executes so many plain ops of vCPU 0 and starts at 7; then each call answers as it
/// should, and the events end with these lines.
pub fn answer_so<N: Name>(
    alloc: Global,
    guest: Guest,
    set: RingSet,
    early: u32,
    calls: &[Call],
    lines: &[u8],
) -> Result<bool, Memory>
    requires guest { guest ≡ N.guest }
    requires valid { IsValid guest }
    requires set { N.rings ≡ set.rings }
    requires one_each { length set.rings ≡ vcpu_count guest }
    requires size { set.size ≡ guest.settings.ring }
{
    match new_rig::<N>(alloc, guest, set) {
        Ok(rig) => {
            let mut rig = rig;
            run(alloc, &mut rig, early, calls, lines)
        }
        Err(memory) => Err(memory),
    }
}
