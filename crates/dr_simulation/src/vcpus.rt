//! What the simulated vCPUs do: they execute their scripts, and leave the guest.

use crate::asks::{
    cached, is_buffered, is_full, is_started, kicked, loaded, next_op, opens, ops, page_at, pushes,
    vcpus, writable,
};
use crate::rings::{flush, reap};
use dr_core::{Core, CoreFault};
use dr_history::Event;
use dr_types::{Op, Why};

/// Pushes all that a vCPU has opened.
fn push_all(core: &mut Core, v: u32) -> Result<(), CoreFault> {
    for k in pushes(core, v)..opens(core, v) {
        core.step(Event::Pushed { v, k })?;
    }
    Ok(())
}

/// A vCPU leaves the guest with its buffer pushed.
fn leave(core: &mut Core, v: u32, why: Why) -> Result<(), CoreFault> {
    push_all(core, v)?;
    core.step(Event::Exited { v, why })
}

/// Gets a vCPU the permission to write a page.
fn get_permission(core: &mut Core, v: u32, page: u32) -> Result<(), CoreFault> {
    if !is_started(core) || cached(core, v, page) {
        return Ok(());
    }
    if writable(core, page) {
        return core.step(Event::Filled { v, page });
    }
    let k = opens(core, v);
    core.step(Event::Opened { v, k, page })
}

/// A store of 8 bytes. A full log buffer is pushed after it.
fn store(core: &mut Core, v: u32, i: u32, addr: u64, value: u64) -> Result<(), CoreFault> {
    if let Some(page) = page_at(core, addr) {
        get_permission(core, v, page)?;
    }
    core.step(Event::Write {
        v,
        i,
        space: 0,
        addr,
        len: 8,
        value,
    })?;
    if is_buffered(core, v) {
        push_all(core, v)?;
    }
    Ok(())
}

/// An operation of a vCPU. The sample's scripts have loads, additions, stores of 8 bytes and halts,
/// and its guest has space 0 alone.
fn execute(core: &mut Core, v: u32, i: u32, op: Op) -> Result<(), CoreFault> {
    match op {
        Op::R { addr, .. } => {
            let value = loaded(core, addr);
            core.step(Event::Read {
                v,
                i,
                space: 0,
                addr,
                value,
            })
        }
        Op::W { addr, value, .. } => store(core, v, i, addr, value),
        Op::Halt => {
            core.step(Event::Halted { v, i })?;
            leave(core, v, Why::Halted)
        }
        _ => core.step(Event::Local { v, i }),
    }
}

/// A vCPU whose ring is full leaves the guest, and its ring is emptied.
fn make_room(core: &mut Core, v: u32) -> Result<(), CoreFault> {
    leave(core, v, Why::Full)?;
    reap(core, v)?;
    flush(core)
}

/// A vCPU executes its next operation, where it has one.
fn go_on(core: &mut Core, v: u32) -> Result<(), CoreFault> {
    let Some(op) = next_op(core, v) else {
        return Ok(());
    };
    if is_full(core, v) {
        make_room(core, v)?;
    }
    let i = u32::try_from(ops(core, v)).unwrap_or(u32::MAX);
    execute(core, v, i, op)
}

/// Each vCPU executes so many operations, one vCPU after the other.
pub fn turn(core: &mut Core, count: u32) -> Result<(), CoreFault> {
    for v in 0..vcpus(core) {
        for _ in 0..count {
            go_on(core, v)?;
        }
    }
    Ok(())
}

/// Each vCPU that was in the guest when the round was asked leaves it.
pub fn kick_all(core: &mut Core) -> Result<(), CoreFault> {
    for v in 0..vcpus(core) {
        if kicked(core, v) {
            leave(core, v, Why::Kicked)?;
        }
    }
    Ok(())
}
