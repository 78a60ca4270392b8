//! How the simulated migrator empties the rings of the vCPUs.

ghost use Rattle.std.specs.Prelude.{◌<◌};

use crate::asks::{pushes, resets, vcpus};
use dr_core::{Core, CoreFault};
use dr_history::Event;

/// Deposits the entries of a vCPU from one number to before another: where there are two or more,
/// the later half first.
fn deposit(core: &mut Core, v: u32, from: u64, to: u64) -> Result<(), CoreFault>
    requires { from < to }
{
    let middle = from + (to - from) / 2;
    core.step(Event::Deposited {
        v,
        from: middle,
        to,
    })?;
    if from < middle {
        core.step(Event::Deposited {
            v,
            from,
            to: middle,
        })?;
    }
    Ok(())
}

/// Deposits and resets all that a vCPU has pushed, and tells whether that is anything.
pub fn reap(core: &mut Core, v: u32) -> Result<bool, CoreFault> {
    let from = resets(core, v);
    let to = pushes(core, v);
    if from >= to {
        return Ok(false);
    }
    deposit(core, v, from, to)?;
    for k in from..to {
        core.step(Event::Reset { v, k })?;
    }
    Ok(true)
}

/// Takes all permissions back.
pub fn flush(core: &mut Core) -> Result<(), CoreFault> {
    core.step(Event::Flushed)
}

/// Empties the rings of all vCPUs.
pub fn reap_all(core: &mut Core) -> Result<(), CoreFault> {
    let mut any = false;
    for v in 0..vcpus(core) {
        any |= reap(core, v)?;
    }
    if any { flush(core) } else { Ok(()) }
}
