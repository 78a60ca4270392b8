ghost use Rattle.dr_types.specs.Validity.{IsValid};

use crate::event_row::{EventRow, event_of};
use dr_core::{Core, CoreFault};
use dr_types::{Guest, Memory};
use std::alloc::Global;

/// How many events were taken, and the rule that the next one or the end breaks, or 0.
pub type Verdict = (usize, u32);

fn take_rows(alloc: Global, core: &mut Core, steps: &[EventRow]) -> Result<(), CoreFault> {
    for step in steps {
        core.step(event_of(alloc, *step)?)?;
    }
    Ok(())
}

fn take_to_end(alloc: Global, core: &mut Core, parts: &[&[EventRow]]) -> Result<(), CoreFault> {
    for steps in parts {
        take_rows(alloc, core, steps)?;
    }
    core.close()
}

fn verdict_of(alloc: Global, core: &mut Core, parts: &[&[EventRow]]) -> Result<Verdict, Memory> {
    let end = take_to_end(alloc, core, parts);
    let taken = core.log().events().len();
    match end {
        Ok(()) => Ok((taken, 0)),
        Err(CoreFault::Illegal { rule }) => Ok((taken, rule)),
        Err(CoreFault::Memory) => Err(Memory),
    }
}

/// The verdict on a guest's steps, one part after the other, up to the first that is refused.
pub fn judged(alloc: Global, guest: &Guest, parts: &[&[EventRow]]) -> Result<Verdict, Memory>
    requires { IsValid guest.now }
{
    let mut core = Core::new(alloc, guest)?;
    verdict_of(alloc, &mut core, parts)
}
