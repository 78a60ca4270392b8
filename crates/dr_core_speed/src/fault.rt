//! Why a run comes to no end.

ghost use Rattle.std.specs.Prelude.{◌≡◌, length};
ghost use Rattle.dr_core_speed.specs.Faults.{code_of, refusal_of};

use dr_core::{Core, CoreFault};
use dr_simulation::events;
use dr_types::{FileFault, Memory};
use thiserror::Error;

/// Why a run comes to no end.
#[derive(Clone, Copy, Debug, Error)]
pub enum RunFault {
    /// The input is no request, or one of too many events or guests.
    #[error("expected one line: a number of events, or that, a space and a number of guests")]
    Request,
    /// An event, counted from 0 in its history, is refused, or the end after so many events.
    #[error("event {event} breaks rule {rule}")]
    Refused { event: u64, rule: u32 },
    #[error("the sample guest is refused: {why}")]
    Guest { why: FileFault },
    #[error("out of memory")]
    Memory,
}

impl From<Memory> for RunFault {
    fn from(_error: Memory) -> RunFault {
        RunFault::Memory
    }
}

impl From<FileFault> for RunFault {
    fn from(why: FileFault) -> RunFault {
        RunFault::Guest { why }
    }
}

/// The exit code of a fault.
pub fn exit_code(fault: RunFault) -> u8
    ensures { result ≡ code_of fault }
{
    match fault {
        RunFault::Request => 1,
        RunFault::Refused { .. } => 2,
        RunFault::Guest { .. } => 3,
        RunFault::Memory => 4,
    }
}

/// Why a judge took no more.
pub fn refusal(core: &Core, fault: CoreFault) -> RunFault
    ensures { result ≡ refusal_of (length core.now.past) fault }
{
    match fault {
        CoreFault::Illegal { rule } => RunFault::Refused {
            event: events(core),
            rule,
        },
        CoreFault::Memory => RunFault::Memory,
    }
}
