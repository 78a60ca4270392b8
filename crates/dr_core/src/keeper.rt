ghost use Rattle.std.specs.Prelude.{◌≡◌, true, false, None, [], ◌∷◌, OnOk, OnErr, IfOk, IfErr};
ghost use Rattle.dr_types.specs.Validity.{IsValid};
ghost use Rattle.dr_history.specs.Legality.{broken};
ghost use Rattle.dr_history.specs.Lines.{FitsLine};
ghost use Rattle.dr_history.specs.Rules.{may_end};
ghost use Rattle.dr_core.specs.Faults.{IsCause};

use dr_history::Event;
use dr_log::Log;
use dr_rules::{broken, may_end};
use dr_types::{Guest, Memory};
use std::alloc::Global;
use std::marker::Model;
use thiserror::Error;

/// Why an event or an end is refused.
#[derive(Clone, Copy, Debug, PartialEq, Eq, Error)]
pub enum CoreFault {
    /// It breaks this rule, and none before it.
    #[error("rule {rule} is broken")]
    Illegal { rule: u32 },
    /// An allocation was refused.
    #[error("out of memory")]
    Memory,
}

impl From<Memory> for CoreFault {
    ghost use Rattle.std.specs.Prelude.{◌≡◌};
    ghost use Rattle.dr_core.specs.declared.keeper.CoreFault.TheVariants.{Memory};

    ghost from_gives = { λ _ fault. fault ≡ Memory };

    fn from(_error: Memory) -> CoreFault {
        CoreFault::Memory
    }
}

/// A judge of events. Contracts see it as its guest and the events that it took, the newest first.
#[derive(Drop)]
pub struct Core {
    log: Log,
}

impl Model for Core {
    ghost use Rattle.dr_log.specs.Views.{LogView};

    ghost Value = { LogView };

    ghost view = { λ c. c.log };
}

impl Core {
    /// A judge that has seen no event. An `Err` comes for want of memory alone.
    pub fn new(alloc: Global, guest: &Guest) -> Result<Core, Memory>
        requires { IsValid guest.now }
        ensures guest { IfOk result (λ core. core.guest ≡ guest.now) }
        ensures past { IfOk result (λ core. core.past ≡ []) }
    {
        Ok(Core {
            log: Log::new(alloc, guest)?,
        })
    }

    /// Whether the history may end here: rule 26 asks that no write and no throttle is owed.
    pub fn close(&self) -> Result<(), CoreFault>
        ensures ok { OnOk result (may_end self.now.guest self.now.past ≡ true) }
        ensures rule { IfErr result (λ fault. fault ≡ CoreFault.Illegal 26) }
        ensures illegal { OnErr result (may_end self.now.guest self.now.past ≡ false) }
    {
        if may_end(&self.log) {
            Ok(())
        } else {
            Err(CoreFault::Illegal { rule: 26 })
        }
    }

    /// Takes an event that breaks no rule after those before it. An `Err` changes nothing: it
    /// names the least rule that the event breaks, or comes for want of memory.
    #[tactic(auto, using(crate::proofs::Unbroken::follows))]
    pub fn step(&mut self, e: Event) -> Result<(), CoreFault>
        requires fits { FitsLine e }
        ensures ok { OnOk result (broken self.old.guest self.old.past e ≡ None) }
        ensures taken { OnOk result (self.new.past ≡ e ∷ self.old.past) }
        ensures illegal { IfErr result (IsCause (broken self.old.guest self.old.past e)) }
        ensures err { OnErr result (self.new.past ≡ self.old.past) }
        ensures guest { self.new.guest ≡ self.old.guest }
    {
        if let Some(rule) = broken(&self.log, &e) {
            return Err(CoreFault::Illegal { rule });
        }
        self.log.append(e)?;
        Ok(())
    }

    /// The guest, the events that were taken, and what they leave.
    pub fn log(&self) -> &Log
        ensures { result.now ≡ self.now }
    {
        &self.log
    }
}
