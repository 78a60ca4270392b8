ghost use Rattle.std.specs.Prelude.{◌≡◌, ◌+◌, ◌≤◌, ◌<◌, ◌^◌, [], ◌∷◌, length, reverse, All, IfOk};
ghost use Rattle.std.specs.Prelude.{OnOk, OnErr, IfErr};
ghost use Rattle.dr_history.specs.Lines.{FitsLine, text};

use crate::event::Event;
use crate::lines::lines_of;
use dr_types::{Memory, Text};
use std::alloc::Global;
use std::marker::Model;

/// The event that found no memory.
#[derive(Debug, Drop)]
pub struct PushFault {
    pub event: Event,
}

/// The events of a run. Contracts see them with the newest first, and beside them how many more are
/// taken without memory. Each event fits its line.
#[derive(Debug, Drop)]
pub struct History {
    events: Vec<Event>,
}

impl Model for History {
    ghost use Rattle.std.specs.Prelude.{reverse, ◌-◌, All, vec_len, vec_capacity};
    ghost use Rattle.dr_history.specs.Record.{Record};
    ghost use Rattle.dr_history.specs.Lines.{FitsLine};

    ghost Value = { Record };

    ghost view = { λ h. record {
      past = reverse h.events.items;
      spare = vec_capacity h.events - vec_len h.events;
    } };

    ghost invariant = { λ h. All FitsLine h.events.items };
}

impl History {
    /// A history of no event.
    pub fn new(alloc: Global) -> Result<History, Memory>
        ensures { IfOk result (λ history. history.past ≡ []) }
    {
        Ok(History {
            events: Vec::new(alloc),
        })
    }

    /// The events in the order of time. Each fits its line.
    pub fn events(&self) -> &[Event]
        ensures past { reverse result.now ≡ self.now.past }
        ensures fit { All FitsLine result.now }
        ensures few { length self.now.past < 2 ^ 63 }
    {
        self.events.as_slice()
    }

    /// Each event fits its line.
    #[tactic(auto, using(crate::proofs::Fitting::all_reversed))]
    pub fn recall_lines(&self)
        ensures { All FitsLine self.now.past }
    {
        let _recall_events = self.events.as_slice();
    }

    /// How many events there are.
    pub fn len(&self) -> usize
        ensures is { result ≡ length self.now.past }
        ensures few { result < 2 ^ 63 }
    {
        self.events.len()
    }

    /// Makes room for so many more events. An `Err` changes nothing.
    pub fn reserve(&mut self, more: u64) -> Result<(), Memory>
        ensures past { self.new.past ≡ self.old.past }
        ensures ok { OnOk result (more ≤ self.new.spare) }
    {
        self.events.reserve(more as usize)?;
        Ok(())
    }

    /// Takes an event into the room that was made.
    pub fn push_kept(&mut self, e: Event)
        requires spare { 1 ≤ self.old.spare }
        requires fits { FitsLine e }
        ensures past { self.new.past ≡ e ∷ self.old.past }
        ensures spare { self.old.spare ≤ self.new.spare + 1 }
    {
        let _pushed = self.events.push(e);
    }

    /// Takes an event, or hands it back where there is no memory and changes nothing.
    pub fn push(&mut self, e: Event) -> Result<(), PushFault>
        requires { FitsLine e }
        ensures ok { OnOk result (self.new.past ≡ e ∷ self.old.past) }
        ensures event { IfErr result (λ fault. fault.event ≡ e) }
        ensures err { OnErr result (self.new.past ≡ self.old.past) }
    {
        match self.events.push(e) {
            Ok(()) => Ok(()),
            Err(refused) => Err(PushFault {
                event: refused.value,
            }),
        }
    }

    /// The events' lines in the order of time.
    pub fn text(&self, alloc: Global) -> Result<Text, Memory>
        ensures { IfOk result (λ written. written ≡ text self.now.past) }
    {
        Ok(Text::from_string(lines_of(alloc, self.events.as_slice())?))
    }
}
