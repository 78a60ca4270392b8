ghost use Rattle.std.specs.Prelude.{◌≡◌, ◌<◌, ◌≤◌, ◌+◌, ◌^◌, true, reverse, [], ◌∷◌, All, OnOk};
ghost use Rattle.std.specs.Prelude.{OnErr, IfOk, slice_set};
ghost use Rattle.dr_types.specs.Pages.{page_count};
ghost use Rattle.dr_types.specs.Validity.{IsValid};
ghost use Rattle.dr_history.specs.Legality.{IsLegalSoFar};
ghost use Rattle.dr_history.specs.Lines.{FitsLine};
ghost use Rattle.dr_history.specs.Rounds.{answered_pages};
ghost use Rattle.dr_event_law.specs.May.{MayFollow};
ghost use Rattle.dr_types.specs.Scripts.{vcpu_count};
ghost use Rattle.dr_log.specs.Room.{HasEntry, HasRoomFor, has_page};

use dr_history::{Event, History};
use dr_state::State;
use dr_types::{Guest, Listed, Memory, PageList};
use std::alloc::Global;
use std::marker::Model;

/// A guest and what has happened to it, legal so far, with the state that its reads tell kept
/// beside the events. Contracts see the guest, the events, the newest first, and the room that was
/// made for more.
#[derive(Drop)]
pub struct Log {
    alloc: Global,
    pub(crate) guest: Guest,
    pub(crate) history: History,
    pub(crate) state: State,
}

impl Model for Log {
    ghost use Rattle.dr_types.specs.Validity.{IsValid};
    ghost use Rattle.dr_state.specs.Whole.{IsStateOf};
    ghost use Rattle.dr_log.specs.Room.{room_of};
    ghost use Rattle.dr_log.specs.Views.{LogView};

    ghost Value = { LogView };

    ghost view = { λ c. record {
      guest = c.guest;
      past = c.history.past;
      room = room_of c.history.spare c.state.entries.rows.items c.state.protection.closing.1
          c.state.memory;
    } };

    ghost invariant = { λ c. IsValid c.guest × IsStateOf c.guest c.history.past c.state };
}

/// A copy of the pages of an answer.
#[tactic(auto, using(dr_types::proofs::Copies::same_list))]
fn copied_pages(alloc: Global, e: &Event) -> Result<PageList, Memory>
    ensures { IfOk result (λ pages. pages ≡ answered_pages e.now) }
{
    match e {
        Event::Synced { pages, .. } => Ok(pages.clone()?),
        _ => Ok(Listed::new(alloc)),
    }
}

impl Log {
    /// The log of a guest to which nothing has happened. `Err` for want of memory alone.
    #[tactic(auto, using(dr_state::proofs::Valid::fits_state))]
    pub fn new(alloc: Global, guest: &Guest) -> Result<Log, Memory>
        requires { IsValid guest.now }
        ensures guest { IfOk result (λ log. log.guest ≡ guest.now) }
        ensures past { IfOk result (λ log. log.past ≡ []) }
    {
        Ok(Log {
            alloc,
            guest: guest.clone()?,
            history: History::new(alloc)?,
            state: State::new(alloc, guest)?,
        })
    }

    /// Takes an event that breaks no rule after those before it. It isn't judged. An `Err` changes
    /// nothing, and comes for want of memory alone.
    #[tactic(auto, using(dr_state::proofs::Valid::fits_state))]
    pub fn append(&mut self, e: Event) -> Result<(), Memory>
        requires fits { FitsLine e }
        requires follows { MayFollow self.old.guest self.old.past e }
        ensures taken { OnOk result (self.new.past ≡ e ∷ self.old.past) }
        ensures err { OnErr result (self.new.past ≡ self.old.past) }
        ensures guest { self.new.guest ≡ self.old.guest }
    {
        let _recall_few = self.history.len();
        let pages = copied_pages(self.alloc, &e)?;
        self.history.reserve(1)?;
        self.state.make_room(&self.guest, &e)?;
        self.state.take(&self.guest, &e, pages);
        self.history.push_kept(e);
        Ok(())
    }

    /// Room for so many more events, and for nothing else. An `Err` changes neither guest nor
    /// history.
    pub fn reserve(&mut self, more: u64) -> Result<(), Memory>
        ensures guest { self.new.guest ≡ self.old.guest }
        ensures past { self.new.past ≡ self.old.past }
        ensures entries { self.new.room.entries ≡ self.old.room.entries }
        ensures closing { self.new.room.closing ≡ self.old.room.closing }
        ensures pages { self.new.room.pages ≡ self.old.room.pages }
        ensures ok { OnOk result (more ≤ self.new.room.events) }
    {
        self.history.reserve(more)
    }

    /// Room for one more entry of a vCPU. An `Err` changes neither guest nor history.
    pub fn make_entry_room(&mut self, v: u32) -> Result<(), Memory>
        requires { v < vcpu_count self.old.guest }
        ensures guest { self.new.guest ≡ self.old.guest }
        ensures past { self.new.past ≡ self.old.past }
        ensures events { self.new.room.events ≡ self.old.room.events }
        ensures pages { self.new.room.pages ≡ self.old.room.pages }
        ensures closing { self.new.room.closing ≡ self.old.room.closing }
        ensures ok { OnOk result (HasEntry v self.new.room) }
    {
        self.state.make_entry_room(v)
    }

    /// Room for a page that a reset closes, and for nothing else. An `Err` changes neither guest
    /// nor history.
    pub fn make_closing_room(&mut self) -> Result<(), Memory>
        ensures guest { self.new.guest ≡ self.old.guest }
        ensures past { self.new.past ≡ self.old.past }
        ensures events { self.new.room.events ≡ self.old.room.events }
        ensures entries { self.new.room.entries ≡ self.old.room.entries }
        ensures pages { self.new.room.pages ≡ self.old.room.pages }
        ensures ok { OnOk result (1 ≤ self.new.room.closing) }
    {
        self.state.make_closing_room()
    }

    /// Memory of its own for a page, and for no other. An `Err` changes nothing.
    pub fn make_page_room(&mut self, page: u32) -> Result<(), Memory>
        requires { page < page_count self.old.guest }
        ensures guest { self.new.guest ≡ self.old.guest }
        ensures past { self.new.past ≡ self.old.past }
        ensures events { self.new.room.events ≡ self.old.room.events }
        ensures entries { self.new.room.entries ≡ self.old.room.entries }
        ensures closing { self.new.room.closing ≡ self.old.room.closing }
        ensures made { OnOk result (self.new.room.pages
            ≡ slice_set self.old.room.pages page true) }
        ensures err { OnErr result (self.new.room ≡ self.old.room) }
        ensures ok { OnOk result (has_page page self.new.room ≡ true) }
    {
        self.state.make_page_room(page)
    }

    /// Takes an event that breaks no rule, into the room that was made for it. It isn't judged.
    #[tactic(auto, using(dr_state::proofs::Valid::fits_state))]
    pub fn take(&mut self, e: Event)
        requires fits { FitsLine e }
        requires follows { MayFollow self.old.guest self.old.past e }
        requires events { 1 ≤ self.old.room.events }
        requires room { HasRoomFor self.old.guest e self.old.room }
        ensures past { self.new.past ≡ e ∷ self.old.past }
        ensures guest { self.new.guest ≡ self.old.guest }
        ensures events { self.old.room.events ≤ self.new.room.events + 1 }
        ensures pages { self.new.room.pages ≡ self.old.room.pages }
    {
        let _recall_few = self.history.len();
        let none = Listed::new(self.alloc);
        self.state.take(&self.guest, &e, none);
        self.history.push_kept(e);
    }

    /// Takes an answer that breaks no rule, into the room that was made, with a copy of its pages.
    /// It isn't judged.
    #[tactic(auto, using(dr_state::proofs::Valid::fits_state))]
    pub fn answer(&mut self, r: u32, at: u64, pages: PageList, copy: PageList)
        requires copy { copy ≡ pages }
        requires small { All (λ page. page < 2 ^ 32) pages }
        requires follows { MayFollow self.old.guest self.old.past (Event.Synced r at pages) }
        requires events { 1 ≤ self.old.room.events }
        ensures past { self.new.past ≡ Event.Synced r at pages ∷ self.old.past }
        ensures guest { self.new.guest ≡ self.old.guest }
        ensures events { self.old.room.events ≤ self.new.room.events + 1 }
        ensures pages { self.new.room.pages ≡ self.old.room.pages }
    {
        let _recall_few = self.history.len();
        let e = Event::Synced { r, at, pages };
        self.state.take(&self.guest, &e, copy);
        self.history.push_kept(e);
    }

    /// What has happened is legal so far, for a guest within the limits.
    pub fn recall_legal(&self)
        ensures legal { IsLegalSoFar self.now.guest self.now.past }
        ensures valid { IsValid self.now.guest }
    {
        let _recall_alloc = &self.alloc;
    }

    /// The guest.
    #[tactic(auto, using(dr_state::proofs::Valid::fits_state))]
    pub fn guest(&self) -> &Guest
        ensures is { result.now ≡ self.now.guest }
        ensures valid { IsValid result.now }
        ensures few { page_count result.now < 2 ^ 32 }
    {
        &self.guest
    }

    /// The history that was taken, which is legal so far, and each event of which fits its line.
    pub fn history(&self) -> &History
        ensures past { result.now.past ≡ self.now.past }
        ensures legal { IsLegalSoFar self.now.guest result.now.past }
        ensures fit { All FitsLine result.now.past }
    {
        self.history.recall_lines();
        &self.history
    }

    /// The guest and its history.
    pub fn into_parts(self) -> (Guest, History)
        ensures guest { result.0 ≡ self.guest }
        ensures past { result.1.past ≡ self.past }
        ensures legal { IsLegalSoFar self.guest self.past }
        ensures valid { IsValid self.guest }
    {
        let Log { guest, history, .. } = self;
        (guest, history)
    }

    /// The events that were taken, the oldest first.
    pub fn events(&self) -> &[Event]
        ensures past { reverse result.now ≡ self.now.past }
        ensures fit { All FitsLine result.now }
    {
        self.history.events()
    }
}
