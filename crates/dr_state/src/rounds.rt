ghost use Rattle.std.specs.Prelude.{◌≡◌, ◌<◌, ◌^◌, [], ◌∷◌, ℕ, List, length};
ghost use Rattle.dr_types.specs.declared.guest.Guest.{Guest};
ghost use Rattle.dr_history.specs.declared.event.Event.{Event};
ghost use Rattle.dr_history.specs.Rounds.{answered_pages};
ghost use Rattle.dr_state.specs.Rounds.{rounds_of};

use crate::round_fields::{Answer, Rounds};
use dr_history::Event;
use dr_types::PageList;

impl Rounds {
    /// No round, before any event.
    pub fn new(threshold: u32) -> Rounds
        ensures { (guest : Guest) → guest.settings.threshold ≡ threshold
            → result ≡ rounds_of guest [] }
    {
        Rounds {
            threshold,
            started: false,
            stopped: false,
            switched: false,
            asks: 0,
            unanswered: None,
            asked_since_stop: false,
            synced_since_stop: false,
            answer: None,
            copies: 0,
        }
    }

    /// Takes an event, and a copy of its pages.
    pub fn take(&mut self, e: &Event, pages: PageList)
        requires copy { pages ≡ answered_pages e.now }
        requires asks { self.old.asks < 2 ^ 63 }
        requires copies { self.old.copies < 2 ^ 63 }
        ensures { (guest : Guest) (past : List Event) → self.old ≡ rounds_of guest past
            → self.new ≡ rounds_of guest (e.now ∷ past) }
    {
        match e {
            Event::Start { .. } => self.started = true,
            Event::Asked { r } => {
                self.asks += 1;
                self.unanswered = Some(*r);
                self.asked_since_stop = true;
            }
            Event::Synced { r, .. } => {
                self.unanswered = None;
                self.synced_since_stop = true;
                let opens = u64::from(self.threshold) < pages.len() as u64 || self.stopped;
                self.answer = Some(Answer {
                    round: *r,
                    opens,
                    pages,
                });
                self.copies = 0;
            }
            Event::Copied { .. } => self.copies += 1,
            Event::Stopped => {
                self.stopped = true;
                self.asked_since_stop = false;
                self.synced_since_stop = false;
            }
            Event::Switched => self.switched = true,
            _ => {}
        }
    }
}
