ghost use Rattle.std.specs.Prelude.{◌≡◌, slice_get};
ghost use Rattle.std.specs.List.{list_any};
ghost use Rattle.dr_history.specs.Kinds.{is_switched, is_stopped, is_asked, is_synced};
ghost use Rattle.dr_history.specs.Lookback.{since};
ghost use Rattle.dr_history.specs.Protection.{started};
ghost use Rattle.dr_history.specs.Rounds.{asks, unanswered, last_synced, round_copied};
ghost use Rattle.dr_history.specs.Rounds.{few_answered, is_next_copy};
ghost use Rattle.dr_history.specs.Throttles.{throttle_due};
ghost use Rattle.dr_history.specs.Vcpus.{stopped};
ghost use Rattle.dr_history_law.specs.Copies.{copies, pages_of};
ghost use Rattle.dr_turns.specs.Due.{page_to_copy, round_of, zeros_to_copy};
ghost use Rattle.dr_log.specs.Answered.{answered_count};

use crate::log::Log;
use crate::rounds::{
    answered_count, answered_round, few_answered, is_next_copy, next_copied, next_to_copy,
    round_copied,
};
use crate::throttles::throttle_due;
use crate::zeros::zeros_to_copy;

/// What is told of the migrator's rounds.
impl Log {
    /// Logging has started.
    pub fn started(&self) -> bool
        ensures { result ≡ started self.now.past }
    {
        self.state.rounds.started
    }

    /// The guest is stopped.
    pub fn stopped(&self) -> bool
        ensures { result ≡ stopped self.now.past }
    {
        self.state.rounds.stopped
    }

    /// The guest has switched over.
    pub fn switched(&self) -> bool
        ensures { result ≡ list_any is_switched self.now.past }
    {
        self.state.rounds.switched
    }

    /// How many rounds were asked.
    pub fn asks(&self) -> u64
        ensures { result ≡ asks self.now.past }
    {
        self.state.rounds.asks
    }

    /// The round that was asked and has no answer yet.
    pub fn unanswered(&self) -> Option<u32>
        ensures { result ≡ unanswered self.now.past }
    {
        self.state.rounds.unanswered
    }

    /// A round was asked since the guest was stopped.
    pub fn asked_since_stop(&self) -> bool
        ensures { result ≡ list_any is_asked (since is_stopped self.now.past) }
    {
        self.state.rounds.asked_since_stop
    }

    /// A round was answered since the guest was stopped.
    pub fn synced_since_stop(&self) -> bool
        ensures { result ≡ list_any is_synced (since is_stopped self.now.past) }
    {
        self.state.rounds.synced_since_stop
    }

    /// The last answer has no more pages than the threshold.
    pub fn few_answered(&self) -> bool
        ensures { result ≡ few_answered self.now.guest (last_synced self.now.past) }
    {
        few_answered(&self.guest, &self.state.rounds)
    }

    /// A page is the next that the open round of this number has to copy.
    pub fn is_next_copy(&self, r: u32, page: u32) -> bool
        ensures { let past = self.now.past in
            result ≡ is_next_copy self.now.guest r page (last_synced past) (since is_synced past) }
    {
        is_next_copy(&self.guest, &self.state, r, page)
    }

    /// How many pages the last answer has; `None` where there is no answer.
    pub fn answered_count(&self) -> Option<u64>
        ensures { result ≡ answered_count (last_synced self.now.past) }
    {
        answered_count(&self.guest, &self.state)
    }

    /// The page of the last answer that is to be copied next.
    pub fn next_copy(&self) -> Option<u32>
        ensures { result ≡ slice_get (pages_of (last_synced self.now.past)) (copies self.now.past) }
    {
        next_copied(&self.guest, &self.state)
    }

    /// The page of the open round that is to be copied next.
    pub fn page_to_copy(&self) -> Option<u32>
        ensures { result ≡ page_to_copy self.now.guest self.now.past }
    {
        next_to_copy(&self.guest, &self.state)
    }

    /// How many pages of zeros are to be copied together, from this page on.
    pub fn zeros_to_copy(&self, page: u32) -> u64
        ensures { result ≡ zeros_to_copy self.now.guest self.now.past page }
    {
        zeros_to_copy(&self.guest, &self.state, page)
    }

    /// The number of the last answer; 0 where there is none.
    pub fn answered_round(&self) -> u32
        ensures { result ≡ round_of (last_synced self.now.past) }
    {
        answered_round(&self.guest, &self.state)
    }

    /// The last answer opened a round, and each page of it is copied since.
    pub fn round_copied(&self) -> bool
        ensures { let past = self.now.past in
            result ≡ round_copied self.now.guest (last_synced past) (since is_synced past) }
    {
        round_copied(&self.guest, &self.state)
    }

    /// The vCPU for which a throttle is due.
    pub fn throttle_due(&self) -> Option<u64>
        ensures { result ≡ throttle_due self.now.guest self.now.past }
    {
        throttle_due(&self.guest, &self.state)
    }
}
