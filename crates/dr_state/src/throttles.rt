ghost use Rattle.std.specs.Prelude.{◌≡◌, ◌+◌, ◌≤◌, ◌<◌, [], ◌∷◌, IfOk, ℕ, List, All, length};
ghost use Rattle.std.specs.Prelude.{vec_len};
ghost use Rattle.dr_types.specs.Scripts.{vcpu_count};
ghost use Rattle.dr_types.specs.declared.guest.Guest.{Guest};
ghost use Rattle.dr_history.specs.declared.event.Event.{Event};
ghost use Rattle.dr_history.specs.Throttles.{one_after, throttle};
ghost use Rattle.dr_state.specs.Rows.{rows_of};
ghost use Rattle.dr_state.specs.Spans.{AreThrottles, IsUnheld, SpanFits, FitsEntries, FitsSleep};
ghost use Rattle.dr_state.specs.Spans.{held_after, each_with};

use crate::throttle_fields::Throttles;
use crate::vcpus::{Vcpu, Vcpus};
use dr_history::Event;
use dr_limit::next;
use dr_rate::rate;
use dr_types::{Guest, Memory, Throttle};
use std::alloc::Global;

impl Throttles {
    /// No throttle for so many vCPUs, before any event.
    #[tactic(auto, using(crate::proofs::Firsts::holds_more))]
    pub fn new(alloc: Global, count: usize) -> Result<Throttles, Memory>
        ensures { IfOk result (λ it. (guest : Guest) → vcpu_count guest ≡ count
            → AreThrottles guest [] it) }
    {
        let mut list = Vec::new(alloc);
        for v in 0..count {
            list.push(Throttle { us: 0, peak: 0 })?;
        }
        Ok(Throttles {
            next: None,
            last: 0,
            list,
        })
    }

    /// A vCPU's throttle, where there is a quota.
    pub fn of(&self, v: u32) -> Throttle
        requires { v < vec_len self.now.list }
        ensures { (guest : Guest) (past : List Event) → 1 ≤ guest.settings.quota
            → AreThrottles guest past self.now → result ≡ throttle guest v past }
    {
        self.list[v as usize]
    }

    /// Takes an event. The vCPUs are as they were before it.
    pub fn take(&mut self, guest: &Guest, vcpus: &Vcpus, e: &Event)
        requires len { length vcpus.now ≡ vec_len self.old.list }
        requires quota { guest.now.settings.quota ≤ 1000000000 }
        requires ring { guest.now.settings.ring ≤ 65536 }
        requires fits { SpanFits guest.now.settings.quota e.now vcpus.now self.old.list.items }
        ensures { (past : List Event) → vcpus.now ≡ rows_of (vcpu_count guest.now) past
            → AreThrottles guest.now past self.old
            → AreThrottles guest.now (e.now ∷ past) self.new }
    {
        match e {
            Event::Start { at } => self.started(*at),
            Event::Synced { at, .. } => {
                if guest.settings.quota >= 1 {
                    self.answered(guest, vcpus, *at);
                } else {
                    self.unlimited(*at);
                }
            }
            Event::Throttled { v, .. } => self.throttled(*v),
            _ => self.unseen(),
        }
    }

    fn started(&mut self, at: u64)
        ensures { (guest : Guest) (past : List Event) → AreThrottles guest past self.old
            → AreThrottles guest (Event.Start at ∷ past) self.new }
    {
        self.next = None;
        self.last = at;
    }

    fn answered(&mut self, guest: &Guest, vcpus: &Vcpus, at: u64)
        requires len { length vcpus.now ≡ vec_len self.old.list }
        requires some_quota { 1 ≤ guest.now.settings.quota }
        requires quota { guest.now.settings.quota ≤ 1000000000 }
        requires ring { guest.now.settings.ring ≤ 65536 }
        requires entries { All FitsEntries vcpus.now }
        requires sleeps { All FitsSleep self.old.list.items }
        ensures { (past : List Event) (r : ℕ) (pages : List ℕ)
            → vcpus.now ≡ rows_of (vcpu_count guest.now) past
            → AreThrottles guest.now past self.old
            → AreThrottles guest.now (Event.Synced r at pages ∷ past) self.new }
    {
        let us = at.saturating_sub(self.last);
        hold_each(self.list.as_mut_slice(), vcpus.as_slice(), guest, us);
        self.next = Some(0);
        self.last = at;
    }

    fn unlimited(&mut self, at: u64)
        ensures { (guest : Guest) (past : List Event) (r : ℕ) (pages : List ℕ)
            → guest.settings.quota < 1 → AreThrottles guest past self.old
            → AreThrottles guest (Event.Synced r at pages ∷ past) self.new }
    {
        self.next = Some(0);
        self.last = at;
    }

    fn throttled(&mut self, v: u32)
        ensures { (guest : Guest) (past : List Event) (us : ℕ) → AreThrottles guest past self.old
            → AreThrottles guest (Event.Throttled v us ∷ past) self.new }
    {
        self.next = one_after(v, self.next);
    }

    fn unseen(&mut self)
        ensures { (guest : Guest) (past : List Event) (e : Event) → IsUnheld e
            → AreThrottles guest past self.old → AreThrottles guest (e ∷ past) self.new }
    {
        self.next = None;
    }
}

/// The number after this one, where the other is this one.
fn one_after(w: u32, other: Option<u64>) -> Option<u64>
    ensures { result ≡ one_after w other }
{
    match other {
        Some(v) => {
            if v == u64::from(w) {
                Some(u64::from(w) + 1)
            } else {
                None
            }
        }
        None => None,
    }
}

/// Each vCPU's throttle after an answer.
#[tactic(auto, using(crate::proofs::Holds::each_steps))]
fn hold_each(list: &mut [Throttle], vcpus: &[Vcpu], guest: &Guest, us: u64)
    requires len { length vcpus.now ≡ length list.old }
    requires some_quota { 1 ≤ guest.now.settings.quota }
    requires quota { guest.now.settings.quota ≤ 1000000000 }
    requires ring { guest.now.settings.ring ≤ 65536 }
    requires entries { All FitsEntries vcpus.now }
    requires sleeps { All FitsSleep list.old }
    ensures { let after = held_after guest.now.settings.quota us guest.now.settings.ring in
        list.new ≡ each_with after vcpus.now list.old }
{
    for v in 0..vcpus.len() {
        list[v] = held_after(vcpus[v], list[v], guest, us);
    }
}

/// A vCPU's throttle after an answer.
#[tactic(auto, unfolding(crate::specs::Spans::held_after))]
fn held_after(row: Vcpu, held: Throttle, guest: &Guest, us: u64) -> Throttle
    requires some_quota { 1 ≤ guest.now.settings.quota }
    requires quota { guest.now.settings.quota ≤ 1000000000 }
    requires ring { guest.now.settings.ring ≤ 65536 }
    requires entries { FitsEntries row }
    requires sleep { FitsSleep held }
    ensures { result ≡ held_after guest.now.settings.quota us guest.now.settings.ring row held }
{
    let current = rate(row.span_pushes, us);
    next(held, guest.settings.quota, current, guest.settings.ring)
}
