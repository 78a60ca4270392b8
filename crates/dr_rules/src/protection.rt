ghost use Rattle.std.specs.Prelude.{◌≡◌, ◌<◌, IfSome};
ghost use Rattle.dr_types.specs.Pages.{page_count};
ghost use Rattle.dr_types.specs.Scripts.{vcpu_count};
ghost use Rattle.dr_history.specs.Rules.{pushes_next, exits_with_reason, write_is_cached};
ghost use Rattle.dr_history.specs.Rules.{is_cached_for, opens_protected, fills_writable};
ghost use Rattle.dr_history.specs.Vcpus.{exits_for};
ghost use Rattle.dr_rules.specs.Named.{IsNamed};

use dr_history::Event;
use dr_log::Log;
use dr_slots::page_of_address;
use dr_types::Why;

fn is_cached_for(log: &Log, v: u32, page: Option<u32>) -> bool
    requires vcpu { v < vcpu_count log.now.guest }
    requires page { IfSome page (λ page. page < page_count log.now.guest) }
    ensures { result ≡ is_cached_for v log.now.past page }
{
    match page {
        Some(page) => log.cached(v, page),
        None => false,
    }
}

/// Rule 10: after Start a write goes to a cached page.
#[tactic(auto, unfolding(dr_history::specs::Rules::write_is_cached))]
pub fn write_is_cached(log: &Log, e: &Event) -> bool
    requires { IsNamed log.now.guest e.now }
    ensures { result ≡ write_is_cached log.now.guest log.now.past e.now }
{
    match e {
        Event::Write { v, space, addr, .. } => {
            !log.started() || is_cached_for(log, *v, page_of_address(log.guest(), *space, *addr))
        }
        Event::Paint { v, page, .. } => !log.started() || log.cached(*v, *page),
        _ => true,
    }
}

/// Rule 11: an Opened is of a protected page, with the vCPU's next entry.
#[tactic(auto, unfolding(dr_history::specs::Rules::opens_protected))]
pub fn opens_protected(log: &Log, e: &Event) -> bool
    requires { IsNamed log.now.guest e.now }
    ensures { result ≡ opens_protected log.now.guest log.now.past e.now }
{
    match e {
        Event::Opened { v, k, page } => {
            let started = log.started();
            let writable = log.writable(*page);
            let cached = log.cached(*v, *page);
            let opens = log.opens(*v);
            started && !writable && !cached && *k == opens
        }
        _ => true,
    }
}

/// Rule 12: a Filled is of a page that is writable and not cached.
#[tactic(auto, unfolding(dr_history::specs::Rules::fills_writable))]
pub fn fills_writable(log: &Log, e: &Event) -> bool
    requires { IsNamed log.now.guest e.now }
    ensures { result ≡ fills_writable log.now.guest log.now.past e.now }
{
    match e {
        Event::Filled { v, page } => {
            let started = log.started();
            let writable = log.writable(*page);
            let cached = log.cached(*v, *page);
            started && writable && !cached
        }
        _ => true,
    }
}

/// Rule 13: a Pushed is of the next opened entry, and finds room.
#[tactic(auto, unfolding(dr_history::specs::Rules::pushes_next))]
pub fn pushes_next(log: &Log, e: &Event) -> bool
    requires { IsNamed log.now.guest e.now }
    ensures { result ≡ pushes_next log.now.guest log.now.past e.now }
{
    match e {
        Event::Pushed { v, k } => {
            let pushes = log.pushes(*v);
            let opens = log.opens(*v);
            let used = log.used(*v);
            *k == pushes && *k < opens && used < u64::from(log.guest().settings.ring)
        }
        _ => true,
    }
}

/// The reason is the first that holds.
fn exits_for(why: Why, log: &Log, v: u32) -> bool
    requires { v < vcpu_count log.now.guest }
    ensures { result ≡ exits_for why log.now.guest v log.now.past }
{
    let halted = log.halted(v);
    let stopped = log.stopped();
    let kicked = log.kicked(v);
    let full = log.is_full(v);
    match why {
        Why::Halted => halted,
        Why::Stopped => !halted && stopped,
        Why::Kicked => !halted && !stopped && kicked,
        Why::Full => !halted && !stopped && !kicked && full,
        Why::Yield => !halted && !stopped && !kicked && !full,
    }
}

/// Rule 14: a vCPU leaves the guest with its buffer pushed, for the first reason that holds.
#[tactic(auto, unfolding(dr_history::specs::Rules::exits_with_reason))]
pub fn exits_with_reason(log: &Log, e: &Event) -> bool
    requires { IsNamed log.now.guest e.now }
    ensures { result ≡ exits_with_reason log.now.guest log.now.past e.now }
{
    match e {
        Event::Exited { v, why } => {
            let in_guest = log.in_guest(*v);
            let pushes = log.pushes(*v);
            let opens = log.opens(*v);
            let for_this = exits_for(*why, log, *v);
            in_guest && pushes == opens && for_this
        }
        _ => true,
    }
}
