ghost use Rattle.std.specs.Prelude.{◌≡◌, ◌<◌, ◌^◌, reverse};
ghost use Rattle.std.specs.List.{list_all};
ghost use Rattle.dr_types.specs.Pages.{page_count};
ghost use Rattle.dr_history.specs.Rules.{writes_page, is_vcpu, in_one_page, is_page, write_follows};
ghost use Rattle.dr_history.specs.Rules.{names_exist};

use dr_history::Event;
use dr_log::Log;
use dr_slots::page_of_address;
use dr_types::Guest;

/// The event is a write of this vCPU into this page.
fn writes_page(guest: &Guest, v: u32, page: u32, e: &Event) -> bool
    requires { page_count guest.now < 2 ^ 32 }
    ensures { result ≡ writes_page guest.now v page e.now }
{
    match e {
        Event::Write {
            v: w,
            space,
            addr,
            ..
        } => *w == v && page_of_address(guest, *space, *addr) == Some(page),
        Event::Paint { v: w, page: q, .. } => *w == v && *q == page,
        _ => false,
    }
}

/// The event is the write that an Opened or a Filled at the end is for.
#[tactic(auto, unfolding(dr_history::specs::Rules::write_follows))]
fn follows_last(guest: &Guest, events: &[Event], e: &Event) -> bool
    requires { page_count guest.now < 2 ^ 32 }
    ensures { result ≡ write_follows guest.now (reverse events.now) e.now }
{
    match events.last() {
        Some(Event::Opened { v, page, .. }) => writes_page(guest, *v, *page, e),
        Some(Event::Filled { v, page }) => writes_page(guest, *v, *page, e),
        _ => true,
    }
}

/// Rule 1: after an Opened or a Filled comes the write that it is for.
pub fn write_follows(log: &Log, e: &Event) -> bool
    ensures { result ≡ write_follows log.now.guest log.now.past e.now }
{
    follows_last(log.guest(), log.events(), e)
}

fn is_vcpu(guest: &Guest, v: u32) -> bool
    ensures { result ≡ is_vcpu guest.now v }
{
    (v as usize) < guest.scripts.len()
}

fn in_one_page(guest: &Guest, space: u32, address: u64, len: u32) -> bool
    requires { page_count guest.now < 2 ^ 32 }
    ensures { result ≡ in_one_page guest.now space address len }
{
    page_of_address(guest, space, address).is_some() && address % 4096 + u64::from(len) <= 4096
}

/// Each of these is a page of the guest.
fn are_pages(guest: &Guest, count: u32, pages: &[u32]) -> bool
    requires { count ≡ page_count guest.now }
    ensures { result ≡ list_all (is_page guest.now) pages.now }
{
    let mut all = true;
    for page in pages {
        all = all && *page < count;
    }
    all
}

/// Rule 2: each vCPU and page named is one of the guest, and bytes lie in one page.
#[tactic(auto, unfolding(dr_history::specs::Rules::names_exist))]
pub fn names_exist(log: &Log, e: &Event) -> bool
    ensures { result ≡ names_exist log.now.guest log.now.past e.now }
{
    let guest = log.guest();
    let count = log.pages();
    match e {
        Event::Read { v, space, addr, .. } => {
            is_vcpu(guest, *v) && in_one_page(guest, *space, *addr, 8)
        }
        Event::Write {
            v,
            space,
            addr,
            len,
            ..
        } => is_vcpu(guest, *v) && in_one_page(guest, *space, *addr, *len),
        Event::Paint { v, page, .. } | Event::Opened { v, page, .. } | Event::Filled { v, page } =>
            { is_vcpu(guest, *v) && *page < count }
        Event::Local { v, .. }
        | Event::Halted { v, .. }
        | Event::Pushed { v, .. }
        | Event::Exited { v, .. }
        | Event::Deposited { v, .. }
        | Event::Reset { v, .. }
        | Event::Throttled { v, .. } => is_vcpu(guest, *v),
        Event::Synced { pages, .. } => are_pages(guest, count, pages.as_slice()),
        Event::Copied { page, .. } => *page < count,
        Event::Start { .. }
        | Event::Flushed
        | Event::Asked { .. }
        | Event::Stopped
        | Event::Switched => true,
    }
}
