//! All that the simulation asks of the judge. Of a vCPU or a page that the guest hasn't, each
//! question answers what it would of one to which nothing has happened.

ghost use Rattle.std.specs.Prelude.{◌≡◌, ◌-◌, ◌≤◌, ◌<◌, ◌^◌, ◌%◌, nat_le, true, None, All, IfOk};
ghost use Rattle.std.specs.Prelude.{IfSome, length, slice_get};
ghost use Rattle.dr_types.specs.Pages.{page_count, page_of_address};
ghost use Rattle.dr_types.specs.Scripts.{vcpu_count, operation};
ghost use Rattle.dr_history.specs.Dirty.{dirty_pages};
ghost use Rattle.dr_history.specs.Entries.{opens, pushes, resets};
ghost use Rattle.dr_history.specs.Execution.{ops};
ghost use Rattle.dr_history.specs.Memory.{page_bytes, loaded};
ghost use Rattle.dr_history.specs.Protection.{cached, started, writable};
ghost use Rattle.dr_history.specs.Rounds.{last_synced};
ghost use Rattle.dr_history.specs.Rules.{in_one_page};
ghost use Rattle.dr_history.specs.Throttles.{throttle};
ghost use Rattle.dr_history.specs.Vcpus.{is_full, kicked};
ghost use Rattle.dr_history_law.specs.Copies.{copies, pages_of};

use dr_core::Core;
use dr_slots::page_of_address;
use dr_types::{Memory, Op, PageList};
use std::alloc::Global;

/// How many vCPUs the guest has.
pub fn vcpus(core: &Core) -> u32
    ensures { result ≡ vcpu_count core.now.guest }
{
    core.log().vcpus()
}

/// How many rounds the guest has before the stop.
pub fn rounds(core: &Core) -> u32
    ensures { result ≡ core.now.guest.settings.rounds }
{
    core.log().guest().settings.rounds
}

/// Logging has started.
pub fn is_started(core: &Core) -> bool
    ensures { result ≡ started core.now.past }
{
    core.log().started()
}

/// The operation that a vCPU executes next.
pub fn next_op(core: &Core, v: u32) -> Option<Op>
    ensures { v < vcpu_count core.now.guest
        → result ≡ operation core.now.guest v (ops v core.now.past) }
{
    if v < core.log().vcpus() {
        core.log().next_op(v)
    } else {
        None
    }
}

/// How many operations a vCPU has executed.
pub fn ops(core: &Core, v: u32) -> u64
    ensures { v < vcpu_count core.now.guest → result ≡ ops v core.now.past }
{
    if v < core.log().vcpus() {
        core.log().ops(v)
    } else {
        0
    }
}

/// A vCPU was in the guest at the last Asked, and hasn't left it since.
pub fn kicked(core: &Core, v: u32) -> bool
    ensures { v < vcpu_count core.now.guest → result ≡ kicked v core.now.past }
{
    v < core.log().vcpus() && core.log().kicked(v)
}

/// How many entries a vCPU has opened.
pub fn opens(core: &Core, v: u32) -> u64
    ensures { v < vcpu_count core.now.guest → result ≡ opens v core.now.past }
{
    if v < core.log().vcpus() {
        core.log().opens(v)
    } else {
        0
    }
}

/// How many entries a vCPU has pushed.
pub fn pushes(core: &Core, v: u32) -> u64
    ensures { v < vcpu_count core.now.guest → result ≡ pushes v core.now.past }
{
    if v < core.log().vcpus() {
        core.log().pushes(v)
    } else {
        0
    }
}

/// How many entries of a vCPU are reset.
pub fn resets(core: &Core, v: u32) -> u64
    ensures { v < vcpu_count core.now.guest → result ≡ resets v core.now.past }
{
    if v < core.log().vcpus() {
        core.log().resets(v)
    } else {
        0
    }
}

/// A vCPU's ring is so full that it has to leave the guest.
pub fn is_full(core: &Core, v: u32) -> bool
    ensures { v < vcpu_count core.now.guest → result ≡ is_full core.now.guest v core.now.past }
{
    let limit = core.log().guest().settings.soft_limit();
    pushes(core, v).saturating_sub(resets(core, v)) >= u64::from(limit)
}

/// A vCPU's log buffer has no room for another entry.
pub fn is_buffered(core: &Core, v: u32) -> bool
    ensures { v < vcpu_count core.now.guest → let past = core.now.past in
        result ≡ nat_le core.now.guest.settings.buffer (opens v past - pushes v past) }
{
    let buffer = u64::from(core.log().guest().settings.buffer);
    opens(core, v).saturating_sub(pushes(core, v)) >= buffer
}

/// How long a vCPU is to sleep, in microseconds.
pub fn throttle_us(core: &Core, v: u32) -> u64
    ensures { v < vcpu_count core.now.guest → 1 ≤ core.now.guest.settings.quota
        → result ≡ (throttle core.now.guest v core.now.past).us }
{
    if v < core.log().vcpus() && core.log().guest().settings.quota > 0 {
        core.log().throttle(v).us
    } else {
        0
    }
}

/// The page of an address of space 0.
pub fn page_at(core: &Core, addr: u64) -> Option<u32>
    ensures { result ≡ page_of_address core.now.guest 0 addr }
{
    let _recall_pages = core.log().pages();
    page_of_address(core.log().guest(), 0, addr)
}

/// The value of the 8 bytes at an address of space 0.
pub fn loaded(core: &Core, addr: u64) -> u64
    ensures { in_one_page core.now.guest 0 addr 8 ≡ true
        → IfSome (page_of_address core.now.guest 0 addr) (λ page.
        result ≡ loaded (page_bytes core.now.guest page core.now.past) (addr % 4096)) }
{
    if page_at(core, addr).is_some() && addr % 4096 <= 4088 {
        core.log().loaded(0, addr)
    } else {
        0
    }
}

/// A vCPU has its permission to write a page.
pub fn cached(core: &Core, v: u32, page: u32) -> bool
    ensures { v < vcpu_count core.now.guest → page < page_count core.now.guest
        → result ≡ cached v page core.now.past }
{
    v < core.log().vcpus() && page < core.log().pages() && core.log().cached(v, page)
}

/// A page may be written.
pub fn writable(core: &Core, page: u32) -> bool
    ensures { page < page_count core.now.guest → result ≡ writable page core.now.past }
{
    page < core.log().pages() && core.log().writable(page)
}

/// The pages that the destination lacks, rising. An `Err` comes for want of memory alone.
pub fn dirty_pages(core: &Core, alloc: Global) -> Result<PageList, Memory>
    ensures pages { IfOk result (λ pages. pages ≡ dirty_pages core.now.guest core.now.past) }
    ensures small { IfOk result (λ pages. All (λ page. page < 2 ^ 32) pages) }
    ensures few { IfOk result (λ pages. length pages ≤ page_count core.now.guest) }
{
    core.log().dirty_pages(alloc)
}

/// The page of the last answer that is to be copied next.
pub fn next_copy(core: &Core) -> Option<u32>
    ensures { let past = core.now.past in
        result ≡ slice_get (pages_of (last_synced past)) (copies past) }
{
    core.log().next_copy()
}

/// How many events were taken.
pub fn events(core: &Core) -> u64
    ensures { result ≡ length core.now.past }
{
    core.log().history().len() as u64
}

/// The last answer has so few pages that the guest may be stopped.
pub fn has_few(core: &Core) -> bool {
    match core.log().answered_count() {
        Some(count) => count <= u64::from(core.log().guest().settings.threshold),
        None => false,
    }
}

/// The number of the round that was asked last.
pub fn last_round(core: &Core) -> u32 {
    u32::try_from(core.log().asks()).unwrap_or(u32::MAX)
}
