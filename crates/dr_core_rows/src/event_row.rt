ghost use Rattle.std.specs.Prelude.{◌≤◌, ◌<◌, ◌^◌, IfOk};
ghost use Rattle.dr_history.specs.Lines.{FitsLine};

use dr_history::Event;
use dr_types::{Listed, Memory, Why};
use std::alloc::Global;

/// An event of a run with one vCPU whose clock stands still.
#[derive(Clone, Copy)]
pub enum EventRow {
    Start,
    Read { i: u32, addr: u64, value: u64 },
    Byte { i: u32, addr: u64, value: u8 },
    ByteInSpace1 { i: u32, addr: u64, value: u8 },
    Pair { i: u32, addr: u64, value: u16 },
    Word { i: u32, addr: u64, value: u64 },
    Paint { i: u32, page: u32, byte: u8 },
    Local { i: u32 },
    Halted { i: u32 },
    Opened { k: u64, page: u32 },
    Pushed { k: u64 },
    Exited { why: Why },
    Deposited { from: u64, to: u64 },
    Reset { k: u64 },
    Flushed,
    Asked { r: u32 },
    Synced { r: u32, pages: &'static [u32] },
    Copied { r: u32, page: u32 },
    Throttled { us: u64 },
    Stopped,
    Switched,
}

fn written(i: u32, space: u32, addr: u64, len: u32, value: u64) -> Event
    requires space { space ≤ 1 }
    requires some { 1 ≤ len }
    requires few { len ≤ 8 }
    requires fits { value < 256 ^ len }
    ensures { FitsLine result }
{
    Event::Write {
        v: 0,
        i,
        space,
        addr,
        len,
        value,
    }
}

fn synced(alloc: Global, r: u32, pages: &[u32]) -> Result<Event, Memory>
    ensures { IfOk result FitsLine }
{
    let pages = Listed::from_vec(Vec::from_slice(alloc, pages)?);
    Ok(Event::Synced { r, at: 0, pages })
}

/// The event of a step. An `Err` comes for want of memory alone.
pub fn event_of(alloc: Global, step: EventRow) -> Result<Event, Memory>
    ensures { IfOk result FitsLine }
{
    let event = match step {
        EventRow::Start => Event::Start { at: 0 },
        EventRow::Read { i, addr, value } => Event::Read {
            v: 0,
            i,
            space: 0,
            addr,
            value,
        },
        EventRow::Byte { i, addr, value } => written(i, 0, addr, 1, u64::from(value)),
        EventRow::ByteInSpace1 { i, addr, value } => written(i, 1, addr, 1, u64::from(value)),
        EventRow::Pair { i, addr, value } => written(i, 0, addr, 2, u64::from(value)),
        EventRow::Word { i, addr, value } => written(i, 0, addr, 8, value),
        EventRow::Paint { i, page, byte } => Event::Paint {
            v: 0,
            i,
            page,
            byte,
        },
        EventRow::Local { i } => Event::Local { v: 0, i },
        EventRow::Halted { i } => Event::Halted { v: 0, i },
        EventRow::Opened { k, page } => Event::Opened { v: 0, k, page },
        EventRow::Pushed { k } => Event::Pushed { v: 0, k },
        EventRow::Exited { why } => Event::Exited { v: 0, why },
        EventRow::Deposited { from, to } => Event::Deposited { v: 0, from, to },
        EventRow::Reset { k } => Event::Reset { v: 0, k },
        EventRow::Flushed => Event::Flushed,
        EventRow::Asked { r } => Event::Asked { r },
        EventRow::Synced { r, pages } => return synced(alloc, r, pages),
        EventRow::Copied { r, page } => Event::Copied { r, page },
        EventRow::Throttled { us } => Event::Throttled { v: 0, us },
        EventRow::Stopped => Event::Stopped,
        EventRow::Switched => Event::Switched,
    };
    Ok(event)
}
