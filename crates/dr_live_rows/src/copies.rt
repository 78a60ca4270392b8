ghost use Rattle.std.specs.Prelude.{◌≡◌, IfOk};

use dr_history::Event;
use std::alloc::AllocError;

/// A copy of an event.
pub fn copy_of(event: &Event) -> Result<Event, AllocError>
    ensures { IfOk result (λ copy. copy ≡ event.now) }
{
    let copy = match event {
        Event::Start { at } => Event::Start { at: *at },
        Event::Read {
            v,
            i,
            space,
            addr,
            value,
        } => Event::Read {
            v: *v,
            i: *i,
            space: *space,
            addr: *addr,
            value: *value,
        },
        Event::Write {
            v,
            i,
            space,
            addr,
            len,
            value,
        } => Event::Write {
            v: *v,
            i: *i,
            space: *space,
            addr: *addr,
            len: *len,
            value: *value,
        },
        Event::Paint { v, i, page, byte } => Event::Paint {
            v: *v,
            i: *i,
            page: *page,
            byte: *byte,
        },
        Event::Local { v, i } => Event::Local { v: *v, i: *i },
        Event::Halted { v, i } => Event::Halted { v: *v, i: *i },
        Event::Opened { v, k, page } => Event::Opened {
            v: *v,
            k: *k,
            page: *page,
        },
        Event::Filled { v, page } => Event::Filled { v: *v, page: *page },
        Event::Pushed { v, k } => Event::Pushed { v: *v, k: *k },
        Event::Exited { v, why } => Event::Exited { v: *v, why: *why },
        Event::Deposited { v, from, to } => Event::Deposited {
            v: *v,
            from: *from,
            to: *to,
        },
        Event::Reset { v, k } => Event::Reset { v: *v, k: *k },
        Event::Flushed => Event::Flushed,
        Event::Asked { r } => Event::Asked { r: *r },
        Event::Synced { r, at, pages } => Event::Synced {
            r: *r,
            at: *at,
            pages: pages.clone()?,
        },
        Event::Copied { r, page } => Event::Copied { r: *r, page: *page },
        Event::Throttled { v, us } => Event::Throttled { v: *v, us: *us },
        Event::Stopped => Event::Stopped,
        Event::Switched => Event::Switched,
    };
    Ok(copy)
}
