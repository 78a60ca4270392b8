use crate::event_row::EventRow;
use dr_types::Why;

/// The smallest run: the vCPU halts at once, and its page is copied once.
pub const SMALLEST: &[EventRow] = &[
    EventRow::Halted { i: 0 },
    EventRow::Exited { why: Why::Halted },
    EventRow::Start,
    EventRow::Asked { r: 1 },
    EventRow::Synced { r: 1, pages: &[0] },
    EventRow::Copied { r: 1, page: 0 },
    EventRow::Asked { r: 2 },
    EventRow::Synced { r: 2, pages: &[] },
    EventRow::Stopped,
    EventRow::Asked { r: 3 },
    EventRow::Synced { r: 3, pages: &[] },
    EventRow::Switched,
];

/// The first page is asked for while the vCPU runs, and written once it is answered.
pub const CACHED: &[EventRow] = &[
    EventRow::Local { i: 0 },
    EventRow::Start,
    EventRow::Asked { r: 1 },
    EventRow::Exited { why: Why::Kicked },
    EventRow::Synced { r: 1, pages: &[0] },
    EventRow::Opened { k: 0, page: 0 },
    EventRow::Byte {
        i: 1,
        addr: 0,
        value: 1,
    },
    EventRow::Pushed { k: 0 },
];

/// The entry is given back.
const GIVEN_BACK: &[EventRow] = &[
    EventRow::Deposited { from: 0, to: 1 },
    EventRow::Reset { k: 0 },
];

/// The entry is reset before it is deposited.
const RESET_EARLY: &[EventRow] = &[
    EventRow::Reset { k: 0 },
    EventRow::Deposited { from: 0, to: 1 },
];

/// The entry is given back, maybe too early.
pub fn back(early_reset: bool) -> &'static [EventRow] {
    if early_reset { RESET_EARLY } else { GIVEN_BACK }
}

/// The page is copied while a write to it is still cached.
pub const COPIED_STALE: &[EventRow] = &[
    EventRow::Copied { r: 1, page: 0 },
    EventRow::Byte {
        i: 2,
        addr: 0,
        value: 2,
    },
];

/// The write is no longer cached.
const FLUSHED: &[EventRow] = &[EventRow::Flushed];

/// The write is flushed or not.
pub fn flush(with_flush: bool) -> &'static [EventRow] {
    if with_flush { FLUSHED } else { &[] }
}

/// The page is sent again, and the guest switches over.
pub const SENT_AGAIN: &[EventRow] = &[
    EventRow::Halted { i: 3 },
    EventRow::Exited { why: Why::Halted },
    EventRow::Asked { r: 2 },
    EventRow::Synced { r: 2, pages: &[0] },
    EventRow::Copied { r: 2, page: 0 },
    EventRow::Asked { r: 3 },
    EventRow::Synced { r: 3, pages: &[] },
    EventRow::Stopped,
    EventRow::Asked { r: 4 },
    EventRow::Synced { r: 4, pages: &[] },
    EventRow::Switched,
];

/// A write is owed at the end.
pub const OWED_WRITE: &[EventRow] = &[
    EventRow::Local { i: 0 },
    EventRow::Start,
    EventRow::Opened { k: 0, page: 0 },
];

/// Two pages are asked for while the vCPU runs, and one is written under a quota.
pub const FIRST_THROTTLED: &[EventRow] = &[
    EventRow::Local { i: 0 },
    EventRow::Start,
    EventRow::Asked { r: 1 },
    EventRow::Exited { why: Why::Kicked },
    EventRow::Synced {
        r: 1,
        pages: &[0, 1],
    },
    EventRow::Throttled { us: 0 },
    EventRow::Copied { r: 1, page: 0 },
    EventRow::Copied { r: 1, page: 1 },
    EventRow::Opened { k: 0, page: 0 },
    EventRow::Byte {
        i: 1,
        addr: 0,
        value: 0x41,
    },
    EventRow::Asked { r: 2 },
    EventRow::Pushed { k: 0 },
    EventRow::Exited { why: Why::Kicked },
    EventRow::Deposited { from: 0, to: 1 },
    EventRow::Reset { k: 0 },
    EventRow::Flushed,
    EventRow::Synced { r: 2, pages: &[0] },
    EventRow::Throttled { us: 258 },
    EventRow::Copied { r: 2, page: 0 },
];

/// The other page is written, up to the third throttle.
pub const SECOND_THROTTLED: &[EventRow] = &[
    EventRow::Opened { k: 1, page: 1 },
    EventRow::Pair {
        i: 2,
        addr: 4_096,
        value: 0x4342,
    },
    EventRow::Asked { r: 3 },
    EventRow::Pushed { k: 1 },
    EventRow::Exited { why: Why::Kicked },
    EventRow::Deposited { from: 1, to: 2 },
    EventRow::Reset { k: 1 },
    EventRow::Flushed,
    EventRow::Synced { r: 3, pages: &[1] },
];

/// The vCPU halts, and is throttled no longer.
pub const LAST_THROTTLED: &[EventRow] = &[
    EventRow::Copied { r: 3, page: 1 },
    EventRow::Halted { i: 3 },
    EventRow::Exited { why: Why::Halted },
    EventRow::Asked { r: 4 },
    EventRow::Synced { r: 4, pages: &[] },
    EventRow::Throttled { us: 0 },
    EventRow::Stopped,
    EventRow::Asked { r: 5 },
    EventRow::Synced { r: 5, pages: &[] },
    EventRow::Switched,
];

/// A page is filled and written, and its first word is read and counted up.
pub const FIRST_READ: &[EventRow] = &[
    EventRow::Paint {
        i: 0,
        page: 0,
        byte: 7,
    },
    EventRow::Byte {
        i: 1,
        addr: 9,
        value: 1,
    },
    EventRow::Read {
        i: 2,
        addr: 8,
        value: 0x0707_0707_0707_0107,
    },
    EventRow::Local { i: 3 },
    EventRow::Word {
        i: 4,
        addr: 8,
        value: 0x0707_0707_0707_0108,
    },
];

/// What was read a second time is counted up.
pub const COUNTED: &[EventRow] = &[
    EventRow::Local { i: 6 },
    EventRow::Word {
        i: 7,
        addr: 8,
        value: 0x0707_0707_0707_0109,
    },
    EventRow::Halted { i: 8 },
];
