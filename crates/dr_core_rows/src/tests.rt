use crate::event_row::EventRow;
use crate::guests::{counting_guest, idle_guest, two_page_guest, writing_guest};
use crate::histories::{
    CACHED, COPIED_STALE, COUNTED, FIRST_READ, FIRST_THROTTLED, LAST_THROTTLED, OWED_WRITE,
    SECOND_THROTTLED, SENT_AGAIN, SMALLEST, back, flush,
};
use crate::judge::{Verdict, judged};
use dr_history::{Event, History};
use dr_types::Memory;
use std::alloc::Global;
use std::test::Fail;

/// A reset before the deposit, a flush, and the verdict.
const STALE_CACHES: &[(bool, bool, Verdict)] = &[
    (false, true, (24, 0)),
    (true, true, (8, 16)),
    (false, false, (15, 20)),
];

/// The third throttle in microseconds, and the verdict.
const THROTTLES: &[(u64, Verdict)] = &[(516, (39, 0)), (517, (28, 22))];

/// What the second read gives, and the verdict.
const READS: &[(u64, Verdict)] = &[
    (0x0707_0707_0707_0108, (9, 0)),
    (0x0707_0707_0707_0107, (5, 5)),
];

/// A page is copied while a write to it is still cached: after the flush it is sent again. The
/// history may reset the entry before it is deposited, or leave out the flush.
fn stale_cache(alloc: Global, early_reset: bool, with_flush: bool) -> Result<Verdict, Memory> {
    let guest = writing_guest(alloc)?;
    judged(
        alloc,
        &guest,
        &[
            CACHED,
            back(early_reset),
            COPIED_STALE,
            flush(with_flush),
            SENT_AGAIN,
        ],
    )
}

fn owed_write(alloc: Global) -> Result<Verdict, Memory> {
    let guest = writing_guest(alloc)?;
    judged(alloc, &guest, &[OWED_WRITE])
}

/// Each of two pages is written once under a quota, and the third throttle is this long.
fn throttled(alloc: Global, third: u64) -> Result<Verdict, Memory> {
    let guest = two_page_guest(alloc)?;
    let throttle = [EventRow::Throttled { us: third }];
    judged(
        alloc,
        &guest,
        &[FIRST_THROTTLED, SECOND_THROTTLED, &throttle, LAST_THROTTLED],
    )
}

/// A page is filled, written and read twice, and the second read gives this.
fn reads(alloc: Global, second: u64) -> Result<Verdict, Memory> {
    let guest = counting_guest(alloc)?;
    let read = [EventRow::Read {
        i: 5,
        addr: 8,
        value: second,
    }];
    judged(alloc, &guest, &[FIRST_READ, &read, COUNTED])
}

/// The first event writes a byte at address 0 of a space that the guest doesn't have.
fn space_without_slots(alloc: Global) -> Result<Verdict, Memory> {
    let guest = idle_guest(alloc)?;
    let write = [EventRow::ByteInSpace1 {
        i: 0,
        addr: 0,
        value: 0x41,
    }];
    judged(alloc, &guest, &[&write])
}

fn smallest(alloc: Global) -> Result<Verdict, Memory> {
    let guest = idle_guest(alloc)?;
    judged(alloc, &guest, &[SMALLEST])
}

#[test]
fn stale_caches_are_judged(rt: HostRuntime) -> Result<(), Fail> {
    let alloc = rt.alloc();
    for &(early_reset, with_flush, wanted) in STALE_CACHES {
        assert_eq!(rt; stale_cache(alloc, early_reset, with_flush)?, wanted);
    }
    assert_eq!(rt; owed_write(alloc)?, (3, 26));
    Ok(())
}

#[test]
fn throttles_are_judged(rt: HostRuntime) -> Result<(), Fail> {
    let alloc = rt.alloc();
    for &(third, wanted) in THROTTLES {
        assert_eq!(rt; throttled(alloc, third)?, wanted);
    }
    Ok(())
}

#[test]
fn reads_are_judged(rt: HostRuntime) -> Result<(), Fail> {
    let alloc = rt.alloc();
    for &(second, wanted) in READS {
        assert_eq!(rt; reads(alloc, second)?, wanted);
    }
    Ok(())
}

#[test]
fn a_page_is_looked_for_in_its_space(rt: HostRuntime) -> Result<(), Fail> {
    let alloc = rt.alloc();
    assert_eq!(rt; space_without_slots(alloc)?, (0, 2));
    Ok(())
}

#[test]
fn smallest_run_is_legal(rt: HostRuntime) -> Result<(), Fail> {
    let alloc = rt.alloc();
    assert_eq!(rt; smallest(alloc)?, (12, 0));
    Ok(())
}

#[test]
fn histories_are_written(rt: HostRuntime) -> Result<(), Fail> {
    let alloc = rt.alloc();
    let mut history = History::new(alloc)?;
    assert!(rt; history.push(Event::Stopped).is_ok());
    let text = history.text(alloc)?;
    assert_eq!(rt; text.as_str(), "stop\n");
    assert!(rt; history.reserve(1).is_ok());
    assert_eq!(rt; history.events().len(), 1);
    Ok(())
}
