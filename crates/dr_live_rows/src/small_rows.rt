//! Small guests: the times of their events, and rings that are full after each entry.

use crate::runs::run;
use dr_history::Event;
use dr_io::Port;
use dr_machine::Kept;
use dr_plain_testing::guest_file;
use dr_types::Status;
use std::test::Fail;

/// Each time in the history is this one; and how many there are.
fn times(kept: &Kept, now: u64) -> Option<usize> {
    let mut count = 0_usize;
    for event in kept.history().events() {
        match event {
            Event::Start { at } | Event::Synced { at, .. } if *at == now => {
                count = count.saturating_add(1);
            }
            Event::Start { .. } | Event::Synced { .. } => return None,
            _ => {}
        }
    }
    Some(count)
}

/// The smallest guest: its logging begins, and three rounds are answered.
#[test]
fn reads_the_clock_that_it_has(rt: HostRuntime) -> Result<(), Fail> {
    let file = guest_file(rt.alloc(), "")?;
    let end = run(&rt, rt.alloc(), &file, &[], 7)?;
    assert!(rt; end.status == Status::Done, "the status");
    let times = end.kept.as_ref().and_then(|kept| times(kept, 7));
    assert!(rt; times == Some(4), "the times");
    Ok(())
}

/// Two vCPUs under a quota, whose rings are full after each entry.
const FULL_RINGS: &str =
    "dirtyguest 1\nring 4\nreserve 3\nbuffer 0\npace 4\nthreshold 0\nrounds 4\nquota 100000\nslot 0 0 3\nvcpu\nrep 4\na 0\nend\nw 0 01\nw 4096 01\nw 8192 01\nhalt\nvcpu\nrep 4\na 0\nend\nw 0 02\nw 4096 02\nhalt\n";

/// The first byte of each page is what one of its writes wrote.
fn holds_writes(image: &[u8]) -> bool {
    for at in [0, 4096, 8192] {
        match image.get(at) {
            Some(1) => {}
            Some(2) if at != 8192 => {}
            _ => return false,
        }
    }
    image.len() == 3 * 4096
}

#[test]
fn reaps_full_rings(rt: HostRuntime) -> Result<(), Fail> {
    let end = run(&rt, rt.alloc(), FULL_RINGS, &[], 0)?;
    assert!(rt; end.status == Status::Done, "the status");
    assert!(rt; holds_writes(end.out.bytes(Port::Image)), "the image");
    Ok(())
}
