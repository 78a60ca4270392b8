use crate::calls::{Call, answer_so};
use dr_guestfile::read_guest;
use dr_machine::{RunEnd, Turn, rings_for};
use dr_types::{Memory, Step, Why};
use std::alloc::Global;
use std::marker::Brand;
use std::test::Fail;

const PLAIN: Turn = Turn::Done(Step::Plain);

/// A guest that writes a byte in each of its twelve pages, after thirteen adds.
const TWELVE_PAGES: &str = "dirtyguest 1
ring 8
reserve 2
buffer 1
pace 13
threshold 0
rounds 4
quota 0
slot 0 0 12
vcpu
rep 13
a 0
end
w 0 01
w 4096 01
w 8192 01
w 12288 01
w 16384 01
w 20480 01
w 24576 01
w 28672 01
w 32768 01
w 36864 01
w 40960 01
w 45056 01
halt
";

/// A guest that writes its only page twice.
const ONE_PAGE: &str = "dirtyguest 1
ring 8
reserve 2
buffer 0
pace 1
threshold 0
rounds 3
quota 0
slot 0 0 1
vcpu
a 0
w 0 01
w 0 02
halt
";

/// A guest with a buffer of two entries.
const TWO_ENTRIES: &str = "dirtyguest 1
ring 8
reserve 2
buffer 2
pace 1
threshold 0
rounds 3
quota 0
slot 5 0 2
vcpu
a 0
w 4096 07
w 0 08
nap 3
halt
";

/// The calls answer as they should on the guest of a text.
fn holds(
    alloc: Global,
    text: &str,
    early: u32,
    calls: &[Call],
    lines: &str,
) -> Result<bool, Memory> {
    match read_guest(alloc, text.as_bytes()) {
        Ok(guest) => {
            let set = rings_for(alloc, &guest)?;
            answer_so::<Brand>(alloc, guest, set, early, calls, lines.as_bytes())
        }
        Err(_) => Ok(false),
    }
}

/// At the soft limit a vCPU executes nothing, and leaves once.
#[test]
fn a_full_ring_ends_the_turns(rt: HostRuntime) -> Result<(), Fail> {
    const CALLS: &[Call] = &[
        Call::Op(0, PLAIN),
        Call::Op(0, PLAIN),
        Call::Op(0, PLAIN),
        Call::Op(0, PLAIN),
        Call::Op(0, PLAIN),
        Call::Op(0, Turn::Full { used: 5, soft: 5 }),
        Call::Exit(0, Some(Why::Full)),
        Call::Exit(0, None),
        Call::Byte(4, 1),
        Call::Byte(5, 0),
        Call::End(RunEnd::Open),
        Call::AllOut(false),
    ];
    let lines = "o 0 4 4\nw 0 17 16384 01\np 0 4\nx 0 full\n";
    assert!(rt; holds(rt.alloc(), TWELVE_PAGES, 13, CALLS, lines)?);
    Ok(())
}

/// A page that is written twice is opened once.
#[test]
fn a_page_is_opened_once(rt: HostRuntime) -> Result<(), Fail> {
    const CALLS: &[Call] = &[
        Call::Op(0, PLAIN),
        Call::Op(0, PLAIN),
        Call::Op(0, Turn::Done(Step::Halted)),
        Call::Op(0, Turn::Ended),
        Call::AllOut(true),
        Call::Exit(0, Some(Why::Halted)),
        Call::Byte(0, 2),
        Call::Deposited(0, Some(0)),
        Call::Reset(0, 0),
        Call::Flush(false),
    ];
    let lines = "l 0 0\nstart 7\no 0 0 0\nw 0 1 0 01\np 0 0\nw 0 2 0 02\nh 0 3\nx 0 halted\n";
    assert!(rt; holds(rt.alloc(), ONE_PAGE, 1, CALLS, lines)?);
    Ok(())
}

/// A run that was given up executes nothing; the buffer is pushed where its vCPU leaves.
#[test]
fn a_vcpu_leaves_behind_its_buffer(rt: HostRuntime) -> Result<(), Fail> {
    const CALLS: &[Call] = &[
        Call::Op(0, PLAIN),
        Call::Exit(0, Some(Why::Yield)),
        Call::Op(0, PLAIN),
        Call::Op(0, Turn::Done(Step::Nap(3))),
        Call::GiveUp,
        Call::Op(0, Turn::Over),
    ];
    let lines = "o 0 0 1\nw 0 1 4096 07\np 0 0\nx 0 yield\no 0 1 0\nw 0 2 0 08\nl 0 3\n";
    assert!(rt; holds(rt.alloc(), TWO_ENTRIES, 1, CALLS, lines)?);
    Ok(())
}
