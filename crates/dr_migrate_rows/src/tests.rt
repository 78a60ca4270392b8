use crate::calls::Call;
use crate::run::{Row, does_so};
use dr_guestfile::read_guest;
use dr_machine::rings_for;
use dr_turns::{Advance, RunEnd, Turn};
use dr_types::{Listed, Memory, Step, Why};
use std::alloc::Global;
use std::marker::Brand;
use std::test::Fail;

const PLAIN: Turn = Turn::Done(Step::Plain);

/// A guest whose vCPU writes in each of its two pages.
const TWO_PAGES: &str = "dirtyguest 1
ring 8
reserve 2
buffer 2
pace 1
threshold 0
rounds 4
quota 0
slot 0 0 2
vcpu
a 1
w 0 41
w 4096 4243
halt
";

/// Two vCPUs that write a page each.
const TWO_VCPUS: &str = "dirtyguest 1
ring 8
reserve 2
buffer 1
pace 1
threshold 0
rounds 4
quota 0
slot 0 0 2
vcpu
a 1
w 0 01
halt
vcpu
a 1
w 4096 02
halt
";

/// The row holds of the guest of a text, where this put fails.
fn holds(alloc: Global, text: &str, fails: u64, row: Row) -> Result<bool, Memory> {
    match read_guest(alloc, text.as_bytes()) {
        Ok(guest) => {
            let set = rings_for(alloc, &guest)?;
            let mut numbers = Listed::new(alloc);
            numbers.push(fails)?;
            does_so::<Brand>(alloc, guest, set, numbers, row)
        }
        Err(_) => Ok(false),
    }
}

/// The second round is answered after an exit, a reap by its parts and a flush.
#[test]
fn a_round_waits_for_each_part(rt: HostRuntime) -> Result<(), Fail> {
    const CALLS: &[Call] = &[
        Call::Op(0, PLAIN),
        Call::Advance(Advance::Started),
        Call::Advance(Advance::Asked { r: 1 }),
        Call::Advance(Advance::NotOut { v: 0 }),
        Call::Exit(0, Some(Why::Kicked)),
        Call::Advance(Advance::Answered { r: 1, pages: 2 }),
        Call::Advance(Advance::Blank {
            r: 1,
            first: 0,
            count: 2,
        }),
        Call::Op(0, PLAIN),
        Call::Advance(Advance::Asked { r: 2 }),
        Call::Advance(Advance::NotOut { v: 0 }),
        Call::Exit(0, Some(Why::Kicked)),
        Call::Exit(0, None),
        Call::Advance(Advance::NotReset { v: 0, k: 0 }),
        Call::Deposit(0, 1),
        Call::Reset(0, 1),
        Call::Advance(Advance::NotFlushed),
        Call::Flush(true),
        Call::Flush(false),
        Call::Advance(Advance::Answered { r: 2, pages: 1 }),
        Call::Failed(false),
    ];
    const ROW: Row = Row {
        calls: CALLS,
        settles: false,
        lines: "ask 2\np 0 0\nx 0 kicked\nd 0 0 1\nz 0 0\nflush\nsync 2 7 1 0\n",
        put: 44,
        first: b"DRSTREAM\x02\x00\x00\x00\x02\x00\x00\x00\x01\x00\x00\x00\x01\x00\x00\x00\x04\x00\x00\x00\x00\x00\x00\x00\x02\x00\x00\x00",
    };
    assert!(rt; holds(rt.alloc(), TWO_PAGES, 99, ROW)?);
    Ok(())
}

/// After a failed put the run is over, and the port has what was put before.
#[test]
fn a_failed_put_ends_the_run(rt: HostRuntime) -> Result<(), Fail> {
    const CALLS: &[Call] = &[
        Call::Op(0, PLAIN),
        Call::Advance(Advance::Started),
        Call::Advance(Advance::Asked { r: 1 }),
        Call::Exit(0, Some(Why::Kicked)),
        Call::Failed(false),
        Call::Sinks,
        Call::Failed(true),
        Call::Op(0, Turn::Over),
        Call::Flush(false),
    ];
    const ROW: Row = Row {
        calls: CALLS,
        settles: false,
        lines: "ask 1\nx 0 kicked\nsync 1 7 2 0 1\n",
        put: 16,
        first: b"DRSTREAM\x02\x00\x00\x00\x02\x00\x00\x00",
    };
    assert!(rt; holds(rt.alloc(), TWO_PAGES, 2, ROW)?);
    Ok(())
}

/// A settling drops the batch that was deposited before, and deposits the next one.
#[test]
fn a_batch_is_settled_once(rt: HostRuntime) -> Result<(), Fail> {
    const CALLS: &[Call] = &[
        Call::Op(0, PLAIN),
        Call::Advance(Advance::Started),
        Call::Op(0, PLAIN),
        Call::Op(0, PLAIN),
    ];
    const ROW: Row = Row {
        calls: CALLS,
        settles: true,
        lines: "p 0 0\np 0 1\nd 0 0 1\nd 0 1 2\nz 0 0\nz 0 1\nflush\n",
        put: 16,
        first: b"DRSTREAM",
    };
    assert!(rt; holds(rt.alloc(), TWO_PAGES, 99, ROW)?);
    Ok(())
}

/// A reap of one vCPU leaves what the other pushed; that of all takes the rest, and then there is
/// nothing to reap.
#[test]
fn reaps_take_what_was_pushed(rt: HostRuntime) -> Result<(), Fail> {
    const CALLS: &[Call] = &[
        Call::ReapAll,
        Call::Op(0, PLAIN),
        Call::Op(1, PLAIN),
        Call::Advance(Advance::Started),
        Call::Op(0, PLAIN),
        Call::Op(1, PLAIN),
        Call::ReapOne(1),
        Call::Deposited(0, Some(0)),
        Call::Deposited(1, Some(1)),
        Call::ReapOne(1),
        Call::ReapAll,
        Call::Deposited(0, Some(1)),
        Call::ReapAll,
        Call::Flush(false),
    ];
    const ROW: Row = Row {
        calls: CALLS,
        settles: false,
        lines: "p 1 0\nd 1 0 1\nz 1 0\nflush\nd 0 0 1\nz 0 0\nflush\n",
        put: 16,
        first: b"DRSTREAM",
    };
    assert!(rt; holds(rt.alloc(), TWO_VCPUS, 99, ROW)?);
    Ok(())
}

/// A bench of which something has happened is driven to its switch-over, after what stood before.
#[test]
fn a_drive_goes_on_from_where_it_stands(rt: HostRuntime) -> Result<(), Fail> {
    const BEFORE: &str = "l 0 0
l 1 0
start 7
ask 1
x 0 kicked
x 1 kicked
sync 1 7 2 0 1
copy 1 0
copy 1 1
o 0 0 0
w 0 1 0 01
p 0 0
d 0 0 1
z 0 0
flush
";
    const WHOLE: &str = "l 0 0
l 1 0
start 7
ask 1
x 0 kicked
x 1 kicked
sync 1 7 2 0 1
copy 1 0
copy 1 1
o 0 0 0
w 0 1 0 01
p 0 0
d 0 0 1
z 0 0
flush
o 1 0 1
w 1 1 4096 02
p 1 0
ask 2
x 0 kicked
x 1 kicked
d 1 0 1
z 1 0
flush
sync 2 7 2 0 1
copy 2 0
copy 2 1
h 0 2
x 0 halted
h 1 2
x 1 halted
ask 3
sync 3 7 0
stop
ask 4
sync 4 7 0
switched
";
    const CALLS: &[Call] = &[
        Call::Op(0, PLAIN),
        Call::Op(1, PLAIN),
        Call::Advance(Advance::Started),
        Call::Advance(Advance::Asked { r: 1 }),
        Call::Exit(0, Some(Why::Kicked)),
        Call::Exit(1, Some(Why::Kicked)),
        Call::Advance(Advance::Answered { r: 1, pages: 2 }),
        Call::Advance(Advance::Blank {
            r: 1,
            first: 0,
            count: 2,
        }),
        Call::Op(0, PLAIN),
        Call::ReapAll,
        Call::Stands(BEFORE),
        Call::Drive(RunEnd::Switched),
        Call::Stands(WHOLE),
        Call::Failed(false),
    ];
    const ROW: Row = Row {
        calls: CALLS,
        settles: false,
        lines: "switched\n",
        put: 8268,
        first: b"DRSTREAM\x02\x00\x00\x00\x02\x00\x00\x00\x01\x00\x00\x00\x01\x00\x00\x00\x04\x00\x00\x00\x00\x00\x00\x00\x02\x00\x00\x00",
    };
    assert!(rt; holds(rt.alloc(), TWO_VCPUS, 99, ROW)?);
    Ok(())
}
