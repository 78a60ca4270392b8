//! What is kept of the machine of a run: its guest, and the events of the journal that was put.

use crate::commands::keeps;
use dr_types::Status;
use std::test::Fail;

/// A page that is written before logging starts. The file is not in canonical text.
#[test]
fn keeps_what_has_switched_over(rt: HostRuntime) -> Result<(), Fail> {
    let file = "# a page
dirtyguest  1
ring 08
reserve 2
buffer 0
pace 16
threshold 0
rounds 2
quota 0

slot 0\t0 1
vcpu
 w 0 4A
halt";
    let journal = "dirtyguest 1
ring 8
reserve 2
buffer 0
pace 16
threshold 0
rounds 2
quota 0
slot 0 0 1
vcpu
w 0 4a
halt
journal
w 0 0 0 4a
h 0 1
x 0 halted
start 0
ask 1
sync 1 0 1 0
copy 1 0
ask 2
sync 2 0 0
stop
ask 3
sync 3 0 0
switched
end
";
    assert!(rt; keeps(rt.alloc(), file, Status::Done, journal));
    Ok(())
}

/// One round, which leaves a page too many.
#[test]
fn keeps_what_has_spent_its_rounds(rt: HostRuntime) -> Result<(), Fail> {
    let file = "dirtyguest 1
ring 8
reserve 2
buffer 0
pace 16
threshold 0
rounds 1
quota 0
slot 0 0 1
vcpu
halt
";
    let journal = "dirtyguest 1
ring 8
reserve 2
buffer 0
pace 16
threshold 0
rounds 1
quota 0
slot 0 0 1
vcpu
halt
journal
h 0 0
x 0 halted
start 0
ask 1
sync 1 0 1 0
copy 1 0
end
";
    assert!(rt; keeps(rt.alloc(), file, Status::Unfinished, journal));
    Ok(())
}
