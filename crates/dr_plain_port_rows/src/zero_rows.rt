//! A guest most of whose pages are zero: what it sends of them.

use dr_io::Port;
use dr_plain_testing::step_on;
use dr_types::Status;
use std::alloc::{AllocError, Global};
use std::test::Fail;

/// Before logging starts two of the six pages are written, and one is written and made zero again.
/// After the first round two pages get a zero where they have one.
const MOSTLY_ZERO: &str = "dirtyguest 1
ring 8
reserve 2
buffer 0
pace 4
threshold 0
rounds 3
quota 0
slot 0 0 6
vcpu
w 0 41
w 12288 01
w 12288 00
w 16384 42
w 4096 00
w 12288 00
halt
";

const HEADER: &[u8] = b"DRSTREAM\x02\0\0\0\x06\0\0\0";

/// Round 1 begins.
const FIRST_ROUND: &[u8] = b"\x01\0\0\0\x01\0\0\0";

/// The pages 1 to 3, and the page 5.
const BETWEEN: &[u8] = b"\x04\0\0\0\x01\0\0\0\x03\0\0\0";

const LAST: &[u8] = b"\x04\0\0\0\x05\0\0\0\x01\0\0\0";

/// Round 2 has the pages 1 and 3, which aren't next to each other.
const SECOND_ROUND: &[u8] =
    b"\x01\0\0\0\x02\0\0\0\x04\0\0\0\x01\0\0\0\x01\0\0\0\x04\0\0\0\x03\0\0\0\x01\0\0\0";

/// Round 4 is empty, and six records came.
const END: &[u8] = b"\x01\0\0\0\x04\0\0\0\x03\0\0\0\x06\0\0\0";

/// The record of a page that begins with this byte and is zero after it.
fn page_record(alloc: Global, page: u8, first: u8) -> Result<Vec<u8>, AllocError> {
    let mut bytes = [0; 4096];
    bytes[0] = first;
    let mut record = b"\x02\0\0\0".to_vec(alloc)?;
    record.extend_from_slice(&[page, 0, 0, 0])?;
    record.extend_from_slice(&bytes)?;
    Ok(record)
}

/// The parts, one after the other.
fn all_of(alloc: Global, parts: &[&[u8]]) -> Result<Vec<u8>, AllocError> {
    let mut all = Vec::new(alloc);
    for part in parts {
        all.extend_from_slice(*part)?;
    }
    Ok(all)
}

/// What the guest sends.
fn stream(alloc: Global) -> Result<Vec<u8>, AllocError> {
    let first = page_record(alloc, 0, 0x41)?;
    let fourth = page_record(alloc, 4, 0x42)?;
    all_of(
        alloc,
        &[
            HEADER,
            FIRST_ROUND,
            first.as_slice(),
            BETWEEN,
            fourth.as_slice(),
            LAST,
            SECOND_ROUND,
            END,
        ],
    )
}

#[test]
fn sends_zeros_together(rt: HostRuntime) -> Result<(), Fail> {
    let alloc = rt.alloc();
    let end = step_on(alloc, MOSTLY_ZERO, &[], 0)?;
    assert!(rt; end.status == Some(Status::Done), "the status");
    let stream = stream(alloc)?;
    assert!(rt;
        end.out.bytes(Port::Stream) == stream.as_slice(),
        "the stream"
    );
    Ok(())
}
