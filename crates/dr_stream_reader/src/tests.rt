//! A stream of one page, whole and damaged. Many more are in the rows of `load`.

use crate::{Image, Record, StreamReader, read_stream};
use dr_types::StreamFault;
use std::test::Fail;

/// A stream of version 2: round 1, in which the one page is said to be zero.
const ZERO: &[u8] =
    b"DRSTREAM\x02\0\0\0\x01\0\0\0\x01\0\0\0\x01\0\0\0\x04\0\0\0\0\0\0\0\x01\0\0\0\x03\0\0\0\x01\0\0\0";

/// The image has one page of zeros, from one record.
fn is_zero_page(image: Image) -> bool {
    let bytes = image.bytes.as_slice();
    let is_page = image.pages == 1 && image.records == 1 && bytes.len() == 4096;
    is_page && bytes.iter().all(|byte| *byte == 0)
}

#[test]
fn a_stream_loads(rt: HostRuntime) -> Result<(), Fail> {
    let image = read_stream(rt.alloc(), ZERO);
    assert!(rt; image.is_ok_and(is_zero_page));
    Ok(())
}

#[test]
fn a_damaged_stream_has_a_fault(rt: HostRuntime) -> Result<(), Fail> {
    let image = read_stream(rt.alloc(), ZERO.get(..34).unwrap_or(&[]));
    let fault = image.err();
    assert_eq!(rt; fault, Some(StreamFault::Cut { at: 34 }));
    Ok(())
}

/// What a reader gives at each call.
fn reads_zero(mut reader: StreamReader<'_>) -> bool {
    const CALLS: &[(u64, Result<Option<Record<'static>>, StreamFault>)] = &[
        (16, Ok(Some(Record::Round(1)))),
        (24, Ok(Some(Record::Zeros { first: 0, count: 1 }))),
        (36, Ok(None)),
        (36, Ok(None)),
    ];
    for &(at, wanted) in CALLS {
        if reader.at() != at || reader.next() != wanted {
            return false;
        }
    }
    let standing = reader.standing();
    standing.pages == 1 && standing.records == 1
}

#[test]
fn a_stream_is_read_record_by_record(rt: HostRuntime) -> Result<(), Fail> {
    assert!(rt; StreamReader::new(ZERO).is_ok_and(reads_zero));
    Ok(())
}
