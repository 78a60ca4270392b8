//! The command `load` over bytes in memory.

use dr_io::{ByteSource, FixedClock, Port, PortBook};
use dr_plain::{PlainEnd, plain_main};
use dr_types::{Listed, Status, StreamFault};
use std::alloc::{AllocError, Global};

/// How bytes come, and what fails.
#[derive(Clone, Copy)]
pub struct Feed<'a> {
    /// How many bytes a read gives at most.
    pub piece: usize,
    /// The reads that fail, numbered from 1.
    pub reads: &'a [u64],
    /// The puts that fail, numbered from 1.
    pub puts: &'a [u64],
}

/// Bytes that come in large pieces, and nothing that fails.
pub const GOOD: Feed<'static> = Feed {
    piece: 4096,
    reads: &[],
    puts: &[],
};

/// Does `load` on these bytes.
pub fn load(
    alloc: Global,
    bytes: &[u8],
    feed: &Feed<'_>,
) -> Result<PlainEnd<PortBook>, AllocError> {
    let words = vec![in alloc; String::from_str(alloc, "load")?]?;
    let reads = Listed::from_vec(feed.reads.to_vec(alloc)?);
    let puts = Listed::from_vec(feed.puts.to_vec(alloc)?);
    let bytes = Listed::from_vec(bytes.to_vec(alloc)?);
    let mut source = ByteSource::new(bytes, feed.piece.max(1), reads);
    let out = PortBook::new(alloc, puts);
    let clock = FixedClock { now: 0 };
    Ok(plain_main(alloc, words.as_slice(), &mut source, out, &clock))
}

/// Nothing was put.
pub fn is_unput(out: &PortBook) -> bool {
    [Port::Stream, Port::Image, Port::Report, Port::Journal]
        .iter()
        .all(|port| out.bytes(*port).is_empty())
}

/// The bytes are refused for this fault, with what helps to find it, and nothing is put.
pub fn is_refused(alloc: Global, bytes: &[u8], fault: StreamFault) -> Result<bool, AllocError> {
    let end = load(alloc, bytes, &GOOD)?;
    let is_told = end.trouble.is_some_and(|it| it.fault == fault) && end.kept.is_none();
    Ok(end.status == Some(Status::BadStream(fault)) && is_told && is_unput(&end.out))
}
