//! What a source keeps of a text.

use crate::KeptSource;
use dr_io::{ByteSource, read_all};
use dr_types::Listed;
use std::alloc::{AllocError, Global};
use std::test::Fail;

/// A text that comes two bytes at a time, with these reads failing.
fn source(alloc: Global, text: &str, reads: &[u64]) -> Result<KeptSource<ByteSource>, AllocError> {
    let bytes = Listed::from_vec(text.as_bytes().to_vec(alloc)?);
    let reads = Listed::from_vec(reads.to_vec(alloc)?);
    Ok(KeptSource::new(alloc, ByteSource::new(bytes, 2, reads)))
}

/// Of a text that is read to its end, or up to a read that fails, this is kept.
fn keeps(alloc: Global, text: &str, reads: &[u64], kept: &str) -> Result<bool, AllocError> {
    let mut source = source(alloc, text, reads)?;
    let _read = read_all(alloc, &mut source, 100);
    Ok(source.kept() == Some(kept.as_bytes()))
}

/// A source that keeps nothing gives all of this text, and has nothing kept.
fn gives_unkept(alloc: Global, text: &str) -> Result<bool, AllocError> {
    let bytes = Listed::from_vec(text.as_bytes().to_vec(alloc)?);
    let source = ByteSource::new(bytes, 2, Listed::new(alloc));
    let mut source = KeptSource::keeping_nothing(source);
    let is_whole = match read_all(alloc, &mut source, 100) {
        Ok(read) => read.as_slice() == text.as_bytes(),
        Err(_) => false,
    };
    Ok(is_whole && source.kept().is_none())
}

#[test]
fn keeps_what_it_gave(rt: HostRuntime) -> Result<(), Fail> {
    // A text, the read that fails, and what is kept.
    let rows = [
        ("abcde", 9, "abcde"),
        ("abcd", 9, "abcd"),
        ("", 9, ""),
        ("abcde", 1, ""),
        ("abcde", 2, "ab"),
        ("abcde", 4, "abcde"),
    ];
    for (text, read, kept) in rows {
        assert!(rt; keeps(rt.alloc(), text, &[read], kept)?, "{text} at {read}");
    }
    assert!(rt; gives_unkept(rt.alloc(), "abcde")?);
    Ok(())
}
