//! What the program's source keeps of a file that is refused, and an input that can't be opened.

use dr_input::{InputFile, KeptSource, NotedReader};
use dr_io::{ByteSource, FixedClock, PortBook, ReadSource, Source};
use dr_plain::plain_main;
use dr_types::{FileFault, Listed, Status};
use std::alloc::{AllocError, Global};
use std::cell::Cell;
use std::io;
use std::io::ErrorKind;
use std::test::Fail;

/// A text that comes two bytes at a time.
fn source(alloc: Global, text: &str) -> Result<KeptSource<ByteSource>, AllocError> {
    let bytes = Listed::from_vec(text.as_bytes().to_vec(alloc)?);
    Ok(KeptSource::new(alloc, ByteSource::new(bytes, 2, Listed::new(alloc))))
}

/// The status of `step` on a source.
fn status_of<S: Source>(alloc: Global, source: &mut S) -> Result<Option<Status>, AllocError> {
    let words = vec![in alloc; String::from_str(alloc, "step")?]?;
    let out = PortBook::new(alloc, Listed::new(alloc));
    let clock = FixedClock { now: 0 };
    Ok(plain_main(alloc, words.as_slice(), source, out, &clock).status)
}

/// The status of `step` on a file, where the file is kept.
fn refusal(alloc: Global, file: &str) -> Result<Option<Status>, AllocError> {
    let mut source = source(alloc, file)?;
    let status = status_of(alloc, &mut source)?;
    if source.kept() == Some(file.as_bytes()) {
        Ok(status)
    } else {
        Ok(None)
    }
}

#[test]
fn keeps_a_refused_file(rt: HostRuntime) -> Result<(), Fail> {
    // What comes after the fault is kept too.
    let rows = [
        (
            "dirtyguest 1\nring 6\nreserve 2\n",
            FileFault::RingSize { no: 2 },
        ),
        ("dirtyguest 3\n# the end", FileFault::Magic { no: 1 }),
    ];
    for (file, fault) in rows {
        let status = refusal(rt.alloc(), file)?;
        assert_eq!(rt; status, Some(Status::GuestFile(fault)), "in {file}");
    }
    Ok(())
}

#[test]
fn an_input_that_cannot_be_opened_is_a_read_that_fails(rt: HostRuntime) -> Result<(), Fail> {
    let cause = Cell::new(None);
    let input: InputFile<io::Empty, io::Empty> = InputFile::Unopened(io::Error::from(
        ErrorKind::NotFound,
    ));
    let mut source = ReadSource::new(NotedReader::new(input, &cause));
    assert_eq!(rt; status_of(rt.alloc(), &mut source)?, Some(Status::Source));
    assert!(rt;
        cause
            .get()
            .is_some_and(|why| why.kind() == ErrorKind::NotFound)
    );
    Ok(())
}

#[test]
fn no_cause_is_noted_of_reads_that_go_well(rt: HostRuntime) -> Result<(), Fail> {
    let cause = Cell::new(None);
    let input: InputFile<io::Empty, io::Empty> = InputFile::Standard(io::empty());
    let mut source = ReadSource::new(NotedReader::new(input, &cause));
    let _status = status_of(rt.alloc(), &mut source)?;
    assert!(rt; cause.get().is_none());
    Ok(())
}
