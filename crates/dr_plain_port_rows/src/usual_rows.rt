//! The usual guest: four vCPUs that each count to 1,000 in a page of their own, over two slots.

use dr_io::{Port, PortBook};
use dr_plain_testing::{holds_counts, step_on, usual_guest, usual_report};
use dr_types::Status;
use std::alloc::{AllocError, Global};
use std::test::Fail;

/// How many lines stand between the lines `journal` and `end`.
fn event_lines(alloc: Global, journal: &[u8]) -> Result<usize, AllocError> {
    let text = String::from_utf8_lossy(alloc, journal)?;
    let events = text.lines().skip_while(|line| *line != "journal").skip(1);
    Ok(events.take_while(|line| *line != "end").count())
}

/// The journal begins with the guest file, and has 12,004 ops, 4 exits, the start, 3 rounds asked
/// and answered, 6,144 copies, and the two ends.
fn has_events(alloc: Global, file: &str, out: &PortBook) -> Result<bool, AllocError> {
    let journal = out.bytes(Port::Journal);
    Ok(journal.starts_with(file.as_bytes()) && event_lines(alloc, journal)? == 18_161)
}

/// The ports hold this report, the image, and a stream of the header, the rounds 1 and 3, the four
/// pages that count, the zeros in two runs, and the end.
fn is_usual(out: &PortBook, report: &[u8]) -> bool {
    out.bytes(Port::Report) == report
        && out.bytes(Port::Stream).len() == 16 + 8 + 4 * 4104 + 2 * 12 + 8 + 8
        && holds_counts(out.bytes(Port::Image))
}

#[test]
fn migrates_the_usual_guest(rt: HostRuntime) -> Result<(), Fail> {
    let alloc = rt.alloc();
    let file = usual_guest(alloc)?;
    let end = step_on(alloc, &file, &[], 7)?;
    assert!(rt; end.status == Some(Status::Done), "the status");
    let report = usual_report(alloc, 7)?;
    assert!(rt; is_usual(&end.out, report.as_bytes()), "the ports");
    assert!(rt; has_events(alloc, &file, &end.out)?, "the journal");
    Ok(())
}
