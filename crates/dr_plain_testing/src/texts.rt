//! The texts of small guests: their files, and the reports and journals of their runs.
ghost use Rattle.std.specs.Prelude.{◌≡◌, IfOk, string_bytes};
ghost use Rattle.std.specs.List.{flat_map};

use dr_testing::SETTINGS;
use std::alloc::{AllocError, Global};

/// The parts, one after the other.
#[tactic(auto, using(crate::proofs::Joining::more_part))]
pub fn joined(alloc: Global, parts: &[&str]) -> Result<String, AllocError>
    ensures { IfOk result (λ text. string_bytes text ≡ flat_map (λ part. part.now) parts.now) }
{
    let mut text = String::new(alloc);
    for part in parts {
        text.push_str(part)?;
    }
    Ok(text)
}

/// The smallest guest, with these ops before its halt.
pub fn guest_file(alloc: Global, ops: &str) -> Result<String, AllocError> {
    joined(alloc, &[SETTINGS, "slot 0 0 1\nvcpu\n", ops, "halt\n"])
}

/// A line of the report on a round with so many pages, and the line on its vCPU.
fn round_of(alloc: Global, round: u32, pages: u32, now: u64) -> Result<String, AllocError> {
    let share = "  vcpu 0 entries 0 rate 0 throttle 0\n";
    format!(in alloc; "round {round} dirty {pages} copied {pages} at {now}\n{share}")
}

/// The report of a guest of one page and one vCPU that executed so many ops.
pub fn report_of(alloc: Global, now: u64, ops: u32) -> Result<String, AllocError> {
    let mut report = joined(alloc, &["guest pages 1 vcpus 1 ring 8 soft 6\n"])?;
    for (round, pages) in [(1, 1), (2, 0), (3, 0)] {
        report.push_str(&round_of(alloc, round, pages, now)?)?;
    }
    let end = format!(in alloc; "vcpu 0 ops {ops} full 0 kicked 0\n")?;
    report.push_str(&end)?;
    report.push_str("switched\n")?;
    Ok(report)
}

/// The journal of a guest file in its canonical text, and of these events of its ops, where the
/// clock reads this time.
pub fn journal_of(alloc: Global, file: &str, events: &str, now: u64) -> Result<String, AllocError> {
    let now = &format!(in alloc; "{now}")?;
    let ops = [file, "journal\n", events, "x 0 halted\n"];
    let first = ["start ", now, "\nask 1\nsync 1 ", now, " 1 0\ncopy 1 0\n"];
    let second = ["ask 2\nsync 2 ", now, " 0\nstop\n"];
    let last = ["ask 3\nsync 3 ", now, " 0\nswitched\nend\n"];
    let mut journal = joined(alloc, &ops)?;
    journal.push_str(&joined(alloc, &first)?)?;
    journal.push_str(&joined(alloc, &second)?)?;
    journal.push_str(&joined(alloc, &last)?)?;
    Ok(journal)
}
