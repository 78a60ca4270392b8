//! The limit of ops: 200,000 in all scripts written out.

use dr_testing::{Kind, is_refused, stays, with_sections};
use dr_types::What;
use std::alloc::{AllocError, Global};
use std::test::Fail;

/// Sections with 200,000 ops.
const MOST_ROWS: &[&str] = &[
    "vcpu\nrep 199999\na 0\nend\nhalt\n",
    "vcpu\nrep 199998\na 0\nend\na 0\nhalt\n",
    "vcpu\na 0\nrep 99999\na 0\na 0\nend\nhalt\n",
    "vcpu\nrep 66666\na 0\na 0\na 0\nend\na 0\nhalt\n",
    "vcpu\nrep 1\na 0\nend\nrep 199998\na 0\nend\nhalt\n",
    "vcpu\nrep 100000\na 0\nend\nrep 99999\na 0\nend\nhalt\n",
    "vcpu\nrep 99999\na 0\nend\nhalt\nvcpu\nrep 99999\na 0\nend\nhalt\n",
    "vcpu\nhalt\nvcpu\nrep 199997\na 0\nend\nhalt\nvcpu\nhalt\n",
];

#[test]
fn reads_most_ops(rt: HostRuntime) -> Result<(), Fail> {
    for &sections in MOST_ROWS {
        let text = with_sections(rt.alloc(), sections)?;
        assert!(rt; stays(rt.alloc(), &text), "in {text}");
    }
    Ok(())
}

/// Sections from line 10 on with more ops, what is wrong with the line that comes to the limit, and
/// its number.
const ABOVE_ROWS: &[(&str, Kind, u64)] = &[
    (
        "vcpu\nrep 200000\na 0\nend\nhalt\n",
        Kind::TooLarge(What::Ops),
        14,
    ),
    (
        "vcpu\nrep 199999\na 0\nend\na 0\nhalt\n",
        Kind::TooLarge(What::Ops),
        15,
    ),
    (
        "vcpu\nrep 199999\na 0\nend\nhalt\nvcpu\nhalt\n",
        Kind::TooLarge(What::Ops),
        16,
    ),
    (
        "vcpu\nrep 200000\na 0\nend\na 0\nhalt\n",
        Kind::TooLarge(What::Ops),
        14,
    ),
    (
        "vcpu\na 0\nrep 200000\na 0\nend\nhalt\n",
        Kind::TooLarge(What::Ops),
        14,
    ),
    (
        "vcpu\nrep 100001\na 0\na 0\nend\nhalt\n",
        Kind::TooLarge(What::Ops),
        14,
    ),
    (
        "vcpu\nrep 66667\na 0\na 0\na 0\nend\nhalt\n",
        Kind::TooLarge(What::Ops),
        15,
    ),
    (
        "vcpu\nrep 200000\na 0\na 0\na 0\nend\nhalt\n",
        Kind::TooLarge(What::Ops),
        15,
    ),
    (
        "vcpu\nrep 1\na 0\nend\nrep 200000\na 0\nend\n",
        Kind::TooLarge(What::Ops),
        16,
    ),
    (
        "vcpu\nrep 99999\na 0\nend\nhalt\nvcpu\nrep 99999\na 0\nend\na 0\nhalt\n",
        Kind::TooLarge(What::Ops),
        20,
    ),
    (
        "vcpu\nrep 99999\na 0\nend\nhalt\nvcpu\nrep 100001\na 0\nend\nhalt\n",
        Kind::TooLarge(What::Ops),
        18,
    ),
    (
        "vcpu\nhalt\nvcpu\nhalt\nvcpu\nrep 199998\na 0\nend\nhalt\n",
        Kind::TooLarge(What::Ops),
        18,
    ),
    (
        "vcpu\nrep 200000\na 0\nend\nr 0\n",
        Kind::TooLarge(What::Ops),
        14,
    ),
    // Each line is at the limit: an op, and an `end`.
    (
        "vcpu\nrep 200000\na 0\nend\nrep 1\na 0\nend\n",
        Kind::TooLarge(What::Ops),
        16,
    ),
    (
        "vcpu\nrep 200000\na 0\nend\nw 0 01\n",
        Kind::TooLarge(What::Ops),
        14,
    ),
    (
        "vcpu\nrep 200000\na 0\nend\nnap 1\n",
        Kind::TooLarge(What::Ops),
        14,
    ),
    // Other faults come before it, on the line itself.
    ("vcpu\nrep 200000\na 0\nend\nr\n", Kind::Line, 14),
    ("vcpu\nrep 200000\na 0\nend\nhalt 0\n", Kind::Line, 14),
    ("vcpu\nrep 200000\na 0\nend\nr x\n", Kind::Number, 14),
    ("vcpu\nrep 200000\na 0\nend\nr 4096\n", Kind::Unmapped, 14),
    ("vcpu\nrep 200000\na 0\nend\nr 4089\n", Kind::CrossPage, 14),
    ("vcpu\nrep 200000\na 0\na 0\nend 0\n", Kind::Line, 14),
    // The lines of a `rep` aren't counted before its `end`.
    (
        "vcpu\nrep 200000\na 0\nend\nrep 1\na 0\na 0\nr 4096\nend\n",
        Kind::Unmapped,
        17,
    ),
    ("vcpu\nrep 200000\na 0\nend\nrep 1\nend\n", Kind::Line, 15),
    ("vcpu\nrep 200000\na 0\nend\nrep 200001\n", Kind::Number, 14),
    ("vcpu\nrep 200000\na 0\na 0\na 0\nhalt\n", Kind::Line, 15),
];

#[test]
fn refuses_more_ops(rt: HostRuntime) -> Result<(), Fail> {
    for &(sections, kind, no) in ABOVE_ROWS {
        let text = with_sections(rt.alloc(), sections)?;
        assert!(rt; is_refused(rt.alloc(), &text, kind.at(no)), "in {text}");
    }
    Ok(())
}

/// A section that begins with this, has so many lines `a 0`, and then this.
fn long_section(
    alloc: Global,
    before: &str,
    lines: u64,
    after: &str,
) -> Result<String, AllocError> {
    let mut text = with_sections(alloc, before)?;
    for _ in 0..lines {
        text.push_str("a 0\n")?;
    }
    text.push_str(after)?;
    Ok(text)
}

#[test]
fn counts_lines(rt: HostRuntime) -> Result<(), Fail> {
    // What stands before and after so many lines `a 0`.
    let rows = [
        ("vcpu\nrep 199\n", 1_000, "end\na 1\nhalt\n"),
        ("vcpu\nrep 199000\na 1\nend\n", 999, "halt\n"),
    ];
    for (before, lines, after) in rows {
        let text = long_section(rt.alloc(), before, lines, after)?;
        assert!(rt; stays(rt.alloc(), &text), "{lines} lines");
    }
    Ok(())
}

#[test]
fn counts_each_line(rt: HostRuntime) -> Result<(), Fail> {
    // What stands before and after so many lines `a 0`, and the line that comes to the limit.
    let rows = [
        ("vcpu\nrep 200\n", 1_000, "end\nhalt\n", 1_013),
        ("vcpu\nrep 200\n", 1_001, "end\nhalt\n", 1_013),
        ("vcpu\nrep 199000\na 1\nend\n", 1_001, "halt\n", 1_014),
        // 200,000 times 21,475 is 32,704 modulo 2^32.
        ("vcpu\nrep 200000\n", 21_475, "end\nhalt\n", 21_487),
        // Line 11 is the first op.
        ("vcpu\n", 200_000, "halt\n", 200_011),
    ];
    for (before, lines, after, no) in rows {
        let text = long_section(rt.alloc(), before, lines, after)?;
        let fault = Kind::TooLarge(What::Ops).at(no);
        assert!(rt; is_refused(rt.alloc(), &text, fault), "{lines} lines");
    }
    Ok(())
}
