//! The vCPU sections, and where a `rep` stands.

use dr_testing::{Kind, SETTINGS, is_refused, stays, with_sections};
use dr_types::What;
use std::alloc::{AllocError, Global};
use std::test::Fail;

/// Sections from line 10 on, what is wrong with one of their lines, and its number.
const FAULT_ROWS: &[(&str, Kind, u64)] = &[
    // Where a `vcpu` line is missing, or is another line.
    ("", Kind::Line, 10),
    ("\n# a\n", Kind::Line, 12),
    ("halt\n", Kind::Line, 10),
    ("end\n", Kind::Line, 10),
    ("rep 2\n", Kind::Line, 10),
    ("a 1\n", Kind::Line, 10),
    ("w 0 01\n", Kind::Line, 10),
    ("w 4096 0\n", Kind::Line, 10),
    ("vcpu 0\nhalt\n", Kind::Line, 10),
    ("vcpu # a\nhalt\n", Kind::Line, 10),
    ("vcpus\nhalt\n", Kind::Line, 10),
    ("Vcpu\nhalt\n", Kind::Line, 10),
    ("VCPU\nhalt\n", Kind::Line, 10),
    ("dirtyguest 1\n", Kind::Line, 10),
    ("ring 8\n", Kind::Line, 10),
    ("quota 0\n", Kind::Line, 10),
    // Where a `halt` is missing.
    ("vcpu\n", Kind::Line, 11),
    ("vcpu", Kind::Line, 11),
    ("vcpu\n\n# a\n", Kind::Line, 13),
    ("vcpu\na 1\n", Kind::Line, 12),
    ("vcpu\na 1", Kind::Line, 12),
    ("vcpu\nrep 2\na 1\nend\n", Kind::Line, 14),
    ("vcpu\nvcpu\nhalt\n", Kind::Line, 11),
    ("vcpu\na 1\nvcpu\nhalt\n", Kind::Line, 12),
    ("vcpu\nrep 2\na 1\nend\nvcpu\nhalt\n", Kind::Line, 14),
    ("vcpu\nhalt\nvcpu\n", Kind::Line, 13),
    ("vcpu\nhalt\nvcpu\na 1\n", Kind::Line, 14),
    ("vcpu\nhalt\nvcpu\nvcpu\nhalt\n", Kind::Line, 13),
    // After a `halt`.
    ("vcpu\nhalt\na 1\n", Kind::Line, 12),
    ("vcpu\nhalt\nw 0 01\n", Kind::Line, 12),
    ("vcpu\nhalt\nw 4096 0\n", Kind::Line, 12),
    ("vcpu\nhalt\nhalt\n", Kind::Line, 12),
    ("vcpu\nhalt\nrep 2\na 1\nend\n", Kind::Line, 12),
    ("vcpu\nhalt\nend\n", Kind::Line, 12),
    ("vcpu\nhalt\nslot 1 1 1\n", Kind::Line, 12),
    ("vcpu\nhalt\nring 8\n", Kind::Line, 12),
    ("vcpu\nhalt\nvcpu 1\nhalt\n", Kind::Line, 12),
    ("vcpu\nhalt\nvcpu\nhalt\na 1\n", Kind::Line, 14),
    ("vcpu\nhalt\n\n# a\nx\n", Kind::Line, 14),
    // `halt` has no word after it.
    ("vcpu\nhalt 0\n", Kind::Line, 11),
    ("vcpu\nhalt halt\n", Kind::Line, 11),
    ("vcpu\nhalt # a\n", Kind::Line, 11),
    ("vcpu\nHalt\n", Kind::Line, 11),
    ("vcpu\nhalts\n", Kind::Line, 11),
    // `rep` has one number, from 1 to 200,000.
    ("vcpu\nrep\na 1\nend\nhalt\n", Kind::Line, 11),
    ("vcpu\nrep 2 2\na 1\nend\nhalt\n", Kind::Line, 11),
    ("vcpu\nrep x 2\na 1\nend\nhalt\n", Kind::Line, 11),
    ("vcpu\nreps 2\na 1\nend\nhalt\n", Kind::Line, 11),
    ("vcpu\nREP 2\na 1\nend\nhalt\n", Kind::Line, 11),
    ("vcpu\nrep x\na 1\nend\nhalt\n", Kind::Number, 11),
    ("vcpu\nrep -1\na 1\nend\nhalt\n", Kind::Number, 11),
    ("vcpu\nrep 0\na 1\nend\nhalt\n", Kind::Number, 11),
    ("vcpu\nrep 200001\na 1\nend\nhalt\n", Kind::Number, 11),
    ("vcpu\nrep 4294967297\na 1\nend\nhalt\n", Kind::Number, 11),
    (
        "vcpu\nrep 18446744073709551615\na 1\nend\nhalt\n",
        Kind::Number,
        11,
    ),
    (
        "vcpu\nrep 18446744073709551616\na 1\nend\nhalt\n",
        Kind::Number,
        11,
    ),
    (
        "vcpu\nrep 000000000000000000001\na 1\nend\nhalt\n",
        Kind::Number,
        11,
    ),
    // A `rep` in a `rep`: its first word may not stand there.
    ("vcpu\nrep 2\nrep 2\na 1\nend\nend\nhalt\n", Kind::Line, 12),
    (
        "vcpu\nrep 2\na 1\nrep 2\na 1\nend\nend\nhalt\n",
        Kind::Line,
        13,
    ),
    ("vcpu\nrep 2\nrep\n", Kind::Line, 12),
    ("vcpu\nrep 2\nrep x\n", Kind::Line, 12),
    ("vcpu\nrep 2\nrep 0\n", Kind::Line, 12),
    // `halt` and `vcpu` in a `rep`.
    ("vcpu\nrep 2\nhalt\nend\nhalt\n", Kind::Line, 12),
    ("vcpu\nrep 2\na 1\nhalt\n", Kind::Line, 13),
    ("vcpu\nrep 2\na 1\nhalt 0\n", Kind::Line, 13),
    ("vcpu\nrep 2\nvcpu\nend\nhalt\n", Kind::Line, 12),
    ("vcpu\nrep 2\na 1\nvcpu\n", Kind::Line, 13),
    // `end`.
    ("vcpu\nend\nhalt\n", Kind::Line, 11),
    ("vcpu\na 1\nend\nhalt\n", Kind::Line, 12),
    ("vcpu\nrep 2\na 1\nend\nend\nhalt\n", Kind::Line, 14),
    ("vcpu\nrep 2\nend\nhalt\n", Kind::Line, 12),
    ("vcpu\nrep 200000\nend\nhalt\n", Kind::Line, 12),
    ("vcpu\nrep 2\n# a\n\nend\nhalt\n", Kind::Line, 14),
    ("vcpu\nrep 2\na 1\nend 2\nhalt\n", Kind::Line, 13),
    ("vcpu\nrep 2\na 1\nend # a\nhalt\n", Kind::Line, 13),
    ("vcpu\nrep 2\na 1\nEnd\nhalt\n", Kind::Line, 13),
    ("vcpu\nrep 2\na 1\nends\nhalt\n", Kind::Line, 13),
    // Where an `end` is missing.
    ("vcpu\nrep 2\n", Kind::Line, 12),
    ("vcpu\nrep 2\na 1\n", Kind::Line, 13),
    ("vcpu\nrep 2\na 1", Kind::Line, 13),
    ("vcpu\nrep 2\na 1\n# a", Kind::Line, 14),
    ("vcpu\nrep 200000\na 1\na 2\n", Kind::Line, 14),
    ("vcpu\nhalt\nvcpu\nrep 2\na 1\n", Kind::Line, 15),
];

#[test]
fn refuses_sections(rt: HostRuntime) -> Result<(), Fail> {
    for &(sections, kind, no) in FAULT_ROWS {
        let text = with_sections(rt.alloc(), sections)?;
        assert!(rt; is_refused(rt.alloc(), &text, kind.at(no)), "in {text}");
    }
    Ok(())
}

/// Sections that are read.
const READ_ROWS: &[&str] = &[
    "vcpu\nhalt\n",
    "vcpu\nhalt\nvcpu\nhalt\n",
    "vcpu\na 1\nhalt\nvcpu\na 2\na 3\nhalt\nvcpu\nhalt\n",
    "vcpu\nrep 1\na 1\nend\nhalt\n",
    "vcpu\nrep 199999\na 1\nend\nhalt\n",
    "vcpu\nrep 2\na 1\nend\nrep 3\na 2\nend\nhalt\n",
    "vcpu\na 1\nrep 2\na 1\na 2\nend\na 3\nrep 2\na 4\nend\nhalt\n",
    "vcpu\nrep 2\na 1\nend\nhalt\nvcpu\nrep 2\na 1\nend\nhalt\n",
    "vcpu\nrep 7\nw 0 01\nf 0 02\nr 0\na 1\ns 0\nnap 1\nend\nhalt\n",
    "vcpu\nr 0\nr 0\na 1\na 1\ns 8\ns 8\nhalt\n",
];

#[test]
fn reads_sections(rt: HostRuntime) -> Result<(), Fail> {
    for &sections in READ_ROWS {
        let text = with_sections(rt.alloc(), sections)?;
        assert!(rt; stays(rt.alloc(), &text), "in {text}");
    }
    Ok(())
}

/// So many sections of `halt` alone, and then this. The 33rd begins on line 74.
fn after_sections(alloc: Global, sections: u32, rest: &str) -> Result<String, AllocError> {
    let mut text = String::from_str(alloc, SETTINGS)?;
    text.push_str("slot 0 0 1\n")?;
    for _ in 0..sections {
        text.push_str("vcpu\nhalt\n")?;
    }
    text.push_str(rest)?;
    Ok(text)
}

#[test]
fn limits_sections(rt: HostRuntime) -> Result<(), Fail> {
    let rows = [
        (32, "vcpu", Kind::TooLarge(What::Vcpus), 74),
        (32, "vcpu\nhalt\nvcpu\n", Kind::TooLarge(What::Vcpus), 74),
        (32, "vcpu\nx\n", Kind::TooLarge(What::Vcpus), 74),
        (32, "\n# a\nvcpu\n", Kind::TooLarge(What::Vcpus), 76),
        (32, "vcpu 0\n", Kind::Line, 74),
        (32, "halt\n", Kind::Line, 74),
        (31, "vcpu\nvcpu\n", Kind::Line, 73),
        (31, "vcpu\n", Kind::Line, 73),
    ];
    for (sections, rest, kind, no) in rows {
        let text = after_sections(rt.alloc(), sections, rest)?;
        assert!(rt; is_refused(rt.alloc(), &text, kind.at(no)), "in {text}");
    }
    let most = after_sections(rt.alloc(), 31, "vcpu\na 1\nhalt\n")?;
    assert!(rt; stays(rt.alloc(), &most), "32 sections");
    Ok(())
}
