//! The slot lines.

use dr_testing::{Kind, SETTINGS, is_refused, stays};
use dr_types::{FileFault, What};
use std::alloc::{AllocError, Global};
use std::test::Fail;

/// A guest with these slots, the first on line 9, and so many rounds.
fn with_slots(alloc: Global, rounds: u32, slots: &str) -> Result<String, AllocError> {
    let head = "dirtyguest 1\nring 8\nreserve 2\nbuffer 0\npace 16\nthreshold 0";
    format!(in alloc; "{head}\nrounds {rounds}\nquota 0\n{slots}vcpu\nhalt\n")
}

/// Slot lines, what is wrong with one of them, and its number.
const FAULT_ROWS: &[(&str, Kind, u64)] = &[
    // Where a slot line stands, and how many words it has.
    ("", Kind::Line, 9),
    ("# none\n\n", Kind::Line, 11),
    ("slot\n", Kind::Line, 9),
    ("slot 0\n", Kind::Line, 9),
    ("slot 0 0\n", Kind::Line, 9),
    ("slot 0 0 1 1\n", Kind::Line, 9),
    ("slot 0 0 1 # a\n", Kind::Line, 9),
    ("slots 0 0 1\n", Kind::Line, 9),
    ("Slot 0 0 1\n", Kind::Line, 9),
    ("slo 0 0 1\n", Kind::Line, 9),
    ("0 0 1\n", Kind::Line, 9),
    ("quota 0\n", Kind::Line, 9),
    ("slot 0 0 1\nslots 1 1 1\n", Kind::Line, 10),
    ("slot 0 0 1\nslot\n", Kind::Line, 10),
    ("slot 0 0 1\nslot 1 1\n", Kind::Line, 10),
    ("slot 0 0 1\nquota 0\n", Kind::Line, 10),
    ("slot 0 0 1\ndirtyguest 1\n", Kind::Line, 10),
    ("slot 0 0 1\n\n# a\nslot 1 1 1 1\n", Kind::Line, 12),
    ("slot 0 0 1\nvcpu\nhalt\nslot 1 1 1\n", Kind::Line, 12),
    ("slot 0 0 1\nvcpu\nslot 1 1 1\n", Kind::Line, 11),
    // Ids.
    ("slot x 0 1\n", Kind::Number, 9),
    ("slot -1 0 1\n", Kind::Number, 9),
    ("slot 65536 0 1\n", Kind::Number, 9),
    ("slot 4294967296 0 1\n", Kind::Number, 9),
    ("slot 18446744073709551615 0 1\n", Kind::Number, 9),
    ("slot 18446744073709551616 0 1\n", Kind::Number, 9),
    ("slot 000000000000000000000 0 1\n", Kind::Number, 9),
    // Bases: 4503599627370496 is 2^52.
    ("slot 0 x 1\n", Kind::Number, 9),
    ("slot 0 0x10 1\n", Kind::Number, 9),
    ("slot 0 4503599627370496 1\n", Kind::Number, 9),
    ("slot 0 4503599627370495 2\n", Kind::Number, 9),
    ("slot 0 4503599627354112 16385\n", Kind::Number, 9),
    ("slot 0 4503595332403202 4294967295\n", Kind::Number, 9),
    ("slot 0 9223372036854775808 1\n", Kind::Number, 9),
    ("slot 0 18446744073709551615 1\n", Kind::Number, 9),
    ("slot 0 18446744073709551615 2\n", Kind::Number, 9),
    ("slot 0 18446744069414584321 4294967295\n", Kind::Number, 9),
    ("slot 0 18446744073709551616 1\n", Kind::Number, 9),
    // Pages.
    ("slot 0 0 x\n", Kind::Number, 9),
    ("slot 0 0 0\n", Kind::Number, 9),
    ("slot 0 0 00\n", Kind::Number, 9),
    ("slot 0 4503599627370496 0\n", Kind::Number, 9),
    ("slot 0 0 4294967296\n", Kind::Number, 9),
    ("slot 0 0 4294967297\n", Kind::Number, 9),
    ("slot 0 0 18446744073709551615\n", Kind::Number, 9),
    ("slot 0 0 18446744073709551616\n", Kind::Number, 9),
    ("slot 0 0 16385\n", Kind::TooLarge(What::Pages), 9),
    ("slot 0 0 4294967295\n", Kind::TooLarge(What::Pages), 9),
    (
        "slot 0 4503595332403201 4294967295\n",
        Kind::TooLarge(What::Pages),
        9,
    ),
    (
        "slot 0 0 8192\nslot 1 8192 8193\n",
        Kind::TooLarge(What::Pages),
        10,
    ),
    (
        "slot 0 0 1\nslot 1 1 4294967295\n",
        Kind::TooLarge(What::Pages),
        10,
    ),
    (
        "slot 0 0 16384\nslot 1 16384 1\n",
        Kind::TooLarge(What::Pages),
        10,
    ),
    // Ids that stand above.
    ("slot 0 0 1\nslot 0 1 1\n", Kind::SlotTwice, 10),
    ("slot 7 0 1\nslot 007 1 1\n", Kind::SlotTwice, 10),
    ("slot 65535 0 1\nslot 65535 9 1\n", Kind::SlotTwice, 10),
    ("slot 0 0 1\nslot 1 1 1\nslot 0 2 1\n", Kind::SlotTwice, 11),
    ("slot 0 0 1\nslot 1 1 1\nslot 1 2 1\n", Kind::SlotTwice, 11),
    ("slot 0 0 1\n# a\n\nslot 0 1 1\n", Kind::SlotTwice, 12),
    // The order of the faults of one line.
    ("slot x 0\n", Kind::Line, 9),
    ("slot 65536 0 1 1\n", Kind::Line, 9),
    ("slot 0 0 1\nslot 0 0 0\n", Kind::Number, 10),
    ("slot 0 0 1\nslot 0 x 1\n", Kind::Number, 10),
    ("slot 0 0 1\nslot 0 0 1\n", Kind::SlotTwice, 10),
    ("slot 0 0 4\nslot 1 4 4\nslot 1 3 1\n", Kind::SlotTwice, 11),
    ("slot 0 0 1\nslot 0 1 16384\n", Kind::SlotTwice, 10),
    ("slot 0 0 1\nslot 0 0 16385\n", Kind::SlotTwice, 10),
    // The earlier line.
    ("slot 0 0 0\nslot\n", Kind::Number, 9),
    (
        "slot 0 0 16385\nslot 0 0 1\n",
        Kind::TooLarge(What::Pages),
        9,
    ),
    ("slot 0 0 1\nslot 0 1 1\nslot 2 0 1\n", Kind::SlotTwice, 10),
];

#[test]
fn refuses_slots(rt: HostRuntime) -> Result<(), Fail> {
    for &(slots, kind, no) in FAULT_ROWS {
        let text = with_slots(rt.alloc(), 1, slots)?;
        assert!(rt; is_refused(rt.alloc(), &text, kind.at(no)), "in {text}");
    }
    Ok(())
}

/// Slot lines, the first slot that another meets, and that other one.
const OVERLAP_ROWS: &[(&str, u32, u32)] = &[
    ("slot 0 0 1\nslot 1 0 1\n", 0, 1),
    ("slot 1 0 1\nslot 0 0 1\n", 1, 0),
    ("slot 0 0 4\nslot 1 3 1\n", 0, 1),
    ("slot 0 3 1\nslot 1 0 4\n", 0, 1),
    ("slot 0 4 4\nslot 1 0 5\n", 0, 1),
    ("slot 0 0 8\nslot 1 3 2\n", 0, 1),
    ("slot 0 3 2\nslot 1 0 8\n", 0, 1),
    (
        "slot 3 4503599627370488 8\nslot 2 4503599627370495 1\n",
        3,
        2,
    ),
    ("slot 65535 0 2\nslot 0 1 2\n", 65535, 0),
    // The first of several, in the order of the lines.
    ("slot 5 0 4\nslot 3 4 4\nslot 9 2 4\n", 5, 9),
    ("slot 5 4 4\nslot 3 0 4\nslot 9 2 4\n", 5, 9),
    ("slot 8 20 1\nslot 5 4 4\nslot 3 0 4\nslot 9 2 4\n", 5, 9),
    ("slot 0 0 1\nslot 1 8 8\nslot 2 15 1\n", 1, 2),
    ("slot 0 0 1\nslot 1 1 1\nslot 2 2 1\nslot 3 0 3\n", 0, 3),
    ("slot 2 2 1\nslot 1 1 1\nslot 0 0 1\nslot 3 0 3\n", 2, 3),
    // Before the limit of pages and of copies.
    ("slot 0 0 4\nslot 1 3 16384\n", 0, 1),
    ("slot 0 8 4\nslot 1 0 4294967295\n", 0, 1),
];

#[test]
fn refuses_overlaps(rt: HostRuntime) -> Result<(), Fail> {
    for &(slots, a, b) in OVERLAP_ROWS {
        let text = with_slots(rt.alloc(), 64, slots)?;
        assert!(rt;
            is_refused(rt.alloc(), &text, FileFault::Overlap { a, b }),
            "in {text}"
        );
    }
    Ok(())
}

/// Slot lines that are read.
const READ_ROWS: &[&str] = &[
    "slot 0 0 1\n",
    "slot 65535 0 1\n",
    "slot 9 1 1\n",
    "slot 0 0 16384\n",
    "slot 0 0 8192\nslot 1 8192 8192\n",
    "slot 0 0 16383\nslot 1 16383 1\n",
    "slot 0 4503599627370495 1\n",
    "slot 0 4503599627354112 16384\n",
    "slot 0 4503599627370495 1\nslot 1 0 1\n",
    "slot 0 0 4\nslot 1 4 4\n",
    "slot 1 4 4\nslot 0 0 4\n",
    "slot 0 0 4\nslot 1 8 4\nslot 2 4 4\n",
    "slot 0 1 1\nslot 1 0 1\nslot 2 2 1\n",
    "slot 0 0 1\nslot 65535 1 1\nslot 1 2 1\n",
    "slot 10 0 1\nslot 1 1 1\nslot 0 2 1\n",
    "slot 1 0 1\nslot 2 1048576 1\nslot 3 1048575 1\n",
    "slot 3 4503599627370494 1\nslot 2 4503599627370495 1\n",
];

#[test]
fn reads_slots(rt: HostRuntime) -> Result<(), Fail> {
    for &slots in READ_ROWS {
        let text = with_slots(rt.alloc(), 1, slots)?;
        assert!(rt; stays(rt.alloc(), &text), "in {text}");
    }
    Ok(())
}

/// Rounds and pages, and whether the pages times one more than the rounds are at most 262,144.
const COPY_ROWS: &[(u32, u32, bool)] = &[
    (1, 16384, true),
    (14, 16384, true),
    (15, 16384, true),
    (16, 16384, false),
    (16, 15420, true),
    (16, 15421, false),
    (31, 8192, true),
    (31, 8193, false),
    (63, 4096, true),
    (63, 4097, false),
    (64, 4032, true),
    (64, 4033, false),
    (64, 4096, false),
    (64, 16384, false),
];

/// These slots are read, or refused with too many copies at this line.
fn counts_copies(alloc: Global, rounds: u32, slots: &str, is_read: bool, no: u64) -> bool {
    let Ok(text) = with_slots(alloc, rounds, slots) else {
        return false;
    };
    if is_read {
        stays(alloc, &text)
    } else {
        is_refused(alloc, &text, Kind::TooLarge(What::Copies).at(no))
    }
}

#[test]
fn limits_copies(rt: HostRuntime) -> Result<(), Fail> {
    let alloc = rt.alloc();
    // So many pages in one slot, and in two.
    for &(rounds, pages, is_read) in COPY_ROWS {
        let rest = pages.saturating_sub(1);
        let one = format!(in alloc; "slot 0 0 {pages}\n")?;
        let two = format!(in alloc; "slot 0 {pages} 1\nslot 1 1 {rest}\n")?;
        let is_one = counts_copies(alloc, rounds, &one, is_read, 9);
        let are_two = counts_copies(alloc, rounds, &two, is_read, 10);
        assert!(rt; is_one && are_two, "{rounds} rounds, {pages} pages");
    }
    Ok(())
}

/// Slot lines with several faults under 64 rounds, and the first.
const LIMIT_ROWS: &[(&str, Kind, u64)] = &[
    ("slot 0 0 16385\n", Kind::TooLarge(What::Pages), 9),
    (
        "slot 0 0 4033\nslot 0 0 1\n",
        Kind::TooLarge(What::Copies),
        9,
    ),
    (
        "slot 0 0 4033\nslot 1 5000 16384\n",
        Kind::TooLarge(What::Copies),
        9,
    ),
    (
        "slot 0 0 4032\nslot 1 5000 12353\n",
        Kind::TooLarge(What::Pages),
        10,
    ),
    (
        "slot 0 0 4032\nslot 1 5000 12352\n",
        Kind::TooLarge(What::Copies),
        10,
    ),
    ("slot 0 0 4032\nslot 0 5000 1\n", Kind::SlotTwice, 10),
];

#[test]
fn limits_pages_before_copies(rt: HostRuntime) -> Result<(), Fail> {
    for &(slots, kind, no) in LIMIT_ROWS {
        let text = with_slots(rt.alloc(), 64, slots)?;
        assert!(rt; is_refused(rt.alloc(), &text, kind.at(no)), "in {text}");
    }
    Ok(())
}

/// 32 slots of one page, and this line after them, which is the 41st.
fn after_slots(alloc: Global, line: &str) -> Result<String, AllocError> {
    let mut text = String::from_str(alloc, SETTINGS)?;
    for id in 0..32_u64 {
        text.push_str(&format!(in alloc; "slot {id} {id} 1\n")?)?;
    }
    text.push_str(line)?;
    text.push_str("\nvcpu\nhalt\n")?;
    Ok(text)
}

#[test]
fn refuses_a_slot_too_many(rt: HostRuntime) -> Result<(), Fail> {
    let rows = [
        ("slot 32 64 1", Kind::TooLarge(What::Slots)),
        ("slot 0 64 1", Kind::TooLarge(What::Slots)),
        ("slot 32 3 1", Kind::TooLarge(What::Slots)),
        ("slot 32 64 16384", Kind::TooLarge(What::Slots)),
        ("slot 32 64 4294967295", Kind::TooLarge(What::Slots)),
        ("slot 32 64 0", Kind::Number),
        ("slot 65536 64 1", Kind::Number),
        ("slot 32 4503599627370496 1", Kind::Number),
        ("slot 32 64", Kind::Line),
        ("slot x 64 1 1", Kind::Line),
    ];
    for (line, kind) in rows {
        let text = after_slots(rt.alloc(), line)?;
        assert!(rt; is_refused(rt.alloc(), &text, kind.at(41)), "in {text}");
    }
    Ok(())
}
