use dr_guestfile::read_guest;
use dr_slots::{Slots, page_of_address, page_of_frame};
use dr_testing::{Kind, is_refused, says, stays};
use dr_types::{Entry, FileFault};
use std::alloc::{AllocError, Global};
use std::test::Fail;

/// A file of this version, whose lines from 9 on are these.
fn of_version(alloc: Global, version: u32, lines: &str) -> Result<String, AllocError> {
    format!(in alloc;
        "dirtyguest {version}\nring 8\nreserve 2\nbuffer 0\npace 16\nthreshold 0\nrounds 2\nquota 0\n{lines}"
    )
}

/// The lines of canonical files of version 2.
const CANONICAL: &[&str] = &[
    "slot 0 0 1\nvcpu\nhalt\n",
    "slot 1:0 0 1\nvcpu\nhalt\n",
    "slot 0 0 1\nslot 1:0 0 1\nvcpu\nw 1:0 41\nw 0 42\nhalt\n",
    "slot 1:65535 7 2\nslot 65535 7 2\nvcpu\nr 1:28672\ns 28680\nf 1:8 a5\nf 7 5a\nhalt\n",
    "slot 1:3 4503599627370495 1\nvcpu\nrep 2\nw 1:18446744073709551615 01\nend\nf 1:4503599627370495 00\nhalt\n",
];

#[test]
fn canonical_files_stay(rt: HostRuntime) -> Result<(), Fail> {
    for &lines in CANONICAL {
        let text = of_version(rt.alloc(), 2, lines)?;
        assert!(rt; stays(rt.alloc(), &text), "in {lines}");
    }
    Ok(())
}

#[test]
fn a_number_after_a_prefix_is_written_anew(rt: HostRuntime) -> Result<(), Fail> {
    let text = of_version(rt.alloc(), 2, "slot 1:00 00 01\nvcpu\n w  1:007 41\nhalt\n")?;
    let canonical = of_version(rt.alloc(), 2, "slot 1:0 0 1\nvcpu\nw 1:7 41\nhalt\n")?;
    assert!(rt; says(rt.alloc(), &text, &canonical), "in {text}");
    Ok(())
}

/// The version, lines from 9 on, what is wrong with one of them, and its number.
const FAULT_ROWS: &[(u32, &str, Kind, u64)] = &[
    // Other prefixes, and none in version 1.
    (1, "slot 1:0 0 1\n", Kind::Number, 9),
    (1, "slot 0:0 0 1\n", Kind::Number, 9),
    (1, "slot 0 0 1\nvcpu\nw 1:0 41\n", Kind::Number, 11),
    (1, "slot 0 0 1\nvcpu\nf 1:0 41\n", Kind::Number, 11),
    (1, "slot 0 0 1\nvcpu\nr 1:0\n", Kind::Number, 11),
    (1, "slot 0 0 1\nvcpu\ns 1:0\n", Kind::Number, 11),
    (2, "slot 2:0 0 1\n", Kind::Number, 9),
    (2, "slot 0:0 0 1\n", Kind::Number, 9),
    (2, "slot 01:0 0 1\n", Kind::Number, 9),
    (2, "slot 1: 0 1\n", Kind::Number, 9),
    (2, "slot : 0 1\n", Kind::Number, 9),
    (2, "slot 1 :0 1\n", Kind::Number, 9),
    (2, "slot 1:1:0 0 1\n", Kind::Number, 9),
    (2, "slot 1:+0 0 1\n", Kind::Number, 9),
    (2, "slot 1:65536 0 1\n", Kind::Number, 9),
    (2, "slot 1:000000000000000000000 0 1\n", Kind::Number, 9),
    (
        2,
        "slot 1:0 0 1\nslot 0 0 1\nvcpu\nw 2:0 41\n",
        Kind::Number,
        12,
    ),
    (
        2,
        "slot 0 0 1\nvcpu\nw 1:18446744073709551616 41\n",
        Kind::Number,
        11,
    ),
    // A prefix stands nowhere else.
    (2, "slot 0 1:0 1\n", Kind::Number, 9),
    (2, "slot 0 0 1:1\n", Kind::Number, 9),
    (2, "slot 0 0 1\nvcpu\nw 0 1:41\n", Kind::Number, 11),
    (2, "slot 0 0 1\nvcpu\na 1:0\n", Kind::Number, 11),
    (2, "slot 0 0 1\nvcpu\nnap 1:0\n", Kind::Number, 11),
    (2, "slot 0 0 1\nvcpu\nrep 1:2\n", Kind::Number, 11),
    (2, "slot 0 0 1\nvcpu\n1:w 0 41\n", Kind::Line, 11),
    // A space and an id stand once.
    (
        2,
        "slot 1:0 0 1\nslot 0 0 1\nslot 1:0 1 1\n",
        Kind::SlotTwice,
        11,
    ),
    (
        2,
        "slot 1:0 0 1\nslot 0 0 1\nslot 0 1 1\n",
        Kind::SlotTwice,
        11,
    ),
    // The page lies in a slot of the other space alone.
    (2, "slot 0 0 1\nvcpu\nw 1:0 41\n", Kind::Unmapped, 11),
    (2, "slot 1:0 0 1\nvcpu\nw 0 41\n", Kind::Unmapped, 11),
    (2, "slot 1:0 0 1\nvcpu\nr 0\n", Kind::Unmapped, 11),
    (2, "slot 1:0 0 1\nvcpu\ns 0\n", Kind::Unmapped, 11),
    (2, "slot 1:0 0 1\nvcpu\nf 0 41\n", Kind::Unmapped, 11),
    (2, "slot 0 0 1\nvcpu\nf 1:0 41\n", Kind::Unmapped, 11),
    // The numbers are looked at before the page, and the page before its end.
    (2, "slot 1:0 0 1\nvcpu\nr 1:4089\n", Kind::CrossPage, 11),
    (2, "slot 0 0 1\nvcpu\nf 1:0 4\n", Kind::Number, 11),
];

#[test]
fn refuses_lines(rt: HostRuntime) -> Result<(), Fail> {
    for &(version, lines, kind, no) in FAULT_ROWS {
        let text = of_version(rt.alloc(), version, lines)?;
        assert!(rt; is_refused(rt.alloc(), &text, kind.at(no)), "in {lines}");
    }
    Ok(())
}

/// Slot lines of version 2, and the slot fields of the two that share a frame.
const OVERLAP_ROWS: &[(&str, u32, u32)] = &[
    ("slot 1:0 0 4\nslot 1:1 3 2\n", 65_536, 65_537),
    ("slot 0 0 4\nslot 1:0 0 4\nslot 1 3 2\n", 0, 1),
    ("slot 0 0 4\nslot 1:9 0 4\nslot 1:7 1 1\n", 65_545, 65_543),
    ("slot 1:65535 0 1\nslot 1:65534 0 1\n", 131_071, 131_070),
];

#[test]
fn an_overlap_names_slot_fields(rt: HostRuntime) -> Result<(), Fail> {
    for &(lines, a, b) in OVERLAP_ROWS {
        let text = of_version(rt.alloc(), 2, lines)?;
        let fault = FileFault::Overlap { a, b };
        assert!(rt; is_refused(rt.alloc(), &text, fault), "in {lines}");
    }
    Ok(())
}

#[test]
fn pages_are_found_in_their_space(rt: HostRuntime) -> Result<(), Fail> {
    let lines = "slot 3 10 4\nslot 1:3 10 1\nslot 1:1 0 2\nvcpu\nhalt\n";
    let text = of_version(rt.alloc(), 2, lines)?;
    let guest = read_guest(rt.alloc(), text.as_bytes())?;
    assert_eq!(rt; page_of_frame(&guest, 0, 11), Some(1));
    assert_eq!(rt; page_of_frame(&guest, 1, 11), None);
    assert_eq!(rt; page_of_frame(&guest, 1, 10), Some(4));
    assert_eq!(rt; page_of_address(&guest, 1, 4096), Some(6));
    assert_eq!(rt; page_of_address(&guest, 0, 4096), None);
    let slots = Slots::new(rt.alloc(), &guest.slots)?;
    assert_eq!(rt; slots.page_of(1, 40_960), Some(4));
    assert_eq!(rt; slots.page_at(65_539, 0), Some(4));
    assert_eq!(rt; slots.page_at(3, 0), Some(0));
    assert_eq!(rt; slots.page_at(1, 0), None);
    if let Some(page) = slots.page_of(1, 4096) {
        let entry = Entry {
            slot: 65_537,
            offset: 1,
        };
        assert_eq!(rt; slots.place(page), entry);
    }
    Ok(())
}
