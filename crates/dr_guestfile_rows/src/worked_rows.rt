//! Small files of all kinds: what is wrong with them, and what is read from them.

use dr_guestfile::read_guest;
use dr_slots::{Slots, page_count, page_of_address, page_of_frame};
use dr_testing::{Kind, SETTINGS, is_refused, says, stays, with_sections};
use dr_types::{Entry, FileFault, What};
use std::alloc::{AllocError, Global};
use std::test::Fail;

/// Ops of a guest of one page, from line 11 on, what is wrong with one of their lines, and its
/// number.
const OP_ROWS: &[(&str, Kind, u64)] = &[
    ("w 4095 0102\n", Kind::CrossPage, 11),
    ("w 4096 01\n", Kind::Unmapped, 11),
    ("r 4089\n", Kind::CrossPage, 11),
    ("w 0 012\n", Kind::Number, 11),
    ("jump\n", Kind::Line, 11),
    ("f 1 00\n", Kind::Unmapped, 11),
    ("nap 10001\n", Kind::Number, 11),
    ("rep 2\nend\n", Kind::Line, 12),
    ("rep 2\nhalt\n", Kind::Line, 12),
    ("rep 200000\na 0\nend\n", Kind::TooLarge(What::Ops), 14),
];

#[test]
fn refuses_ops_of_one_page(rt: HostRuntime) -> Result<(), Fail> {
    for &(ops, kind, no) in OP_ROWS {
        let sections = format!(in rt.alloc(); "vcpu\n{ops}halt\n")?;
        let text = with_sections(rt.alloc(), &sections)?;
        assert!(rt; is_refused(rt.alloc(), &text, kind.at(no)), "at {ops}");
    }
    Ok(())
}

/// The settings ring, reserve, buffer and rounds, the slot lines, and what is wrong with them.
type SettingRow = (&'static str, &'static str, FileFault);

const SETTING_ROWS: &[SettingRow] = &[
    (
        "ring 6\nreserve 2\nbuffer 0",
        "slot 0 0 1\n",
        FileFault::RingSize { no: 2 },
    ),
    (
        "ring 8\nreserve 7\nbuffer 1",
        "slot 0 0 1\n",
        FileFault::Reserve { no: 4 },
    ),
    (
        "ring 8\nreserve 0\nbuffer 0",
        "slot 0 0 1\n",
        FileFault::Number { no: 3 },
    ),
    (
        "ring 8\nreserve 2\nbuffer 0",
        "slot 0 0 4\nslot 1 3 2\n",
        FileFault::Overlap { a: 0, b: 1 },
    ),
    (
        "ring 8\nreserve 2\nbuffer 0",
        "slot 0 0 1\nslot 0 1 1\n",
        FileFault::SlotTwice { no: 10 },
    ),
    ("ring 8\nreserve 2\nbuffer 0", "", FileFault::Line { no: 9 }),
];

#[test]
fn refuses_settings_and_slots(rt: HostRuntime) -> Result<(), Fail> {
    for &(ring, slots, fault) in SETTING_ROWS {
        let head = format!(in rt.alloc(); "dirtyguest 1\n{ring}\npace 16\nthreshold 0\n")?;
        let text = format!(in rt.alloc(); "{head}rounds 2\nquota 0\n{slots}vcpu\nhalt\n")?;
        assert!(rt; is_refused(rt.alloc(), &text, fault), "in {text}");
    }
    Ok(())
}

/// A number of rounds and a slot with too many pages for it.
const PAGE_ROWS: &[(&str, &str, What)] = &[
    ("2", "slot 0 0 16385", What::Pages),
    ("64", "slot 0 0 4096", What::Copies),
];

#[test]
fn refuses_too_many_pages(rt: HostRuntime) -> Result<(), Fail> {
    for &(rounds, slot, what) in PAGE_ROWS {
        let head = "dirtyguest 1\nring 8\nreserve 2\nbuffer 0\npace 16\nthreshold 0\n";
        let text = format!(in rt.alloc(); "{head}rounds {rounds}\nquota 0\n{slot}\nvcpu\nhalt\n")?;
        let fault = FileFault::TooLarge { what, no: 9 };
        assert!(rt; is_refused(rt.alloc(), &text, fault), "in {text}");
    }
    Ok(())
}

/// Files that end or go wrong in their first lines.
const FIRST_ROWS: &[(&str, FileFault)] = &[
    ("", FileFault::Magic { no: 1 }),
    (" \t\n# nothing\n", FileFault::Magic { no: 1 }),
    ("\n\ndirtyguest 3\n", FileFault::Magic { no: 3 }),
    ("dirtyguest 1", FileFault::Line { no: 2 }),
    (
        "dirtyguest 1\r\n# A\nring +8\n",
        FileFault::Number { no: 3 },
    ),
    (
        "dirtyguest 1\nring 8\nbuffer 0\n",
        FileFault::Line { no: 3 },
    ),
];

#[test]
fn refuses_first_lines(rt: HostRuntime) -> Result<(), Fail> {
    for &(text, fault) in FIRST_ROWS {
        assert!(rt; is_refused(rt.alloc(), text, fault), "at {text}");
    }
    Ok(())
}

/// A file of as many slots of one page, and of as many vCPUs, as there may be.
fn most_of_all(alloc: Global) -> Result<String, AllocError> {
    let mut text = String::from_str(alloc, SETTINGS)?;
    for id in 0..32_u64 {
        text.push_str(&format!(in alloc; "slot {id} {id} 1\n")?)?;
    }
    for _ in 0..32_u64 {
        text.push_str("vcpu\nhalt\n")?;
    }
    Ok(text)
}

#[test]
fn reads_most_slots_and_vcpus(rt: HostRuntime) -> Result<(), Fail> {
    let text = most_of_all(rt.alloc())?;
    assert!(rt; stays(rt.alloc(), &text), "in {text}");
    Ok(())
}

/// The same ops in their canonical lines, and in others.
const OPS: &str =
    "vcpu\nw 4095 01\nw 7 00ff\nf 0 a5\nr 4088\na 9\nrep 3\ns 8\nnap 10000\nend\nhalt\n";

const OTHER_OPS: &str = "vcpu\n# a store\n  w\t4095 01 \r\n\nw 07 00fF\nf 0 A5\nr 4088\na 009
rep 3\ns 8\nnap 10000\nend\nhalt\n";

#[test]
fn writes_what_it_read(rt: HostRuntime) -> Result<(), Fail> {
    let text = with_sections(rt.alloc(), OPS)?;
    let other = with_sections(rt.alloc(), OTHER_OPS)?;
    assert!(rt; stays(rt.alloc(), &text), "in {text}");
    assert!(rt; says(rt.alloc(), &other, &text), "in {other}");
    Ok(())
}

#[test]
fn finds_pages_and_places(rt: HostRuntime) -> Result<(), Fail> {
    let text = format!(in rt.alloc(); "{SETTINGS}slot 3 10 4\nslot 1 0 2\nvcpu\nhalt\n")?;
    let guest = read_guest(rt.alloc(), text.as_bytes())?;
    assert_eq!(rt; page_count(&guest), 6);
    assert_eq!(rt; page_of_frame(&guest, 0, 11), Some(1));
    assert_eq!(rt; page_of_address(&guest, 0, 4096), Some(5));
    let slots = Slots::new(rt.alloc(), &guest.slots)?;
    assert_eq!(rt; slots.page_of(0, 8191), Some(5));
    assert_eq!(rt; slots.page_of(0, 8192), None);
    assert_eq!(rt; slots.page_of_frame(0, 13), Some(3));
    assert_eq!(rt; slots.page_at(1, 1), Some(5));
    assert_eq!(rt; slots.page_at(3, 4), None);
    if let Some(page) = slots.page_of(0, 4096) {
        assert_eq!(rt; slots.place(page), Entry { slot: 1, offset: 1 });
    }
    Ok(())
}
