//! The lines up to the slots.

use dr_testing::{Kind, is_refused, stays};
use dr_types::FileFault;
use std::alloc::{AllocError, Global};
use std::test::Fail;

/// The lines of the smallest guest, and their numbers.
const LINES: &[(u64, &str)] = &[
    (1, "dirtyguest 1"),
    (2, "ring 8"),
    (3, "reserve 2"),
    (4, "buffer 0"),
    (5, "pace 16"),
    (6, "threshold 0"),
    (7, "rounds 2"),
    (8, "quota 0"),
    (9, "slot 0 0 1"),
    (10, "vcpu"),
    (11, "halt"),
];

/// The smallest guest with this in the place of the line of this number.
fn with_line(alloc: Global, no: u64, line: &str) -> Result<String, AllocError> {
    let mut text = String::new(alloc);
    for &(at, own) in LINES {
        text.push_str(if at == no { line } else { own })?;
        text.push_str("\n")?;
    }
    Ok(text)
}

/// The smallest guest without its line of this number.
fn without_line(alloc: Global, no: u64) -> Result<String, AllocError> {
    let mut text = String::new(alloc);
    for &(at, own) in LINES {
        if at != no {
            text.push_str(own)?;
            text.push_str("\n")?;
        }
    }
    Ok(text)
}

/// The smallest guest with its line of this number twice.
fn with_twice(alloc: Global, no: u64) -> Result<String, AllocError> {
    let mut text = String::new(alloc);
    for &(at, own) in LINES {
        text.push_str(own)?;
        text.push_str("\n")?;
        if at == no {
            text.push_str(own)?;
            text.push_str("\n")?;
        }
    }
    Ok(text)
}

/// The first lines of the smallest guest, with this after them.
fn first_lines(alloc: Global, lines: u64, after: &str) -> Result<String, AllocError> {
    let mut text = String::new(alloc);
    for &(at, own) in LINES {
        if at <= lines {
            text.push_str(own)?;
            text.push_str("\n")?;
        }
    }
    text.push_str(after)?;
    Ok(text)
}

/// First lines that are refused, and the number of the line that is.
const MAGIC_ROWS: &[(&str, u64)] = &[
    ("\n", 1),
    ("\n\n\n", 1),
    ("# a\n# b\n", 1),
    ("\r", 1),
    ("#dirtyguest 1\n", 1),
    ("dirtyguest\n", 1),
    ("dirtyguest 1 1\n", 1),
    ("dirtyguest 1 # one\n", 1),
    ("dirtyguest 01\n", 1),
    ("dirtyguest +1\n", 1),
    ("dirtyguest 1.0\n", 1),
    ("dirtyguest 0\n", 1),
    ("dirtyguest 3\n", 1),
    ("dirtyguest 2 1\n", 1),
    ("dirtyguest 02\n", 1),
    ("dirtyguest 1:2\n", 1),
    ("dirtyguest one\n", 1),
    ("dirtyguest1\n", 1),
    ("dirtyguest\u{a0}1\n", 1),
    ("Dirtyguest 1\n", 1),
    ("DIRTYGUEST 1\n", 1),
    ("dirtyguests 1\n", 1),
    ("1 dirtyguest\n", 1),
    ("\u{feff}dirtyguest 1\n", 1),
    ("ring 8\n", 1),
    ("# a\n\n \t\nring 8\ndirtyguest 1\n", 4),
    ("\r\n\t# a\r\nx", 3),
];

#[test]
fn refuses_other_magic(rt: HostRuntime) -> Result<(), Fail> {
    for &(text, no) in MAGIC_ROWS {
        assert!(rt;
            is_refused(rt.alloc(), text, FileFault::Magic { no }),
            "in {text}"
        );
    }
    Ok(())
}

/// A line of this number that may not stand there, or has too few or too many words.
const LINE_ROWS: &[(u64, &str)] = &[
    (2, "ring"),
    (2, "ring 8 8"),
    (2, "ring 8 #"),
    (2, "rings 8"),
    (2, "Ring 8"),
    (2, "RING 8"),
    (2, "rin 8"),
    (2, "8 ring"),
    (2, "ring=8"),
    (2, "reserve 2"),
    (2, "dirtyguest 1"),
    (2, "slot 0 0 1"),
    (2, "vcpu"),
    (2, "halt"),
    (2, "8"),
    (3, "reserve"),
    (3, "reserve 2 2"),
    (3, "reserved 2"),
    (3, "buffer 0"),
    (3, "ring 8"),
    (4, "buffer"),
    (4, "buffer 0 0"),
    (4, "buffers 0"),
    (4, "pace 16"),
    (4, "reserve 2"),
    (5, "pace"),
    (5, "pace 16 16"),
    (5, "paces 16"),
    (5, "threshold 0"),
    (5, "buffer 0"),
    (6, "threshold"),
    (6, "threshold 0 0"),
    (6, "thresholds 0"),
    (6, "rounds 2"),
    (6, "pace 16"),
    (7, "rounds"),
    (7, "rounds 2 2"),
    (7, "round 2"),
    (7, "quota 0"),
    (7, "threshold 0"),
    (8, "quota"),
    (8, "quota 0 0"),
    (8, "quotas 0"),
    (8, "rounds 2"),
];

#[test]
fn refuses_setting_lines(rt: HostRuntime) -> Result<(), Fail> {
    for &(no, line) in LINE_ROWS {
        let text = with_line(rt.alloc(), no, line)?;
        assert!(rt;
            is_refused(rt.alloc(), &text, FileFault::Line { no }),
            "in {text}"
        );
    }
    Ok(())
}

#[test]
fn misses_lines(rt: HostRuntime) -> Result<(), Fail> {
    // The line after the one that is missing may not stand there.
    for no in 2..12 {
        let text = without_line(rt.alloc(), no)?;
        assert!(rt;
            is_refused(rt.alloc(), &text, FileFault::Line { no }),
            "in {text}"
        );
    }
    Ok(())
}

#[test]
fn doubles_lines(rt: HostRuntime) -> Result<(), Fail> {
    // The second of the two may not stand there.
    for no in 1..12 {
        let text = with_twice(rt.alloc(), no)?;
        let fault = if no == 9 {
            FileFault::SlotTwice { no: 10 }
        } else {
            FileFault::Line { no: no + 1 }
        };
        assert!(rt; is_refused(rt.alloc(), &text, fault), "in {text}");
    }
    Ok(())
}

/// The smallest guest cut after so many lines, with this after them, is refused at this line.
fn is_cut(alloc: Global, lines: u64, after: &str, no: u64) -> bool {
    match first_lines(alloc, lines, after) {
        Ok(text) => is_refused(alloc, &text, FileFault::Line { no }),
        Err(_) => false,
    }
}

#[test]
fn cuts_lines(rt: HostRuntime) -> Result<(), Fail> {
    // The fault has the number of lines plus 1.
    for lines in 1..11 {
        let at_once = is_cut(rt.alloc(), lines, "", lines + 1);
        let comment = is_cut(rt.alloc(), lines, " # after", lines + 2);
        let empty = is_cut(rt.alloc(), lines, "\r\n\n \t\n", lines + 4);
        assert!(rt; at_once && comment && empty, "after {lines} lines");
    }
    Ok(())
}

/// Words that are no decimal number.
const NO_NUMBERS: &[&str] = &[
    "x",
    "-1",
    "+1",
    "1.0",
    "1,000",
    "1_0",
    "1e3",
    "0x1",
    "1h",
    "a1",
    "#1",
    "1#",
    "\u{661}",
    "\u{ff11}",
    "18446744073709551616",
    "99999999999999999999",
    "000000000000000000001",
    "100000000000000000000",
];

/// None of the words is taken for the number of this setting on this line.
fn takes_no_word(alloc: Global, no: u64, name: &str) -> Result<bool, AllocError> {
    for &word in NO_NUMBERS {
        let line = format!(in alloc; "{name} {word}")?;
        let text = with_line(alloc, no, &line)?;
        if !is_refused(alloc, &text, FileFault::Number { no }) {
            return Ok(false);
        }
    }
    Ok(true)
}

#[test]
fn refuses_words_as_numbers(rt: HostRuntime) -> Result<(), Fail> {
    let rows = [
        (2, "ring"),
        (3, "reserve"),
        (4, "buffer"),
        (5, "pace"),
        (6, "threshold"),
        (7, "rounds"),
        (8, "quota"),
    ];
    for (no, name) in rows {
        assert!(rt; takes_no_word(rt.alloc(), no, name)?, "at {name}");
    }
    Ok(())
}

/// A setting of this line that is out of its range. Some are in it modulo 2^32.
const RANGE_ROWS: &[(u64, &str)] = &[
    (3, "reserve 0"),
    (3, "reserve 65536"),
    (3, "reserve 4294967298"),
    (3, "reserve 18446744073709551615"),
    (4, "buffer 513"),
    (4, "buffer 4294967296"),
    (4, "buffer 18446744073709551615"),
    (5, "pace 0"),
    (5, "pace 200001"),
    (5, "pace 4294967312"),
    (5, "pace 18446744073709551615"),
    (6, "threshold 16385"),
    (6, "threshold 4294967296"),
    (6, "threshold 18446744073709551615"),
    (7, "rounds 0"),
    (7, "rounds 65"),
    (7, "rounds 4294967298"),
    (7, "rounds 18446744073709551615"),
    (8, "quota 1000000001"),
    (8, "quota 4294967296"),
    (8, "quota 18446744073709551615"),
    (8, "quota 9999999999"),
];

#[test]
fn refuses_settings_out_of_range(rt: HostRuntime) -> Result<(), Fail> {
    for &(no, line) in RANGE_ROWS {
        let text = with_line(rt.alloc(), no, line)?;
        assert!(rt;
            is_refused(rt.alloc(), &text, FileFault::Number { no }),
            "in {text}"
        );
    }
    Ok(())
}

/// Sizes of no ring. Some are one modulo 2^32.
const NO_SIZES: &[&str] = &[
    "0",
    "1",
    "2",
    "3",
    "5",
    "6",
    "7",
    "12",
    "24",
    "65535",
    "65537",
    "131072",
    "4294967296",
    "4294967300",
    "4294967304",
    "9223372036854775808",
    "18446744073709551615",
    "18446744073709551608",
];

#[test]
fn refuses_ring_sizes(rt: HostRuntime) -> Result<(), Fail> {
    for &size in NO_SIZES {
        let line = format!(in rt.alloc(); "ring {size}")?;
        let text = with_line(rt.alloc(), 2, &line)?;
        assert!(rt;
            is_refused(rt.alloc(), &text, FileFault::RingSize { no: 2 }),
            "in {text}"
        );
    }
    Ok(())
}

/// Settings that are read.
const READ_ROWS: &[(u64, &str)] = &[
    (2, "ring 4"),
    (2, "ring 16"),
    (2, "ring 32"),
    (2, "ring 64"),
    (2, "ring 128"),
    (2, "ring 256"),
    (2, "ring 512"),
    (2, "ring 1024"),
    (2, "ring 2048"),
    (2, "ring 4096"),
    (2, "ring 8192"),
    (2, "ring 16384"),
    (2, "ring 32768"),
    (2, "ring 65536"),
    (3, "reserve 1"),
    (5, "pace 1"),
    (5, "pace 200000"),
    (6, "threshold 1"),
    (6, "threshold 16384"),
    (7, "rounds 1"),
    (7, "rounds 64"),
    (8, "quota 0"),
    (8, "quota 1"),
    (8, "quota 999999999"),
    (8, "quota 1000000000"),
];

#[test]
fn reads_settings(rt: HostRuntime) -> Result<(), Fail> {
    for &(no, line) in READ_ROWS {
        let text = with_line(rt.alloc(), no, line)?;
        assert!(rt; stays(rt.alloc(), &text), "in {text}");
    }
    Ok(())
}

/// A guest with these three settings.
fn with_ring(alloc: Global, ring: u32, reserve: u32, buffer: u32) -> Result<String, AllocError> {
    let head = "dirtyguest 1";
    let tail = "pace 16\nthreshold 0\nrounds 2\nquota 0\nslot 0 0 1\nvcpu\nhalt\n";
    format!(in alloc; "{head}\nring {ring}\nreserve {reserve}\nbuffer {buffer}\n{tail}")
}

#[test]
fn leaves_room_in_the_ring(rt: HostRuntime) -> Result<(), Fail> {
    // Ring, reserve and buffer, and whether room is left.
    let rows = [
        (4, 1, 2, true),
        (4, 3, 0, true),
        (4, 2, 2, false),
        (4, 4, 0, false),
        (8, 5, 2, true),
        (8, 7, 0, true),
        (8, 6, 2, false),
        (8, 8, 0, false),
        (8, 65535, 512, false),
        (512, 1, 510, true),
        (512, 1, 511, false),
        (512, 1, 512, false),
        (1024, 511, 512, true),
        (1024, 512, 512, false),
        (65536, 65023, 512, true),
        (65536, 65024, 512, false),
        (65536, 65535, 0, true),
        (65536, 65535, 1, false),
    ];
    for (ring, reserve, buffer, is_read) in rows {
        let text = with_ring(rt.alloc(), ring, reserve, buffer)?;
        if is_read {
            assert!(rt; stays(rt.alloc(), &text), "in {text}");
        } else {
            assert!(rt;
                is_refused(rt.alloc(), &text, FileFault::Reserve { no: 4 }),
                "in {text}"
            );
        }
    }
    Ok(())
}

/// Settings with two faults, and the first.
const FIRST_ROWS: &[(&str, Kind, u64)] = &[
    // On one line.
    ("ring x 8\n", Kind::Line, 2),
    ("rings x\n", Kind::Line, 2),
    ("rings 6\n", Kind::Line, 2),
    ("ring 6 6\n", Kind::Line, 2),
    ("ring 8\nreserved 0\n", Kind::Line, 3),
    ("ring 8\nreserve 0 0\n", Kind::Line, 3),
    ("ring 8\nreserve 9\nbuffer 0 0\n", Kind::Line, 4),
    ("ring 8\nreserve 9\npace 0\n", Kind::Line, 4),
    ("ring 8\nreserve 9\nbuffer 513\n", Kind::Number, 4),
    ("ring 8\nreserve 9\nbuffer x\n", Kind::Number, 4),
    // On several lines.
    ("ring 6\nreserve 0\n", Kind::RingSize, 2),
    ("ring 6\n", Kind::RingSize, 2),
    ("ring 6\nx\n", Kind::RingSize, 2),
    ("ring x\nreserve\n", Kind::Number, 2),
    ("# a\nring 6\n", Kind::RingSize, 3),
    ("ring 8\nreserve 0\nbuffer\n", Kind::Number, 3),
    ("ring 8\nreserve 8\n", Kind::Line, 4),
    ("ring 8\nreserve 8\nbuffer 0\npace x\n", Kind::Reserve, 4),
    ("ring 8\n\nreserve 8\n# a\nbuffer 0\n", Kind::Reserve, 6),
    (
        "ring 8\nreserve 2\nbuffer 0\npace 0\nthreshold\n",
        Kind::Number,
        5,
    ),
];

#[test]
fn answers_the_first_fault_of_settings(rt: HostRuntime) -> Result<(), Fail> {
    for &(lines, kind, no) in FIRST_ROWS {
        let text = format!(in rt.alloc(); "dirtyguest 1\n{lines}")?;
        assert!(rt; is_refused(rt.alloc(), &text, kind.at(no)), "in {text}");
    }
    Ok(())
}
