//! Line ends, blanks, skipped lines, and how numbers and bytes may be written.

use dr_guestfile::read_guest;
use dr_testing::{Kind, is_refused, says, with_sections};
use std::alloc::{AllocError, Global};
use std::test::Fail;

/// The smallest guest in its canonical text.
const SMALLEST: &str =
    "dirtyguest 1\nring 8\nreserve 2\nbuffer 0\npace 16\nthreshold 0\nrounds 2\nquota 0\nslot 0 0 1\nvcpu\nhalt\n";

/// Texts that say the smallest guest.
const SAME_ROWS: &[&str] = &[
    // Line ends.
    "dirtyguest 1\r\nring 8\r\nreserve 2\r\nbuffer 0\r\npace 16\r\nthreshold 0\r\nrounds 2\r\nquota 0\r\nslot 0 0 1\r\nvcpu\r\nhalt\r\n",
    "dirtyguest 1\r\nring 8\nreserve 2\r\nbuffer 0\npace 16\nthreshold 0\nrounds 2\nquota 0\nslot 0 0 1\nvcpu\r\nhalt\n",
    "dirtyguest 1\nring 8\nreserve 2\nbuffer 0\npace 16\nthreshold 0\nrounds 2\nquota 0\nslot 0 0 1\nvcpu\nhalt",
    "dirtyguest 1\nring 8\nreserve 2\nbuffer 0\npace 16\nthreshold 0\nrounds 2\nquota 0\nslot 0 0 1\nvcpu\nhalt\r",
    "dirtyguest 1\nring 8\nreserve 2\nbuffer 0\npace 16\nthreshold 0\nrounds 2\nquota 0\nslot 0 0 1\nvcpu\nhalt \r",
    "dirtyguest 1\nring 8\nreserve 2\nbuffer 0\npace 16\nthreshold 0\nrounds 2\nquota 0\nslot 0 0 1\nvcpu\nhalt\n\r",
    "dirtyguest 1\nring 8\nreserve 2\nbuffer 0\npace 16\nthreshold 0\nrounds 2\nquota 0\nslot 0 0 1\nvcpu\nhalt\n \t",
    // Blanks.
    "  dirtyguest 1\n\tring 8\n\t reserve 2\n \tbuffer 0\n    pace 16\n\t\tthreshold 0\n rounds 2\n quota 0\n slot 0 0 1\n vcpu\n halt\n",
    "dirtyguest 1 \nring 8\t\nreserve 2 \t\nbuffer 0\t \npace 16  \nthreshold 0\t\t\nrounds 2 \nquota 0 \nslot 0 0 1 \nvcpu \nhalt \n",
    "dirtyguest\t1\nring  8\nreserve \t2\nbuffer\t 0\npace\t\t16\nthreshold   0\nrounds 2\nquota\t0\nslot\t0  0\t \t1\nvcpu\nhalt\n",
    " dirtyguest  1 \r\n\tring\t8\t\r\nreserve 2 \r\nbuffer 0\t\r\npace 16\nthreshold 0\nrounds 2\nquota 0\nslot 0 0 1\n\tvcpu\t\r\n\thalt\t\r\n",
    // Skipped lines.
    "\n\n# a\ndirtyguest 1\nring 8\nreserve 2\nbuffer 0\npace 16\nthreshold 0\nrounds 2\nquota 0\nslot 0 0 1\nvcpu\nhalt\n",
    "dirtyguest 1\n\nring 8\n#\nreserve 2\n \nbuffer 0\n\t\npace 16\n\r\nthreshold 0\n # a\nrounds 2\n\t#b\nquota 0\n# c\r\nslot 0 0 1\n\n\nvcpu\n#\n#\nhalt\n",
    "dirtyguest 1\nring 8\nreserve 2\nbuffer 0\npace 16\nthreshold 0\nrounds 2\nquota 0\nslot 0 0 1\nvcpu\nhalt\n\n# a\n\t\n#",
    "#dirtyguest 2\ndirtyguest 1\n#ring 6\nring 8\nreserve 2\n###\nbuffer 0\npace 16\nthreshold 0\nrounds 2\nquota 0\n#slot 0 0 9\nslot 0 0 1\nvcpu\n#rep 2\nhalt\n#halt\n",
    // Leading zeros: a number has up to 20 digits.
    "dirtyguest 1\nring 08\nreserve 002\nbuffer 000\npace 0000016\nthreshold 00\nrounds 02\nquota 00\nslot 00 000 01\nvcpu\nhalt\n",
    "dirtyguest 1\nring 00000000000000000008\nreserve 00000000000000000002\nbuffer 00000000000000000000\npace 00000000000000000016\nthreshold 0\nrounds 00000000000000000002\nquota 00000000000000000000\nslot 00000000000000000000 00000000000000000000 00000000000000000001\nvcpu\nhalt\n",
];

#[test]
fn reads_the_same_guest(rt: HostRuntime) -> Result<(), Fail> {
    for &text in SAME_ROWS {
        assert!(rt; says(rt.alloc(), text, SMALLEST), "in {text}");
    }
    Ok(())
}

/// Texts that are not read as they may seem, what is wrong with a line, and its number.
const FAULT_ROWS: &[(&str, Kind, u64)] = &[
    // One carriage return is dropped, and only at a line's end.
    ("dirtyguest 1\r\r\n", Kind::Magic, 1),
    ("dirtyguest 1\r \n", Kind::Magic, 1),
    ("dirtyguest\r 1\n", Kind::Magic, 1),
    ("\rdirtyguest 1\n", Kind::Magic, 1),
    ("\r\r\ndirtyguest 1\n", Kind::Magic, 1),
    ("dirtyguest 1\rring 8\r", Kind::Magic, 1),
    ("dirtyguest 1\nring 8\r\r\n", Kind::Number, 2),
    ("dirtyguest 1\nring 8\r\r", Kind::Number, 2),
    ("dirtyguest 1\nring\r8\n", Kind::Line, 2),
    ("dirtyguest 1\nring \r8\n", Kind::Number, 2),
    ("dirtyguest 1\nring 8 \r\r\n", Kind::Line, 2),
    ("dirtyguest 1\n\r\r\nring 8\n", Kind::Line, 2),
    // Other bytes are no blanks.
    ("dirtyguest\u{b}1\n", Kind::Magic, 1),
    ("dirtyguest 1\nring\u{c}8\n", Kind::Line, 2),
    ("dirtyguest 1\nring 8\u{c}\n", Kind::Number, 2),
    ("dirtyguest 1\nring 8\0\n", Kind::Number, 2),
    ("dirtyguest 1\n\u{2003}\nring 8\n", Kind::Line, 2),
    // A comment is a whole line.
    ("dirtyguest 1\nring 8 #\n", Kind::Line, 2),
    ("dirtyguest 1\nring 8#\n", Kind::Number, 2),
    ("dirtyguest 1\n#ring 8\nreserve 2\n", Kind::Line, 3),
];

#[test]
fn refuses_what_looks_alike(rt: HostRuntime) -> Result<(), Fail> {
    for &(text, kind, no) in FAULT_ROWS {
        assert!(rt; is_refused(rt.alloc(), text, kind.at(no)), "in {text}");
    }
    Ok(())
}

#[test]
fn reads_bytes(rt: HostRuntime) -> Result<(), Fail> {
    // A comment may hold any bytes; another line with bytes that are no UTF-8 is refused.
    let rows: [(&[u8], Kind, u64); 5] = [
        (b"\xff\n", Kind::Magic, 1),
        (b"dirtyguest 1\xff\n", Kind::Magic, 1),
        (b"dirtyguest 1\nring \xff\n", Kind::Number, 2),
        (b"dirtyguest 1\n\xa0ring 8\n", Kind::Line, 2),
        (b"dirtyguest 1\n# \xff\xfe\x00\nring 6\n", Kind::RingSize, 3),
    ];
    for (text, kind, no) in rows {
        let answer = read_guest(rt.alloc(), text).err();
        assert_eq!(rt; answer, Some(kind.at(no)), "at {no}");
    }
    Ok(())
}

/// Ops as they are written, and as they stand in the canonical text.
const OP_ROWS: &[(&str, &str)] = &[
    ("w 0 AB", "w 0 ab"),
    ("w 0 aB", "w 0 ab"),
    ("w 0 0123456789ABCDEF", "w 0 0123456789abcdef"),
    ("w 0 aAbBcCdDeEfF0099", "w 0 aabbccddeeff0099"),
    ("w 00 00", "w 0 00"),
    ("w 0000000000000004095 FF", "w 4095 ff"),
    ("w 00000000000000000001 01", "w 1 01"),
    ("f 0 A0", "f 0 a0"),
    ("f 0 0F", "f 0 0f"),
    ("f 00000000000000000000 fF", "f 0 ff"),
    ("r 007", "r 7"),
    ("r 00000000000000004088", "r 4088"),
    ("a 00", "a 0"),
    ("a 00000000000000000010", "a 10"),
    ("a 18446744073709551615", "a 18446744073709551615"),
    ("s 08", "s 8"),
    ("s 00000000000000000009", "s 9"),
    ("nap 010000", "nap 10000"),
    ("nap 00000000000000000000", "nap 0"),
    ("rep 002\n a\t1 \n\nend", "rep 2\na 1\nend"),
    (
        "rep 00000000000000000001\n# a\na 1\n\tend\r",
        "rep 1\na 1\nend",
    ),
    ("\tw  0\t01  ", "w 0 01"),
    ("# a\nr 0\r\n\r\na 1", "r 0\na 1"),
];

/// The smallest guest with these ops before its `halt`.
fn with_ops(alloc: Global, ops: &str) -> Result<String, AllocError> {
    let sections = format!(in alloc; "vcpu\n{ops}\nhalt\n")?;
    with_sections(alloc, &sections)
}

#[test]
fn writes_ops_anew(rt: HostRuntime) -> Result<(), Fail> {
    for &(written, canonical) in OP_ROWS {
        let text = with_ops(rt.alloc(), written)?;
        let wanted = with_ops(rt.alloc(), canonical)?;
        assert!(rt; says(rt.alloc(), &text, &wanted), "in {text}");
    }
    Ok(())
}
