//! The lines of the ops.

use dr_guestfile::read_guest;
use dr_testing::{Kind, SETTINGS, is_refused, stays};
use dr_types::{FileFault, Item, Op};
use std::alloc::{AllocError, Global};
use std::test::Fail;

/// The frames 1 and 2, 3, the one at 4 GiB, and the last of all.
const SLOTS: &str = "slot 0 1 2\nslot 5 3 1\nslot 3 1048576 1\nslot 9 4503599627370495 1\n";

/// What stands before an op and after it, and the number of its line.
const PLACES: &[(&str, &str, u64)] = &[
    ("vcpu\n", "halt\n", 14),
    ("vcpu\na 1\n# a\n\n", "w 0 01\nhalt\n", 17),
    ("vcpu\nrep 2\n", "end\nhalt\n", 15),
    ("vcpu\nrep 2\na 1\n", "x\nend\nhalt\n", 16),
    ("vcpu\nhalt\nvcpu\nrep 2\na 1\nend\n", "halt\n", 19),
];

/// A guest with these lines and one more between them is refused with this fault.
fn is_refused_between(
    alloc: Global,
    before: &str,
    op: &str,
    after: &str,
    fault: FileFault,
) -> bool {
    match format!(in alloc; "{SETTINGS}{SLOTS}{before}{op}\n{after}") {
        Ok(text) => is_refused(alloc, &text, fault),
        Err(_) => false,
    }
}

/// The op is refused at each place.
fn is_refused_op(alloc: Global, op: &str, kind: Kind) -> bool {
    for &(before, after, no) in PLACES {
        if !is_refused_between(alloc, before, op, after, kind.at(no)) {
            return false;
        }
    }
    true
}

/// Lines that are no op, or have too few or too many words.
const LINE_ROWS: &[&str] = &[
    "w",
    "w 4096",
    "w 4096 01 02",
    "w 4096 01 # a",
    "W 4096 01",
    "w4096 01",
    "write 4096 01",
    "f",
    "f 1",
    "f 1 00 00",
    "F 1 00",
    "fill 1 00",
    "r",
    "r 4096 8",
    "r 4096 # a",
    "R 4096",
    "read 4096",
    "a",
    "a 1 1",
    "A 1",
    "add 1",
    "s",
    "s 4096 8",
    "S 4096",
    "store 4096",
    "nap",
    "nap 1 1",
    "naps 1",
    "Nap 1",
    "halt 0",
    "halts",
    "end end",
    "rep",
    "vcpu",
    "vcpu 1",
    "slot 1 1 1",
    "slot",
    "ring 8",
    "quota 0",
    "dirtyguest 1",
    "journal",
    "jump",
    "1",
    "-",
    "\u{e4} 1",
    "\u{feff}a 1",
    "a\u{a0}1",
];

#[test]
fn refuses_op_lines(rt: HostRuntime) -> Result<(), Fail> {
    for &op in LINE_ROWS {
        assert!(rt; is_refused_op(rt.alloc(), op, Kind::Line), "at {op}");
    }
    Ok(())
}

/// Ops with a word that is no number of its place.
const NUMBER_ROWS: &[&str] = &[
    "w x 01",
    "w -1 01",
    "w 0x1000 01",
    "w 4096. 01",
    "w 18446744073709551616 01",
    "w 000000000000000004096 01",
    "w 4096 0",
    "w 4096 012",
    "w 4096 01020304050607080",
    "w 4096 010203040506070809",
    "w 4096 0102030405060708090a0b0c0d0e0f10",
    "w 4096 0g",
    "w 4096 g0",
    "w 4096 0x01",
    "w 4096 +1",
    "w 4096 -1",
    "w 4096 01-2",
    "w 4096 \u{e4}",
    "w 4096 #1",
    "f x 00",
    "f -1 00",
    "f 18446744073709551616 00",
    "f 000000000000000000001 00",
    "f 1 0",
    "f 1 000",
    "f 1 0000",
    "f 1 0g",
    "f 1 g0",
    "f 1 0x",
    "f 1 \u{e4}",
    "r x",
    "r -1",
    "r 0x1000",
    "r 18446744073709551616",
    "r 000000000000000004096",
    "a x",
    "a -1",
    "a +1",
    "a 0x1",
    "a 18446744073709551616",
    "a 99999999999999999999",
    "a 000000000000000000001",
    "s x",
    "s -1",
    "s 18446744073709551616",
    "s 000000000000000004096",
    "nap x",
    "nap -1",
    "nap 10001",
    "nap 4294967296",
    "nap 18446744073709551615",
    "nap 18446744073709551616",
];

#[test]
fn refuses_op_numbers(rt: HostRuntime) -> Result<(), Fail> {
    for &op in NUMBER_ROWS {
        assert!(rt; is_refused_op(rt.alloc(), op, Kind::Number), "at {op}");
    }
    Ok(())
}

/// Ops whose page lies in no slot.
const UNMAPPED_ROWS: &[&str] = &[
    "w 0 01",
    "w 4095 01",
    "w 16384 01",
    "w 4294967295 01",
    "w 4294971392 0102",
    "w 18446744073709547519 01",
    "w 9223372036854775808 01",
    "f 0 00",
    "f 4 00",
    "f 1048575 00",
    "f 1048577 00",
    "f 4294967297 00",
    "f 4503599627370494 00",
    "f 4503599627370496 00",
    "f 4503599627370497 00",
    "f 18446744073709551615 00",
    "r 0",
    "r 4088",
    "r 16384",
    "r 4294967288",
    "r 4294971392",
    "r 18446744073709547512",
    "s 0",
    "s 4088",
    "s 16384",
    "s 4294971392",
];

#[test]
fn refuses_unmapped_ops(rt: HostRuntime) -> Result<(), Fail> {
    for &op in UNMAPPED_ROWS {
        assert!(rt; is_refused_op(rt.alloc(), op, Kind::Unmapped), "at {op}");
    }
    Ok(())
}

/// Ops whose bytes lie in two pages: both in one slot, in two, the second in none, and none after.
const CROSS_ROWS: &[&str] = &[
    "w 8191 0102",
    "w 8185 0102030405060708",
    "w 12287 0102",
    "w 16383 0102",
    "w 16382 010203",
    "w 4294971391 0102",
    "w 18446744073709551615 0102",
    "w 18446744073709551609 0102030405060708",
    "r 8185",
    "r 8191",
    "r 12281",
    "r 12287",
    "r 16377",
    "r 4294971385",
    "r 18446744073709551609",
    "r 18446744073709551615",
    "s 8185",
    "s 8191",
    "s 12281",
    "s 12287",
    "s 16377",
    "s 4294971385",
    "s 18446744073709551609",
    "s 18446744073709551615",
];

#[test]
fn refuses_crossing_ops(rt: HostRuntime) -> Result<(), Fail> {
    for &op in CROSS_ROWS {
        assert!(rt; is_refused_op(rt.alloc(), op, Kind::CrossPage), "at {op}");
    }
    Ok(())
}

/// Ops with two faults, and the first.
const FIRST_ROWS: &[(&str, Kind)] = &[
    ("w x", Kind::Line),
    ("w x 0 0", Kind::Line),
    ("w 0", Kind::Line),
    ("f 0", Kind::Line),
    ("f x 0 0", Kind::Line),
    ("r x x", Kind::Line),
    ("a x x", Kind::Line),
    ("s 0 x", Kind::Line),
    ("nap 10001 1", Kind::Line),
    ("w 0 0", Kind::Number),
    ("w 0 010203040506070809", Kind::Number),
    ("w 8191 010", Kind::Number),
    ("w 8191 010203040506070809", Kind::Number),
    ("w x 0", Kind::Number),
    ("f 0 0", Kind::Number),
    ("f 0 000", Kind::Number),
    ("r 18446744073709551616", Kind::Number),
    ("w 4095 0102", Kind::Unmapped),
    ("w 4089 0102030405060708", Kind::Unmapped),
    ("w 4294967295 0102", Kind::Unmapped),
    ("w 18446744073709547519 0102", Kind::Unmapped),
    ("r 4089", Kind::Unmapped),
    ("r 4294967295", Kind::Unmapped),
    ("r 20479", Kind::Unmapped),
    ("s 4095", Kind::Unmapped),
    ("s 18446744073709547513", Kind::Unmapped),
];

#[test]
fn answers_the_first_fault_of_ops(rt: HostRuntime) -> Result<(), Fail> {
    for &(op, kind) in FIRST_ROWS {
        assert!(rt; is_refused_op(rt.alloc(), op, kind), "at {op}");
    }
    Ok(())
}

#[test]
fn answers_the_earlier_line(rt: HostRuntime) -> Result<(), Fail> {
    let rows = [
        ("r 8191\nr 0\n", Kind::CrossPage, 14),
        ("r 0\nr 8191\n", Kind::Unmapped, 14),
        ("r 0\njump\n", Kind::Unmapped, 14),
        ("r x\njump\n", Kind::Number, 14),
        ("jump\nr x\n", Kind::Line, 14),
        ("a 1\nr 0\nvcpu\n", Kind::Unmapped, 15),
        ("rep 2\nr 0\nrep 2\n", Kind::Unmapped, 15),
        ("rep 2\nr 0\n", Kind::Unmapped, 15),
        ("rep 0\nend\n", Kind::Number, 14),
    ];
    for (ops, kind, no) in rows {
        let text = format!(in rt.alloc(); "{SETTINGS}{SLOTS}vcpu\n{ops}")?;
        assert!(rt; is_refused(rt.alloc(), &text, kind.at(no)), "in {text}");
    }
    Ok(())
}

/// An op's line in its canonical form, and the op.
const READ_ROWS: &[(&str, Op)] = &[
    (
        "w 4096 00",
        Op::W {
            space: 0,
            addr: 4096,
            len: 1,
            value: 0,
        },
    ),
    (
        "w 4096 ff",
        Op::W {
            space: 0,
            addr: 4096,
            len: 1,
            value: 255,
        },
    ),
    (
        "w 4097 0102",
        Op::W {
            space: 0,
            addr: 4097,
            len: 2,
            value: 0x0201,
        },
    ),
    (
        "w 4098 010203",
        Op::W {
            space: 0,
            addr: 4098,
            len: 3,
            value: 0x030201,
        },
    ),
    (
        "w 8190 0100",
        Op::W {
            space: 0,
            addr: 8190,
            len: 2,
            value: 1,
        },
    ),
    (
        "w 8191 00",
        Op::W {
            space: 0,
            addr: 8191,
            len: 1,
            value: 0,
        },
    ),
    (
        "w 8192 01",
        Op::W {
            space: 0,
            addr: 8192,
            len: 1,
            value: 1,
        },
    ),
    (
        "w 16383 7f",
        Op::W {
            space: 0,
            addr: 16383,
            len: 1,
            value: 127,
        },
    ),
    (
        "w 8184 0123456789abcdef",
        Op::W {
            space: 0,
            addr: 8184,
            len: 8,
            value: 0xefcdab8967452301,
        },
    ),
    (
        "w 4294967296 ffffffffffffffff",
        Op::W {
            space: 0,
            addr: 4294967296,
            len: 8,
            value: 18446744073709551615,
        },
    ),
    (
        "w 4294971391 80",
        Op::W {
            space: 0,
            addr: 4294971391,
            len: 1,
            value: 128,
        },
    ),
    (
        "w 18446744073709547520 0000",
        Op::W {
            space: 0,
            addr: 18446744073709547520,
            len: 2,
            value: 0,
        },
    ),
    (
        "w 18446744073709551615 a5",
        Op::W {
            space: 0,
            addr: 18446744073709551615,
            len: 1,
            value: 165,
        },
    ),
    (
        "f 1 00",
        Op::F {
            space: 0,
            gfn: 1,
            byte: 0,
        },
    ),
    (
        "f 3 ff",
        Op::F {
            space: 0,
            gfn: 3,
            byte: 255,
        },
    ),
    (
        "f 1048576 0a",
        Op::F {
            space: 0,
            gfn: 1048576,
            byte: 10,
        },
    ),
    (
        "f 4503599627370495 a0",
        Op::F {
            space: 0,
            gfn: 4503599627370495,
            byte: 160,
        },
    ),
    (
        "r 4096",
        Op::R {
            space: 0,
            addr: 4096,
        },
    ),
    (
        "r 4097",
        Op::R {
            space: 0,
            addr: 4097,
        },
    ),
    (
        "r 8184",
        Op::R {
            space: 0,
            addr: 8184,
        },
    ),
    (
        "r 16376",
        Op::R {
            space: 0,
            addr: 16376,
        },
    ),
    (
        "r 4294971384",
        Op::R {
            space: 0,
            addr: 4294971384,
        },
    ),
    (
        "r 18446744073709551608",
        Op::R {
            space: 0,
            addr: 18446744073709551608,
        },
    ),
    ("a 0", Op::A { n: 0 }),
    (
        "a 18446744073709551615",
        Op::A {
            n: 18446744073709551615,
        },
    ),
    (
        "s 4096",
        Op::S {
            space: 0,
            addr: 4096,
        },
    ),
    (
        "s 8184",
        Op::S {
            space: 0,
            addr: 8184,
        },
    ),
    (
        "s 18446744073709551608",
        Op::S {
            space: 0,
            addr: 18446744073709551608,
        },
    ),
    ("nap 0", Op::Nap { us: 0 }),
    ("nap 10000", Op::Nap { us: 10000 }),
];

/// A guest of one script: the op of this line, alone and twice in a `rep`.
fn with_op(alloc: Global, line: &str) -> Result<String, AllocError> {
    format!(in alloc; "{SETTINGS}{SLOTS}vcpu\n{line}\nrep 3\n{line}\n{line}\nend\nhalt\n")
}

/// The script is this op, alone and twice in a `rep`.
fn is_script_of(script: &[Item], op: Op) -> bool {
    match script {
        [Item::One(one), Item::Rep { n, body }, Item::One(Op::Halt)] => {
            *one == op && *n == 3 && body.as_slice() == [op, op].as_slice()
        }
        _ => false,
    }
}

/// The text's first script is this op, alone and twice in a `rep`.
fn says_op(alloc: Global, text: &str, op: Op) -> bool {
    match read_guest(alloc, text.as_bytes()) {
        Ok(guest) => match guest.scripts.as_slice().first() {
            Some(script) => is_script_of(script.as_slice(), op),
            None => false,
        },
        Err(_) => false,
    }
}

#[test]
fn reads_ops(rt: HostRuntime) -> Result<(), Fail> {
    for &(line, op) in READ_ROWS {
        let text = with_op(rt.alloc(), line)?;
        assert!(rt; stays(rt.alloc(), &text), "in {text}");
        assert!(rt; says_op(rt.alloc(), &text, op), "in {text}");
    }
    Ok(())
}
