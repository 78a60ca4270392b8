//! What is said of each fault: its line, and the text after it.

use dr_guestfile::read_guest;
use dr_guestfile_explain::{Explained, explain};
use dr_types::{FileFault, What};
use std::alloc::{AllocError, Global};
use std::test::Fail;

/// The settings of the rows' guests.
const SETTINGS: &str =
    "dirtyguest 1\nring 8\nreserve 2\nbuffer 0\npace 16\nthreshold 0\nrounds 2\nquota 0\n";

/// As it is printed: the line, where there is one, and the text.
fn printed(alloc: Global, explained: &Explained) -> Result<String, AllocError> {
    let text = explained.text.as_str();
    match explained.line {
        Some(line) => format!(in alloc; "{line}: {text}"),
        None => format!(in alloc; "{text}"),
    }
}

/// What is said of a file's first fault.
fn told(alloc: Global, file: &str) -> Result<String, Fail> {
    let why = read_guest(alloc, file.as_bytes()).err().ok_or("no fault")?;
    let explained = explain(alloc, file.as_bytes(), why)?;
    Ok(printed(alloc, &explained)?)
}

/// What is said of the first fault of a file that begins with the rows' settings.
fn told_below(alloc: Global, lines: &str) -> Result<String, Fail> {
    let file = format!(in alloc; "{SETTINGS}{lines}")?;
    told(alloc, file.as_str())
}

/// What is said of the first fault of an op: the guest has the slots 4 (frames 0 and 1) and 7
/// (frame 16), and a script of `halt` stands above.
fn told_of_op(alloc: Global, lines: &str) -> Result<String, Fail> {
    let file = format!(in alloc; "slot 4 0 2\nslot 7 16 1\nvcpu\n{lines}")?;
    told_below(alloc, file.as_str())
}

#[test]
fn tells_of_first_lines(rt: HostRuntime) -> Result<(), Fail> {
    let rows = [
        (
            "",
            "1: the file has to begin with the line `dirtyguest 1` or `dirtyguest 2`",
        ),
        (
            " \n# a guest\n",
            "1: the file has to begin with the line `dirtyguest 1` or `dirtyguest 2`",
        ),
        (
            "# a guest\n\ndirtyguest\t3\n",
            "3: the file has to begin with the line `dirtyguest 1` or `dirtyguest 2`, and begins with `dirtyguest 3`",
        ),
        (
            "\x1b[2J ring\x07 8\n",
            "1: the file has to begin with the line `dirtyguest 1` or `dirtyguest 2`, and begins with `?[2J ring? 8`",
        ),
        (
            "dirtyguest 1\n",
            "2: the file ends here, and `ring N` is missing",
        ),
    ];
    for (file, wanted) in rows {
        assert_eq!(rt; told(rt.alloc(), file)?.as_str(), wanted);
    }
    Ok(())
}

#[test]
fn tells_of_settings(rt: HostRuntime) -> Result<(), Fail> {
    let rows = [
        (
            "ring 6\n",
            "2: `ring` wants a power of two from 4 to 65536, and `6` is none",
        ),
        (
            "ring +8\n",
            "2: `ring` wants a power of two from 4 to 65536 in decimal digits, and `+8` is none",
        ),
        ("ring\n", "2: expected `ring N` here, and found `ring`"),
        (
            "ring 8\npace 16\n",
            "3: expected `reserve N` here, and found `pace 16`",
        ),
        (
            "ring 8\nreserve 1 2 3 4 5\n",
            "3: expected `reserve N` here, and found `reserve 1 2 3 ..`",
        ),
        (
            "ring 8\nreserve 0\n",
            "3: `reserve` wants a number of entries from 1 to 65535, and `0` is none",
        ),
        (
            "ring 8\nreserve 2\n",
            "4: the file ends here, and `buffer N` is missing",
        ),
        (
            "ring 8\nreserve 2\nbuffer 513\n",
            "4: `buffer` wants a number of entries from 0 to 512, and `513` is none",
        ),
        (
            "ring 8\nreserve 7\nbuffer 1\n",
            "4: `reserve` and `buffer` together have to be less than `ring`: 7 + 1 is not less than 8",
        ),
        (
            "ring 8\nreserve 2\nbuffer 0\nrounds 2\n",
            "5: expected `pace N` here, and found `rounds 2`",
        ),
        (
            "ring 8\nreserve 2\nbuffer 0\npace 200001\n",
            "5: `pace` wants a number of ops from 1 to 200000, and `200001` is none",
        ),
    ];
    for (lines, wanted) in rows {
        let file = format!(in rt.alloc(); "dirtyguest 1\n{lines}")?;
        assert_eq!(rt; told(rt.alloc(), file.as_str())?.as_str(), wanted);
    }
    Ok(())
}

#[test]
fn tells_of_later_settings(rt: HostRuntime) -> Result<(), Fail> {
    let rows = [
        (
            "threshold 16385\n",
            "6: `threshold` wants a number of pages from 0 to 16384, and `16385` is none",
        ),
        (
            "rounds 2\n",
            "6: expected `threshold N` here, and found `rounds 2`",
        ),
        (
            "threshold 0\nrounds 65\n",
            "7: `rounds` wants a number of rounds from 1 to 64, and `65` is none",
        ),
        (
            "threshold 0\nquota 0\n",
            "7: expected `rounds N` here, and found `quota 0`",
        ),
        (
            "threshold 0\nrounds 2\nquota 1000000001\n",
            "8: `quota` wants a number of KiB a second from 0 to 1000000000, and `1000000001` is none",
        ),
        (
            "threshold 0\nrounds 2\nslot 0 0 1\n",
            "8: expected `quota N` here, and found `slot 0 0 1`",
        ),
    ];
    for (lines, wanted) in rows {
        let file = format!(in rt.alloc();
            "dirtyguest 1\nring 8\nreserve 2\nbuffer 0\npace 16\n{lines}"
        )?;
        assert_eq!(rt; told(rt.alloc(), file.as_str())?.as_str(), wanted);
    }
    Ok(())
}

#[test]
fn tells_of_slot_lines(rt: HostRuntime) -> Result<(), Fail> {
    let rows = [
        (
            "",
            "9: the file ends here, and `slot ID BASE PAGES` is missing",
        ),
        (
            "vcpu\n",
            "9: expected `slot ID BASE PAGES` here, and found `vcpu`",
        ),
        (
            "slot 0 1\n",
            "9: expected `slot ID BASE PAGES` here, and found `slot 0 1`",
        ),
        (
            "slot 0 0 1\nslot 1\n",
            "10: expected `slot ID BASE PAGES` here, and found `slot 1`",
        ),
        (
            "slot 65536 0 1\n",
            "9: `slot` wants an ID from 0 to 65535, and `65536` is none",
        ),
        (
            "slot 0 0x10 1\n",
            "9: `slot` wants a BASE from 0 to 4503599627370495 in decimal digits, and `0x10` is none",
        ),
        (
            "slot 0 4503599627370497 1\n",
            "9: `slot` wants a BASE from 0 to 4503599627370495, and `4503599627370497` is none",
        ),
        (
            "slot 0 0 0\n",
            "9: `slot` wants a number of PAGES from 1 to 16384, and `0` is none",
        ),
        (
            "slot 0 4503599627370495 2\n",
            "9: `slot 0 4503599627370495 2`: BASE + PAGES may be 4503599627370496 at most",
        ),
        (
            "slot 0 0 4\n# the next\nslot 1 3 2\n",
            "11: `slot 1 3 2` shares guest frames with slot 0 of line 9",
        ),
        (
            "slot 3 0 1\nslot 03 1 1\n",
            "10: `slot 03 1 1`: slot 3 stands on line 9 already, and each ID may stand once",
        ),
        (
            "slot 0 0 16000\nslot 1 16000 385\n",
            "10: the slots up to here have 16385 pages together, and at most 16384 may be",
        ),
    ];
    for (lines, wanted) in rows {
        assert_eq!(rt; told_below(rt.alloc(), lines)?.as_str(), wanted);
    }
    Ok(())
}

#[test]
fn tells_of_sections(rt: HostRuntime) -> Result<(), Fail> {
    let rows = [
        (
            "",
            "10: the file ends here, and a script is missing: `vcpu`, its ops and `halt`",
        ),
        (
            "r 0\n",
            "10: expected `slot ID BASE PAGES` or `vcpu` here, and found `r 0`",
        ),
        ("vcpu 1\n", "10: expected `vcpu` here, and found `vcpu 1`"),
        ("vcpu\n", "11: the file ends here, and a `halt` is missing"),
        (
            "vcpu\nhalt\na 1\n",
            "12: after a `halt` only `vcpu` may stand, for the next script, and this is `a 1`",
        ),
        (
            "vcpu\nhalt\nvcpu 2\n",
            "12: expected `vcpu` here, and found `vcpu 2`",
        ),
        (
            "vcpu\nhalt\nvcpu",
            "13: the file ends here, and a `halt` is missing",
        ),
    ];
    for (lines, wanted) in rows {
        let file = format!(in rt.alloc(); "slot 0 0 1\n{lines}")?;
        assert_eq!(rt; told_below(rt.alloc(), file.as_str())?.as_str(), wanted);
    }
    Ok(())
}

#[test]
fn tells_of_misplaced_ops(rt: HostRuntime) -> Result<(), Fail> {
    let rows = [
        (
            "jump 3\n",
            "12: expected an op (`w`, `f`, `r`, `a`, `s`, `nap`, `rep` or `halt`) here, and found `jump 3`",
        ),
        (
            "vcpu\n",
            "12: the script above has no `halt`: it has to end with one before the next `vcpu`",
        ),
        (
            "end\n",
            "12: this `end` closes nothing: no `rep` is open here",
        ),
        ("w 0\n", "12: expected `w ADDR HEX` here, and found `w 0`"),
        ("f 0\n", "12: expected `f GFN HH` here, and found `f 0`"),
        ("r\n", "12: expected `r ADDR` here, and found `r`"),
        ("a 1 2\n", "12: expected `a N` here, and found `a 1 2`"),
        ("s\n", "12: expected `s ADDR` here, and found `s`"),
        ("nap\n", "12: expected `nap US` here, and found `nap`"),
        ("rep\n", "12: expected `rep N` here, and found `rep`"),
        ("halt 0\n", "12: expected `halt` here, and found `halt 0`"),
    ];
    for (lines, wanted) in rows {
        assert_eq!(rt; told_of_op(rt.alloc(), lines)?.as_str(), wanted);
    }
    Ok(())
}

#[test]
fn tells_of_repeats(rt: HostRuntime) -> Result<(), Fail> {
    let rows = [
        (
            "rep 2\na 1\n",
            "14: the file ends here, and the `rep` of line 12 is not closed: its `end` is missing",
        ),
        (
            "rep 2\nend\n",
            "13: the `rep` of line 12 is empty: an op has to stand before its `end`",
        ),
        (
            "rep 2\na 1\nend 2\n",
            "14: expected `end` here, and found `end 2`",
        ),
        (
            "rep 2\nrep 3\n",
            "13: a `rep` may not stand inside another: the `rep` of line 12 has no `end` yet",
        ),
        (
            "rep 2\na 1\nhalt\n",
            "14: `halt` may not stand inside a `rep`: the `rep` of line 12 has no `end` yet",
        ),
        (
            "rep 2\na 1\nvcpu\n",
            "14: `vcpu` may not stand inside a `rep`: the `rep` of line 12 has no `end` yet",
        ),
        (
            "rep 2\nw 0\n",
            "13: expected `w ADDR HEX` here, and found `w 0`",
        ),
        (
            "rep 2\njump\n",
            "13: expected an op (`w`, `f`, `r`, `a`, `s` or `nap`) or `end` here, and found `jump`",
        ),
        (
            "rep 2\na 1\nend\nend\n",
            "15: this `end` closes nothing: no `rep` is open here",
        ),
        (
            "rep 200000\na 0\nend\nhalt\n",
            "15: all scripts together have 200001 ops up to here, each repetition counted, and at most 200000 may be",
        ),
        (
            "rep 100001\na 0\na 0\nend\n",
            "15: all scripts together have 200002 ops up to here, each repetition counted, and at most 200000 may be",
        ),
    ];
    for (lines, wanted) in rows {
        assert_eq!(rt; told_of_op(rt.alloc(), lines)?.as_str(), wanted);
    }
    Ok(())
}

#[test]
fn tells_of_numbers(rt: HostRuntime) -> Result<(), Fail> {
    let rows = [
        (
            "w 0x10 01\n",
            "12: `w` wants an address from 0 to 18446744073709551615 in decimal digits, and `0x10` is none",
        ),
        (
            "w 0 012\n",
            "12: `w` wants 1 to 8 bytes in hex, two digits for each, and `012` is something else",
        ),
        (
            "w 0 000102030405060708090a0b0c0d0e0f101112131415\n",
            "12: `w` wants 1 to 8 bytes in hex, two digits for each, and `000102030405060708090a0b0c0d0e0f101112..` is something else",
        ),
        (
            "f -1 00\n",
            "12: `f` wants a frame number from 0 to 18446744073709551615 in decimal digits, and `-1` is none",
        ),
        (
            "f 0 0\n",
            "12: `f` wants one byte in hex, two digits, and `0` is something else",
        ),
        (
            "r 18446744073709551616\n",
            "12: `r` wants an address from 0 to 18446744073709551615, and `18446744073709551616` is none",
        ),
        (
            "a one\n",
            "12: `a` wants a number from 0 to 18446744073709551615 in decimal digits, and `one` is none",
        ),
        (
            "s é\n",
            "12: `s` wants an address from 0 to 18446744073709551615 in decimal digits, and `??` is none",
        ),
        (
            "nap 10001\n",
            "12: `nap` wants a number of microseconds from 0 to 10000, and `10001` is none",
        ),
        (
            "rep 0\n",
            "12: `rep` wants a number of times from 1 to 200000, and `0` is none",
        ),
    ];
    for (lines, wanted) in rows {
        assert_eq!(rt; told_of_op(rt.alloc(), lines)?.as_str(), wanted);
    }
    Ok(())
}

#[test]
fn tells_of_places(rt: HostRuntime) -> Result<(), Fail> {
    let rows = [
        (
            "w 4095 0102\n",
            "12: `w 4095 0102`: the 2 bytes from 4095 on don't lie in one page of 4096 bytes; in this page they may begin at 4094 at most",
        ),
        (
            "rep 2\nr 8185\n",
            "13: `r 8185`: the 8 bytes from 8185 on don't lie in one page of 4096 bytes; in this page they may begin at 8184 at most",
        ),
        (
            "w 8192 01\n",
            "12: `w 8192 01`: address 8192 lies in no slot; the nearest, slot 4, has the addresses 0 to 8191",
        ),
        (
            "s 65535\n",
            "12: `s 65535`: address 65535 lies in no slot; the nearest, slot 7, has the addresses 65536 to 69631",
        ),
        (
            "f 17 00\n",
            "12: `f 17 00`: frame 17 lies in no slot; the nearest, slot 7, has the frames 16 to 16",
        ),
    ];
    for (lines, wanted) in rows {
        assert_eq!(rt; told_of_op(rt.alloc(), lines)?.as_str(), wanted);
    }
    Ok(())
}

/// A file of so many slots of one page, and so many vCPUs.
fn many(alloc: Global, slots: u64, vcpus: u64) -> Result<String, AllocError> {
    let mut file = String::new(alloc);
    file.push_str(SETTINGS)?;
    for id in 0..slots {
        file.push_str(&format!(in alloc; "slot {id} {id} 1\n")?)?;
    }
    for _ in 0..vcpus {
        file.push_str("vcpu\nhalt\n")?;
    }
    Ok(file)
}

#[test]
fn tells_of_too_many(rt: HostRuntime) -> Result<(), Fail> {
    let rows = [
        (33, 1, "41: at most 32 slots may be, and this is one more"),
        (2, 33, "75: at most 32 vCPUs may be, and this is one more"),
    ];
    for (slots, vcpus, wanted) in rows {
        let file = many(rt.alloc(), slots, vcpus)?;
        assert_eq!(rt; told(rt.alloc(), file.as_str())?.as_str(), wanted);
    }
    let file =
        "dirtyguest 1\nring 8\nreserve 2\nbuffer 0\npace 16\nthreshold 0\nrounds 64\nquota 0\nslot 0 0 4000\nslot 1 4000 96\n";
    assert_eq!(rt;
        told(rt.alloc(), file)?.as_str(),
        "10: 4096 pages times (64 rounds + 1) is 266240, and at most 262144 may be"
    );
    Ok(())
}

/// What is said of a fault that isn't the first of this file, or none of it.
fn told_of(alloc: Global, file: &[u8], why: FileFault) -> Result<String, Fail> {
    let explained = explain(alloc, file, why)?;
    Ok(printed(alloc, &explained)?)
}

#[test]
fn tells_of_other_faults(rt: HostRuntime) -> Result<(), Fail> {
    let file = b"dirtyguest 1\nring 8\n# \xff\nreserve 2\nslot 0 0 1\n";
    let rows = [
        (FileFault::Memory, "out of memory"),
        (
            FileFault::Overlap { a: 0, b: 1 },
            "slots 0 and 1 share guest frames",
        ),
        (
            FileFault::Overlap { a: 1, b: 0 },
            "5: slots 1 and 0 share guest frames",
        ),
        (
            FileFault::Magic { no: 3 },
            "3: the file has to begin with the line `dirtyguest 1` or `dirtyguest 2`",
        ),
        (
            FileFault::Line { no: 3 },
            "3: this line may not stand here, or has the wrong number of words",
        ),
        (
            FileFault::Number { no: u64::MAX },
            "18446744073709551615: a word is no number of its place, or out of its range",
        ),
        (
            FileFault::Number { no: 4 },
            "4: a word of `reserve 2` is no number of its place, or out of its range",
        ),
        (
            FileFault::RingSize { no: 2 },
            "2: the ring's size has to be a power of two from 4 to 65536",
        ),
        (
            FileFault::Reserve { no: 0 },
            "0: `reserve` and `buffer` together have to be less than `ring`",
        ),
    ];
    for (why, wanted) in rows {
        assert_eq!(rt; told_of(rt.alloc(), file, why)?.as_str(), wanted);
    }
    Ok(())
}

#[test]
fn tells_of_other_faults_of_slots(rt: HostRuntime) -> Result<(), Fail> {
    let file = b"dirtyguest 1\nring 8\n# \xff\nreserve 2\nslot 0 0 1\n";
    let what = What::Pages;
    let rows = [
        (
            FileFault::SlotTwice { no: 5 },
            "5: a slot with this ID stands above, and each ID may stand once",
        ),
        (
            FileFault::Unmapped { no: 5 },
            "5: `slot 0 0 1`: the page lies in no slot",
        ),
        (
            FileFault::CrossPage { no: 5 },
            "5: the bytes don't lie in one page of 4096 bytes",
        ),
        (
            FileFault::TooLarge { what, no: 5 },
            "5: the slots up to here have 1 pages together, and at most 16384 may be",
        ),
    ];
    for (why, wanted) in rows {
        assert_eq!(rt; told_of(rt.alloc(), file, why)?.as_str(), wanted);
    }
    Ok(())
}

/// What is said of a file of version 2, whose lines from 9 on are these.
fn told_of_version_2(alloc: Global, lines: &str) -> Result<String, Fail> {
    let file = format!(in alloc;
        "dirtyguest 2\nring 8\nreserve 2\nbuffer 0\npace 16\nthreshold 0\nrounds 2\nquota 0\n{lines}"
    )?;
    told(alloc, file.as_str())
}

#[test]
fn tells_of_prefixes(rt: HostRuntime) -> Result<(), Fail> {
    let rows = [
        (
            "slot 2:0 0 1\n",
            "9: `slot` wants an ID from 0 to 65535 in decimal digits, and `2:0` is none; the only \
             prefix is `1:`, which names space 1",
        ),
        (
            "slot 1:65536 0 1\n",
            "9: `slot` wants an ID from 0 to 65535, and `1:65536` is none",
        ),
        (
            "slot 1:000000000000000000001 0 1\n",
            "9: `slot` wants an ID from 0 to 65535, and `1:000000000000000000001` is none; a \
             number has at most 20 digits",
        ),
        (
            "slot 0 1:0 1\n",
            "9: `slot` wants a BASE from 0 to 4503599627370495 in decimal digits, and `1:0` is none",
        ),
        (
            "slot 0 0 1\nvcpu\nw 0:0 41\n",
            "11: `w` wants an address from 0 to 18446744073709551615 in decimal digits, and `0:0` \
             is none; the only prefix is `1:`, which names space 1",
        ),
        (
            "slot 0 0 1\nvcpu\nr 1:1:0\n",
            "11: `r` wants an address from 0 to 18446744073709551615 in decimal digits, and \
             `1:1:0` is none; the only prefix is `1:`, which names space 1",
        ),
        (
            "slot 0 0 1\nvcpu\nf 1:x 00\n",
            "11: `f` wants a frame number from 0 to 18446744073709551615 in decimal digits, and \
             `1:x` is none",
        ),
    ];
    for (lines, wanted) in rows {
        assert_eq!(rt; told_of_version_2(rt.alloc(), lines)?.as_str(), wanted);
    }
    assert_eq!(rt;
        told_of_op(rt.alloc(), "w 1:0 41\n")?.as_str(),
        "12: `w` wants an address from 0 to 18446744073709551615 in decimal digits, and `1:0` is \
         none; in version 1 no prefix may stand, and in version 2 `1:` names space 1"
    );
    Ok(())
}

#[test]
fn tells_of_spaces(rt: HostRuntime) -> Result<(), Fail> {
    let rows = [
        (
            "slot 1:0 0 4\nslot 1:1 3 2\n",
            "10: `slot 1:1 3 2` shares guest frames with slot 1:0 of line 9",
        ),
        (
            "slot 1:0 0 1\nslot 0 0 1\nslot 1:0 4 1\n",
            "11: `slot 1:0 4 1`: slot 1:0 stands on line 9 already, and each ID may stand once in \
             each space",
        ),
        (
            "slot 0 0 1\nvcpu\nw 1:0 01\n",
            "11: `w 1:0 01`: no slot stands in space 1",
        ),
        (
            "slot 0 0 1\nslot 1:3 16 1\nvcpu\nw 1:0 01\n",
            "12: `w 1:0 01`: address 1:0 lies in no slot; the nearest, slot 1:3, has the \
             addresses 1:65536 to 1:69631",
        ),
        (
            "slot 0 0 1\nslot 1:3 16 1\nvcpu\nf 1:17 00\n",
            "12: `f 1:17 00`: frame 1:17 lies in no slot; the nearest, slot 1:3, has the frames \
             1:16 to 1:16",
        ),
        (
            "slot 0 0 1\nslot 1:3 16 1\nvcpu\nw 4096 01\n",
            "12: `w 4096 01`: address 4096 lies in no slot; the nearest, slot 0, has the \
             addresses 0 to 4095",
        ),
        (
            "slot 1:3 16 1\nvcpu\ns 1:69625\n",
            "11: `s 1:69625`: the 8 bytes from 1:69625 on don't lie in one page of 4096 bytes; in \
             this page they may begin at 1:69624 at most",
        ),
    ];
    for (lines, wanted) in rows {
        assert_eq!(rt; told_of_version_2(rt.alloc(), lines)?.as_str(), wanted);
    }
    let file = b"dirtyguest 2\nring 8\n";
    let why = FileFault::Overlap { a: 3, b: 65_539 };
    assert_eq!(rt;
        told_of(rt.alloc(), file, why)?.as_str(),
        "slots 3 and 1:3 share guest frames"
    );
    Ok(())
}

/// What can't be seen in a line is named, and what other files may have.
#[test]
fn tells_of_habits_of_other_files(rt: HostRuntime) -> Result<(), Fail> {
    let rows = [
        (
            "\u{feff}dirtyguest 1\n",
            "1: the file has to begin with the line `dirtyguest 1` or `dirtyguest 2`, and begins \
             with `???dirtyguest 1`; a byte order mark, which can't be seen, stands at its start",
        ),
        (
            "dirtyguest\u{a0}1\n",
            "1: the file has to begin with the line `dirtyguest 1` or `dirtyguest 2`, and begins \
             with `dirtyguest??1`; a no-break space is in it, and only spaces and tabs part words",
        ),
        (
            "dirtyguest 1\rring 8\r",
            "1: the file has to begin with the line `dirtyguest 1` or `dirtyguest 2`, and begins \
             with `dirtyguest 1?ring 8`; a carriage return is in it, which may stand only before a \
             line feed",
        ),
        (
            "DirtyGuest 1\n",
            "1: the file has to begin with the line `dirtyguest 1` or `dirtyguest 2`, and begins \
             with `DirtyGuest 1`; keywords are written in small letters",
        ),
        (
            "dirtyguest 1 # a guest\n",
            "1: the file has to begin with the line `dirtyguest 1` or `dirtyguest 2`, and begins \
             with `dirtyguest 1 # a ..`; a comment needs a line of its own",
        ),
        (
            "dirtyguest 1\nring 000000000000000000008\n",
            "2: `ring` wants a power of two from 4 to 65536, and `000000000000000000008` is none; \
             a number has at most 20 digits",
        ),
    ];
    for (file, text) in rows {
        let told = told(rt.alloc(), file)?;
        assert_eq!(rt; told.as_str(), text);
    }
    let rows = [
        (
            "slot 0 0 1 # memory\n",
            "9: expected `slot ID BASE PAGES` here, and found `slot 0 0 1 ..`; \
             a comment needs a line of its own",
        ),
        (
            "slot 0 0 000000000000000000001\n",
            "9: `slot` wants a number of PAGES from 1 to 16384, and `000000000000000000001` is \
             none; a number has at most 20 digits",
        ),
        (
            "slot 0 0 1\nVCPU\n",
            "10: expected `slot ID BASE PAGES` or `vcpu` here, and found `VCPU`; \
             keywords are written in small letters",
        ),
    ];
    for (lines, text) in rows {
        let told = told_below(rt.alloc(), lines)?;
        assert_eq!(rt; told.as_str(), text);
    }
    Ok(())
}
