//! Files that are refused, and guests that are run or not.

use crate::commands::ends;
use dr_testing::SETTINGS;
use dr_types::{FileFault, Status, What};
use std::alloc::{AllocError, Global};
use std::test::Fail;

#[test]
fn refuses_files(rt: HostRuntime) -> Result<(), Fail> {
    let large = |what, no| FileFault::TooLarge { what, no };
    // What stands after the settings, and its first fault.
    let rows = [
        (
            "slot 0 0 1\nvcpu\nw 4095 0102\nhalt\n",
            FileFault::CrossPage { no: 11 },
        ),
        (
            "slot 0 0 1\nvcpu\nw 4096 01\nhalt\n",
            FileFault::Unmapped { no: 11 },
        ),
        (
            "slot 0 0 1\nvcpu\nr 4089\nhalt\n",
            FileFault::CrossPage { no: 11 },
        ),
        (
            "slot 0 0 1\nvcpu\nw 0 012\nhalt\n",
            FileFault::Number { no: 11 },
        ),
        ("slot 0 0 1\nvcpu\njump\nhalt\n", FileFault::Line { no: 11 }),
        (
            "slot 0 0 4\nslot 1 3 2\nvcpu\nhalt\n",
            FileFault::Overlap { a: 0, b: 1 },
        ),
        ("slot 0 0 16385\nvcpu\nhalt\n", large(What::Pages, 9)),
        (
            "slot 0 0 1\nvcpu\nrep 200000\na 0\nend\nhalt\n",
            large(What::Ops, 14),
        ),
    ];
    for (rest, fault) in rows {
        let file = format!(in rt.alloc(); "{SETTINGS}{rest}")?;
        let is_refused = ends(
            rt.alloc(),
            &["step"],
            file.as_bytes(),
            Status::GuestFile(fault),
        );
        assert!(rt; is_refused, "at {rest}");
    }
    Ok(())
}

#[test]
fn refuses_settings(rt: HostRuntime) -> Result<(), Fail> {
    let rows = [
        ("", FileFault::Magic { no: 1 }),
        ("dirtyguest 1\nring 6\n", FileFault::RingSize { no: 2 }),
        (
            "dirtyguest 1\nring 8\nreserve 7\nbuffer 1\n",
            FileFault::Reserve { no: 4 },
        ),
        (
            "dirtyguest 1\nring 8\nreserve 0\n",
            FileFault::Number { no: 3 },
        ),
        (
            "dirtyguest 1\nring 8\nreserve 2\nbuffer 0\npace 16\nthreshold 0\nrounds 64\nquota 0\nslot 0 0 4096\n",
            FileFault::TooLarge {
                what: What::Copies,
                no: 9,
            },
        ),
    ];
    for (file, fault) in rows {
        let is_refused = ends(
            rt.alloc(),
            &["step"],
            file.as_bytes(),
            Status::GuestFile(fault),
        );
        assert!(rt; is_refused, "at {file}");
    }
    Ok(())
}

/// A guest of one page and one vCPU that executes two ops, with these settings.
fn with_rounds(
    alloc: Global,
    pace: u32,
    threshold: u32,
    rounds: u32,
    quota: u64,
) -> Result<String, AllocError> {
    let head = "dirtyguest 1\nring 8\nreserve 2\nbuffer 0";
    let tail = "slot 0 0 1\nvcpu\na 1\nhalt\n";
    format!(in alloc;
        "{head}\npace {pace}\nthreshold {threshold}\nrounds {rounds}\nquota {quota}\n{tail}"
    )
}

#[test]
fn runs_every_guest(rt: HostRuntime) -> Result<(), Fail> {
    let rows = [
        (2, 0, 2, 0, Status::Done),
        (1, 0, 2, 0, Status::Done),
        (2, 0, 1, 0, Status::Unfinished),
        (2, 1, 1, 0, Status::Done),
        (2, 0, 2, 1, Status::Done),
    ];
    for (pace, threshold, rounds, quota, status) in rows {
        let file = with_rounds(rt.alloc(), pace, threshold, rounds, quota)?;
        let is_ended = ends(rt.alloc(), &["step"], file.as_bytes(), status);
        assert!(rt; is_ended, "in {file}");
    }
    Ok(())
}

#[test]
fn limits_its_input(rt: HostRuntime) -> Result<(), Fail> {
    let spaces = vec![in rt.alloc(); b' '; 16_777_217]?;
    let long = ends(rt.alloc(), &["step"], spaces.as_slice(), Status::TooLong);
    assert!(rt; long, "too long");
    let magic = Status::GuestFile(FileFault::Magic { no: 1 });
    let short = ends(rt.alloc(), &["step"], &spaces.as_slice()[1..], magic);
    assert!(rt; short, "not too long");
    Ok(())
}
