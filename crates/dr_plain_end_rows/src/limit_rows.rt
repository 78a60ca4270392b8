//! Guests at the limits of a guest file: as many vCPUs, slots and pages as there may be, the
//! smallest and the largest rings, and quotas from none to the greatest.

use dr_io::{FixedClock, PortFiles};
use dr_plain::plain_main;
use dr_plain_testing::{LARGE_PIECE, source};
use dr_types::Status;
use std::alloc::{AllocError, Global};
use std::io;
use std::test::Fail;

/// What a row changes of the settings.
#[derive(Clone, Copy, Debug)]
struct Row {
    ring: u32,
    reserve: u32,
    buffer: u32,
    threshold: u32,
    rounds: u32,
    quota: u32,
}

/// How many slots and vCPUs a guest may have.
const MOST: u32 = 32;

/// How many pages each of the slots has, so that all have 16,384.
const SLOT_PAGES: u32 = 512;

/// The settings and the slots of a row's guest. Between two slots there is a gap of one frame.
fn push_settings(alloc: Global, file: &mut String, row: Row) -> Result<(), AllocError> {
    let Row {
        ring,
        reserve,
        buffer,
        threshold,
        rounds,
        quota,
    } = row;
    file.push_str(&format!(in alloc; "dirtyguest 1\nring {ring}\nreserve {reserve}\n")?)?;
    file.push_str(&format!(in alloc; "buffer {buffer}\npace 1\nthreshold {threshold}\n")?)?;
    file.push_str(&format!(in alloc; "rounds {rounds}\nquota {quota}\n")?)?;
    for id in 0..MOST {
        let base = id * (SLOT_PAGES + 1);
        file.push_str(&format!(in alloc; "slot {id} {base} {SLOT_PAGES}\n")?)?;
    }
    Ok(())
}

/// Each vCPU writes some pages of its own slot twice, and the same byte of the first page of all.
fn push_scripts(alloc: Global, file: &mut String) -> Result<(), AllocError> {
    for v in 0..MOST {
        file.push_str("vcpu\nrep 2\n")?;
        for k in 0..5_u64 {
            let frame = u64::from(v * (SLOT_PAGES + 1)) + k * 100;
            file.push_str(&format!(in alloc; "w {} 01\n", frame * 4096 + 4095)?)?;
        }
        file.push_str("w 0 02\nend\nhalt\n")?;
    }
    Ok(())
}

/// How a row's guest ends, over ports that take all.
fn ends(alloc: Global, row: Row) -> Result<Option<Status>, AllocError> {
    let mut file = String::new(alloc);
    push_settings(alloc, &mut file, row)?;
    push_scripts(alloc, &mut file)?;
    let mut source = source(alloc, &file, LARGE_PIECE, &[])?;
    let words = vec![in alloc; String::from_str(alloc, "step")?]?;
    let sink = || Some(io::sink());
    let out = PortFiles::new(sink(), sink(), sink(), sink());
    Ok(
        plain_main(
            alloc,
            words.as_slice(),
            &mut source,
            out,
            &FixedClock { now: 0 },
        )
        .status,
    )
}

/// Large rings, which no entry fills.
const LARGE: Row = Row {
    ring: 65_536,
    reserve: 1,
    buffer: 512,
    threshold: 0,
    rounds: 15,
    quota: 0,
};

/// The smallest rings, full from the first entry on.
const SMALL: Row = Row {
    ring: 4,
    reserve: 3,
    buffer: 0,
    ..LARGE
};

#[test]
fn guests_at_the_limits_switch_over(rt: HostRuntime) -> Result<(), Fail> {
    let rows = [
        LARGE,
        Row {
            reserve: 65_535,
            buffer: 0,
            ..LARGE
        },
        SMALL,
        Row {
            reserve: 1,
            buffer: 2,
            ..SMALL
        },
        Row { quota: 1, ..SMALL },
        Row {
            quota: 1_000_000_000,
            ..SMALL
        },
        Row { quota: 1, ..LARGE },
        Row {
            threshold: 16_384,
            rounds: 1,
            ..SMALL
        },
    ];
    for row in rows {
        assert_eq!(rt; ends(rt.alloc(), row)?, Some(Status::Done), "{row:?}");
    }
    Ok(())
}

#[test]
fn guests_at_the_limits_spend_their_rounds(rt: HostRuntime) -> Result<(), Fail> {
    for row in [
        Row { rounds: 1, ..LARGE },
        Row { rounds: 2, ..SMALL },
        Row {
            rounds: 2,
            quota: 1,
            ..SMALL
        },
    ] {
        assert_eq!(rt; ends(rt.alloc(), row)?, Some(Status::Unfinished), "{row:?}");
    }
    Ok(())
}
