//! The usual guest: its file, its report and its image.

use std::alloc::{AllocError, Global};

/// The usual guest: four vCPUs that each count to 1,000 in a page of their own, over two slots.
pub fn usual_guest(alloc: Global) -> Result<String, AllocError> {
    let ring = "dirtyguest 1\nring 4096\nreserve 64\nbuffer 512\n";
    let rounds = "pace 4000\nthreshold 50\nrounds 8\nquota 0\n";
    let slots = "slot 0 0 4096\nslot 1 1048576 2048\n";
    let mut file = format!(in alloc; "{ring}{rounds}{slots}")?;
    for address in [0_u64, 4096, 8192, 4294967296] {
        let body = format!(in alloc; "r {address}\na 1\ns {address}\n")?;
        file.push_str(&format!(in alloc; "vcpu\nrep 1000\n{body}end\nhalt\n")?)?;
    }
    Ok(file)
}

/// The report of the usual guest, at this time of each round.
pub fn usual_report(alloc: Global, now: u64) -> Result<String, AllocError> {
    let mut shares = String::new(alloc);
    let mut ends = String::new(alloc);
    for vcpu in 0..4_u32 {
        shares.push_str(&format!(in alloc; "  vcpu {vcpu} entries 0 rate 0 throttle 0\n")?)?;
        ends.push_str(&format!(in alloc; "vcpu {vcpu} ops 3001 full 0 kicked 0\n")?)?;
    }
    let mut report = String::from_str(alloc, "guest pages 6144 vcpus 4 ring 4096 soft 3520\n")?;
    for (round, pages) in [(1_u32, 6144_u32), (2, 0), (3, 0)] {
        let line = format!(in alloc; "round {round} dirty {pages} copied {pages} at {now}\n")?;
        report.push_str(&line)?;
        report.push_str(&shares)?;
    }
    report.push_str(&ends)?;
    report.push_str("switched\n")?;
    Ok(report)
}

/// The image has its length, and its pages 0, 1, 2 and 4096 hold 1,000.
pub fn holds_counts(image: &[u8]) -> bool {
    for at in [0, 4096, 8192, 4096 * 4096] {
        match image.get(at..) {
            Some(page) if page.starts_with(b"\xe8\x03\0\0\0\0\0\0") => {}
            _ => return false,
        }
    }
    image.len() == 6144 * 4096
}
