//! A guest whose two writes may fall into its rounds in several ways. The judge takes each history.

use crate::copies::copy_of;
use crate::runs::run;
use dr_core::Core;
use dr_history::{Event, History};
use dr_io::{Port, PortBook};
use dr_live::LiveEnd;
use dr_machine::Kept;
use dr_types::Status;
use std::alloc::Global;
use std::test::Fail;

const TWO_WRITES: &str =
    "dirtyguest 1\nring 8\nreserve 2\nbuffer 0\npace 1\nthreshold 0\nrounds 3\nquota 0\nslot 0 0 1\nvcpu\na 0\nw 0 01\nw 0 02\nhalt\n";

/// The judge takes each event, and the history may end there.
fn takes_all(core: &mut Core, history: &History) -> bool {
    for event in history.events() {
        let Ok(event) = copy_of(event) else {
            return false;
        };
        if core.step(event).is_err() {
            return false;
        }
    }
    core.close().is_ok()
}

/// The judge takes what is kept. `false` also where memory is refused.
fn is_legal(alloc: Global, kept: &Kept) -> bool {
    match Core::new(alloc, kept.guest()) {
        Ok(mut core) => takes_all(&mut core, kept.history()),
        Err(_) => false,
    }
}

/// What the last write wrote, where there is one.
fn last_written(history: &History) -> Option<u64> {
    let mut last = None;
    for event in history.events() {
        if let Event::Write { value, .. } = event {
            last = Some(*value);
        }
    }
    last
}

/// After a switch-over the image begins with what the last write wrote. Where the rounds are spent
/// there is no image.
fn ends_well(status: Status, history: &History, image: &[u8]) -> bool {
    let first = image.get(0).map(|byte| u64::from(*byte));
    match status {
        Status::Done => first.is_some() && first == last_written(history),
        Status::Unfinished => first.is_none(),
        _ => false,
    }
}

/// A run left a legal history, and the image that it says.
fn is_sound(alloc: Global, end: &LiveEnd<PortBook>) -> bool {
    match &end.kept {
        Some(kept) => {
            let image = end.out.bytes(Port::Image);
            is_legal(alloc, kept) && ends_well(end.status, kept.history(), image)
        }
        None => false,
    }
}

#[test]
fn leaves_legal_histories(rt: HostRuntime) -> Result<(), Fail> {
    for turn in 1..=20 {
        let end = run(&rt, rt.alloc(), TWO_WRITES, &[], 7)?;
        assert!(rt; is_sound(rt.alloc(), &end), "run {turn}");
    }
    Ok(())
}
