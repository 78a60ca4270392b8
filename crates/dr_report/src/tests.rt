ghost use Rattle.std.specs.Prelude.{◌≡◌, [], IfOk};
ghost use Rattle.dr_history.specs.declared.event.Event as Event;
ghost use Rattle.dr_history_sample_law.specs.Smallest.{halting_guest, halting_run};

use crate::report_text;
use dr_history::{Event, History};
use dr_types::{Guest, Item, Listed, Op, Settings, SlotRow, Why};
use std::alloc::Global;
use std::test::Fail;

/// A guest of one page, whose one vCPU halts at once.
#[tactic(auto, unfolding(dr_history_sample_law::specs::Smallest::halting_guest))]
fn guest(alloc: Global) -> Result<Guest, Fail>
    ensures { IfOk result (λ guest. guest ≡ halting_guest) }
{
    let mut slots = Listed::new(alloc);
    slots.push(SlotRow {
        space: 0,
        id: 0,
        base: 0,
        pages: 1,
    })?;
    let mut script = Listed::new(alloc);
    script.push(Item::One(Op::Halt))?;
    let mut scripts = Listed::new(alloc);
    scripts.push(script)?;
    let settings = Settings {
        ring: 8,
        reserve: 2,
        buffer: 0,
        pace: 16,
        threshold: 0,
        rounds: 2,
        quota: 0,
    };
    Ok(Guest {
        version: 1,
        settings,
        slots,
        scripts,
    })
}

/// The migration of that guest.
#[tactic(auto, unfolding(dr_history_sample_law::specs::Smallest::halting_run))]
fn run(alloc: Global) -> Result<History, Fail>
    ensures { IfOk result (λ history. history.past ≡ halting_run 0) }
{
    let mut page = Listed::new(alloc);
    page.push(0)?;
    let mut history = History::new(alloc)?;
    history.push(Event::Halted { v: 0, i: 0 })?;
    history.push(Event::Exited {
        v: 0,
        why: Why::Halted,
    })?;
    history.push(Event::Start { at: 0 })?;
    history.push(Event::Asked { r: 1 })?;
    history.push(Event::Synced {
        r: 1,
        at: 0,
        pages: page,
    })?;
    history.push(Event::Copied { r: 1, page: 0 })?;
    history.push(Event::Asked { r: 2 })?;
    history.push(empty_answer(alloc, 2))?;
    history.push(Event::Stopped)?;
    history.push(Event::Asked { r: 3 })?;
    history.push(empty_answer(alloc, 3))?;
    history.push(Event::Switched)?;
    Ok(history)
}

/// An answer without a page.
fn empty_answer(alloc: Global, r: u32) -> Event
    ensures { result ≡ Event.Synced r 0 [] }
{
    Event::Synced {
        r,
        at: 0,
        pages: Listed::new(alloc),
    }
}

#[test]
fn the_smallest_run_is_reported(rt: HostRuntime) -> Result<(), Fail> {
    let guest = guest(rt.alloc())?;
    let history = run(rt.alloc())?;
    let text = report_text(rt.alloc(), &history, &guest)?;
    let expected = "guest pages 1 vcpus 1 ring 8 soft 6\n\
        round 1 dirty 1 copied 1 at 0\n  vcpu 0 entries 0 rate 0 throttle 0\n\
        round 2 dirty 0 copied 0 at 0\n  vcpu 0 entries 0 rate 0 throttle 0\n\
        round 3 dirty 0 copied 0 at 0\n  vcpu 0 entries 0 rate 0 throttle 0\n\
        vcpu 0 ops 1 full 0 kicked 0\nswitched\n";
    assert_eq!(rt; text.as_str(), expected);
    Ok(())
}
