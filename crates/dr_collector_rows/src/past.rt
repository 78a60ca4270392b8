use dr_history::Event;
use dr_machine::Machine;
use dr_ring::Name;
use dr_types::Memory;
use std::alloc::Global;

/// The events end with these lines.
pub fn ends_with<N: Name>(
    alloc: Global,
    machine: &Machine<N>,
    lines: &str,
) -> Result<bool, Memory> {
    let text = machine.history().text(alloc)?;
    Ok(text.as_str().ends_with(lines))
}

/// What the events of one vCPU came to: how many entries are pushed, how many are reset, where its
/// last deposit begins, and how many deposits in a row ended where the one before them began.
#[derive(Clone, Copy)]
struct Count {
    pushed: u64,
    reset: u64,
    from: u64,
    row: u64,
    most: u64,
}

const NOTHING: Count = Count {
    pushed: 0,
    reset: 0,
    from: 0,
    row: 0,
    most: 0,
};

/// The count after an event; `None` where it pushes or resets an entry that isn't the next, or
/// resets one that isn't pushed.
fn after(so_far: Count, event: &Event) -> Option<Count> {
    match event {
        Event::Pushed { v: _, k } if *k == so_far.pushed => Some(Count {
            pushed: k.saturating_add(1),
            ..so_far
        }),
        Event::Reset { v: _, k } if *k == so_far.reset && *k < so_far.pushed => Some(Count {
            reset: k.saturating_add(1),
            ..so_far
        }),
        Event::Pushed { v: _, k: _ } | Event::Reset { v: _, k: _ } => None,
        Event::Deposited { v: _, from, to } => {
            let row = if *to == so_far.from {
                so_far.row.saturating_add(1)
            } else {
                0
            };
            let most = so_far.most.max(row);
            Some(Count {
                from: *from,
                row,
                most,
                ..so_far
            })
        }
        _ => Some(so_far),
    }
}

/// So many entries of a guest of one vCPU are pushed and reset, each in rising order, and at least
/// three deposits came one after the other in falling order.
pub fn all_reset(events: &[Event], entries: u64) -> bool {
    let mut so_far = NOTHING;
    for event in events {
        match after(so_far, event) {
            Some(next) => so_far = next,
            None => return false,
        }
    }
    so_far.pushed == entries && so_far.reset == entries && so_far.most >= 2
}
