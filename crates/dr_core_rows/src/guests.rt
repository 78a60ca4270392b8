ghost use Rattle.std.specs.Prelude.{◌≡◌, ◌≤◌, IfOk, length};
ghost use Rattle.dr_types.specs.Validity.{IsValid, IsScript};
ghost use Rattle.dr_types.specs.Scripts.{expanded};
ghost use Rattle.dr_core_rows.specs.Scripts.{idle, writing, two_writes, counting, one_slot};

use dr_types::{Guest, Item, Listed, Memory, Op, Settings, SlotRow};
use std::alloc::Global;

/// A guest of one vCPU, with a ring of 8 entries and pages from address 0 on.
fn small_guest(
    alloc: Global,
    buffer: u32,
    rounds: u32,
    quota: u64,
    pages: u32,
    script: Vec<Item>,
) -> Result<Guest, Memory>
    requires buffer { buffer ≤ 5 }
    requires some_rounds { 1 ≤ rounds }
    requires rounds { rounds ≤ 64 }
    requires quota { quota ≤ 1000000000 }
    requires some_pages { 1 ≤ pages }
    requires pages { pages ≤ 16 }
    requires script { IsScript (one_slot pages) script.items }
    requires short { length (expanded script.items) ≤ 200000 }
    ensures { IfOk result IsValid }
{
    let row = SlotRow {
        space: 0,
        id: 0,
        base: 0,
        pages,
    };
    let slots = vec![in alloc; row]?;
    let scripts = vec![in alloc; Listed::from_vec(script)]?;
    Ok(Guest {
        version: 1,
        settings: Settings {
            ring: 8,
            reserve: 2,
            buffer,
            pace: 1,
            threshold: 0,
            rounds,
            quota,
        },
        slots: Listed::from_vec(slots),
        scripts: Listed::from_vec(scripts),
    })
}

/// A guest that halts at once.
#[tactic(auto, using(crate::proofs::Small::idle_ops))]
pub fn idle_guest(alloc: Global) -> Result<Guest, Memory>
    ensures { IfOk result IsValid }
{
    small_guest(alloc, 0, 2, 0, 1, idle_script(alloc)?)
}

fn idle_script(alloc: Global) -> Result<Vec<Item>, Memory>
    ensures { IfOk result (λ script. script.items ≡ idle) }
{
    Ok(vec![in alloc; Item::One(Op::Halt)]?)
}

/// A guest that writes its only page twice.
#[tactic(auto, using(crate::proofs::Small::writing_ops))]
pub fn writing_guest(alloc: Global) -> Result<Guest, Memory>
    ensures { IfOk result IsValid }
{
    small_guest(alloc, 0, 3, 0, 1, writing_script(alloc)?)
}

fn writing_script(alloc: Global) -> Result<Vec<Item>, Memory>
    ensures { IfOk result (λ script. script.items ≡ writing) }
{
    Ok(vec![in alloc;
        Item::One(Op::A { n: 0 }),
        Item::One(Op::W {
            space: 0,
            addr: 0,
            len: 1,
            value: 1
        }),
        Item::One(Op::W {
            space: 0,
            addr: 0,
            len: 1,
            value: 2
        }),
        Item::One(Op::Halt),
    ]?)
}

/// A guest that writes each of two pages once, under a quota.
#[tactic(auto, using(crate::proofs::Small::two_page_ops))]
pub fn two_page_guest(alloc: Global) -> Result<Guest, Memory>
    ensures { IfOk result IsValid }
{
    small_guest(alloc, 2, 4, 100_000, 2, two_page_script(alloc)?)
}

fn two_page_script(alloc: Global) -> Result<Vec<Item>, Memory>
    ensures { IfOk result (λ script. script.items ≡ two_writes) }
{
    Ok(vec![in alloc;
        Item::One(Op::A { n: 1 }),
        Item::One(Op::W {
            space: 0,
            addr: 0,
            len: 1,
            value: 65
        }),
        Item::One(Op::W {
            space: 0,
            addr: 4_096,
            len: 2,
            value: 17_218
        }),
        Item::One(Op::Halt),
    ]?)
}

/// A guest that loads a number, adds one to it and stores it, twice.
#[tactic(auto, using(crate::proofs::Small::counting_ops))]
pub fn counting_guest(alloc: Global) -> Result<Guest, Memory>
    ensures { IfOk result IsValid }
{
    small_guest(alloc, 0, 2, 0, 1, counting_script(alloc)?)
}

fn counting_script(alloc: Global) -> Result<Vec<Item>, Memory>
    ensures { IfOk result (λ script. script.items ≡ counting) }
{
    let body = vec![in alloc;
        Op::R { space: 0, addr: 8 },
        Op::A { n: 1 },
        Op::S { space: 0, addr: 8 },
    ]?;
    let body = Listed::from_vec(body);
    Ok(vec![in alloc;
        Item::One(Op::F {
            space: 0,
            gfn: 0,
            byte: 7
        }),
        Item::One(Op::W {
            space: 0,
            addr: 9,
            len: 1,
            value: 1
        }),
        Item::Rep { n: 2, body },
        Item::One(Op::Halt),
    ]?)
}
