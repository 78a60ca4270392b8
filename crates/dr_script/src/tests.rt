ghost use Rattle.std.specs.Prelude.{IfOk};
ghost use Rattle.dr_script.specs.Places.{AllRun};

use crate::{Reader, next_acc, op_at};
use dr_types::{Item, Op, OpList, Script};
use std::alloc::{AllocError, Global};
use std::test::Fail;

/// `a 1`, twice `a 2`, `halt`.
fn short_script(alloc: Global) -> Result<Script, AllocError>
    ensures { IfOk result AllRun }
{
    let body = OpList::from_vec([Op::A { n: 2 }].to_vec(alloc)?);
    let mut items = Vec::new(alloc);
    items.push(Item::One(Op::A { n: 1 }))?;
    items.push(Item::Rep { n: 2, body })?;
    items.push(Item::One(Op::Halt))?;
    Ok(Script::from_vec(items))
}

#[test]
fn reads_a_script(rt: HostRuntime) -> Result<(), Fail> {
    let script = short_script(rt.alloc())?;
    let mut acc = u64::MAX;
    for (i, sum) in [0, 2, 4].iter().enumerate() {
        let op = op_at(&script, i as u32).ok_or("no op")?;
        acc = next_acc(acc, op, 7);
        assert_eq!(rt; acc, *sum, "after op {i}");
    }
    assert_eq!(rt; op_at(&script, 3), Some(Op::Halt));
    assert_eq!(rt; op_at(&script, 4), None);
    assert_eq!(rt; next_acc(acc, Op::R { space: 0, addr: 0 }, 7), 7);
    let mut reader = Reader::new(short_script(rt.alloc())?);
    for i in 0..5 {
        assert_eq!(rt; reader.next(), op_at(&script, i), "op {i}");
        reader.advance();
    }
    Ok(())
}
