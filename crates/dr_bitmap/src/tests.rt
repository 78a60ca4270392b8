ghost use Rattle.std.specs.Prelude.{◌≡◌, ◌≤◌, replicate, length, IfOk};
ghost use Rattle.dr_bitmap.specs.Members.{members};

use crate::Bitmap;
use dr_types::{Listed, Memory, PageList};
use std::alloc::Global;
use std::test::Fail;

/// The members, one after the other.
#[tactic(auto, using(crate::proofs::Walks::walk_steps))]
fn listed(alloc: Global, bitmap: &Bitmap) -> Result<PageList, Memory>
    ensures { IfOk result (λ pages. pages ≡ members bitmap.now) }
{
    let _len = bitmap.len();
    let mut pages = Listed::new(alloc);
    let mut next = 0;
    while let Some(member) = bitmap.next_from(next) {
        pages.push(member)?;
        next = member + 1;
    }
    Ok(pages)
}

#[test]
fn a_member_comes_in_and_goes_out(rt: HostRuntime) -> Result<(), Fail> {
    let mut bitmap = Bitmap::new(rt.alloc(), 70)?;
    assert_eq!(rt; bitmap.len(), 70);
    assert!(rt; !bitmap.set(69));
    assert!(rt; bitmap.set(69));
    assert!(rt; bitmap.contains(69));
    assert_eq!(rt; bitmap.next_from(3), Some(69));
    assert_eq!(rt; bitmap.count(), 1);
    assert!(rt; bitmap.take(69));
    assert!(rt; !bitmap.take(69));
    assert_eq!(rt; bitmap.count(), 0);
    assert_eq!(rt; bitmap.next_from(0), None);
    bitmap.set_all();
    assert_eq!(rt; bitmap.count(), 70);
    Ok(())
}

/// A set of these members, of the numbers below 16,384.
fn set_of(alloc: Global, members: &[u32]) -> Result<Bitmap, Fail> {
    let mut bitmap = Bitmap::new(alloc, 16384)?;
    for member in members {
        if *member < bitmap.len() {
            let _was = bitmap.set(*member);
        }
    }
    Ok(bitmap)
}

#[test]
fn a_walk_finds_each_member(rt: HostRuntime) -> Result<(), Fail> {
    let members = [0, 63, 64, 4095, 4096, 16383];
    let bitmap = set_of(rt.alloc(), members.as_slice())?;
    assert_eq!(rt; bitmap.count(), 6);
    for (from, member) in [
        (0, 0),
        (1, 63),
        (64, 64),
        (65, 4095),
        (4096, 4096),
        (4097, 16383),
    ] {
        assert_eq!(rt; bitmap.next_from(from), Some(member), "from {from}");
    }
    for past in [16384, 16385, u32::MAX] {
        assert_eq!(rt; bitmap.next_from(past), None, "from {past}");
    }
    assert!(rt; listed(rt.alloc(), &bitmap)?.as_slice() == members.as_slice());
    Ok(())
}
