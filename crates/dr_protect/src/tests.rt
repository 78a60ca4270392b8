ghost use Rattle.std.specs.Prelude.{◌≡◌, ◌<◌, IfOk};
ghost use Rattle.dr_types.specs.Validity.{AreSlots};
ghost use Rattle.dr_types.specs.Pages.{pages_of_slots};

use crate::Protect;
use dr_types::{Listed, SlotList, SlotRow};
use std::alloc::Global;
use std::test::Fail;

/// The first and the last bit of a mask.
const FIRST_AND_LAST: u64 = 0x8000_0000_0000_0001;

/// Slot 5 of two pages, 0 and 1, and slot 7 of 66, from 2 to 67.
#[tactic(auto, using(crate::proofs::Samples::two_are_slots))]
fn two_slots(alloc: Global) -> Result<SlotList, Fail>
    ensures slots { IfOk result AreSlots }
    ensures pages { IfOk result (λ rows. pages_of_slots rows ≡ 68) }
{
    Ok(Listed::from_vec(vec![in alloc;
        SlotRow {
            space: 0,
            id: 5,
            base: 100,
            pages: 2
        },
        SlotRow {
            space: 0,
            id: 7,
            base: 0,
            pages: 66
        },
    ]?))
}

/// Their pages, where two vCPUs run.
fn two_vcpus(alloc: Global) -> Result<Protect, Fail>
    ensures vcpus { IfOk result (λ it. it.vcpus ≡ 2) }
    ensures pages { IfOk result (λ it. it.pages ≡ 68) }
{
    Ok(Protect::new(alloc, &two_slots(alloc)?, 2)?)
}

/// These pages may not be written, and all others may be.
fn protects(protect: &Protect, pages: &[u32]) -> bool
    requires { protect.now.pages ≡ 68 }
{
    for page in 0..68 {
        if protect.writable(page) == pages.contains(&page) {
            return false;
        }
    }
    true
}

/// A vCPU has these pages cached, and no other.
fn caches(protect: &Protect, v: u32, pages: &[u32]) -> bool
    requires vcpu { v < protect.now.vcpus }
    requires pages { protect.now.pages ≡ 68 }
{
    for page in 0..68 {
        if protect.cached(v, page) != pages.contains(&page) {
            return false;
        }
    }
    true
}

/// Protects what a mask names. Answers whether these pages, and no others, are protected then.
fn mask_protects(protect: &mut Protect, slot: u32, base: u64, mask: u64, pages: &[u32]) -> bool
    requires { protect.old.pages ≡ 68 }
    ensures { protect.new.pages ≡ 68 }
{
    protect.protect_mask(slot, base, mask);
    protects(protect, pages)
}

#[test]
fn a_mask_protects_the_pages_that_it_names(rt: HostRuntime) -> Result<(), Fail> {
    let mut protect = two_vcpus(rt.alloc())?;
    assert!(rt; mask_protects(&mut protect, 7, 0, 0, &[]));
    assert!(rt; mask_protects(&mut protect, 7, 2, FIRST_AND_LAST, &[4, 67]));
    assert!(rt; mask_protects(&mut protect, 5, 0, 2, &[1, 4, 67]));
    Ok(())
}

#[test]
fn a_mask_passes_over_places_in_no_slot(rt: HostRuntime) -> Result<(), Fail> {
    let mut protect = two_vcpus(rt.alloc())?;
    assert!(rt; mask_protects(&mut protect, 6, 0, FIRST_AND_LAST, &[]));
    assert!(rt; mask_protects(&mut protect, 7, u64::MAX, u64::MAX, &[]));
    assert!(rt; mask_protects(&mut protect, 7, 3, FIRST_AND_LAST, &[5]));
    Ok(())
}

/// Opens page 3 for the first vCPU and fills it for the second, which opens page 67.
fn share(protect: &mut Protect)
    requires vcpus { protect.old.vcpus ≡ 2 }
    requires pages { protect.old.pages ≡ 68 }
    ensures vcpus { protect.new.vcpus ≡ 2 }
    ensures pages { protect.new.pages ≡ 68 }
{
    protect.open_page(0, 3);
    if protect.writable(3) {
        protect.fill(1, 3);
    }
    protect.open_page(1, 67);
}

#[test]
fn a_flush_takes_each_cached_page_of_both_vcpus(rt: HostRuntime) -> Result<(), Fail> {
    let mut protect = two_vcpus(rt.alloc())?;
    share(&mut protect);
    assert!(rt; caches(&protect, 0, &[3]) && caches(&protect, 1, &[3, 67]));
    protect.flush();
    assert!(rt; caches(&protect, 0, &[]) && caches(&protect, 1, &[]));
    assert!(rt; protects(&protect, &[]));
    Ok(())
}

#[test]
fn where_logging_starts_nothing_may_be_written(rt: HostRuntime) -> Result<(), Fail> {
    let mut protect = two_vcpus(rt.alloc())?;
    share(&mut protect);
    protect.start();
    assert!(rt; !protect.writable(0) && !protect.writable(67));
    assert!(rt; caches(&protect, 0, &[]) && caches(&protect, 1, &[]));
    Ok(())
}

#[test]
fn a_protected_page_stays_cached(rt: HostRuntime) -> Result<(), Fail> {
    let mut protect = two_vcpus(rt.alloc())?;
    protect.open_page(1, 5);
    protect.protect_page(5);
    assert!(rt; protects(&protect, &[5]));
    assert!(rt; caches(&protect, 0, &[]) && caches(&protect, 1, &[5]));
    Ok(())
}
