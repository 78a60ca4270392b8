use crate::guests::{IN_EIGHT, IN_SIXTEEN, ONE_PAGE, TWELVE_PAGES, many_pages, text_of};
use crate::rows::{Row, holds};
use dr_guestfile::read_guest;
use dr_machine::rings_for;
use dr_types::Memory;
use std::alloc::Global;
use std::marker::Brand;
use std::test::Fail;
use std::thread::Threads;

/// The row holds of the guest of a text.
fn holds_of<R: Threads>(rt: &R, alloc: Global, text: &str, row: Row) -> Result<bool, Memory> {
    match read_guest(alloc, text.as_bytes()) {
        Ok(guest) => {
            let set = rings_for(alloc, &guest)?;
            holds::<Brand, R>(rt, alloc, guest, set, row)
        }
        Err(_) => Ok(false),
    }
}

/// A batch of entries that were deposited before comes back.
#[test]
fn entries_are_deposited_once(rt: HostRuntime) -> Result<(), Fail> {
    let text = text_of(rt.alloc(), IN_EIGHT, TWELVE_PAGES)?;
    assert!(rt; holds_of(&rt, rt.alloc(), text.as_str(), Row::Once)?);
    Ok(())
}

/// Batches may be deposited in any order, and entries are reset in rising order.
#[test]
fn resets_rise(rt: HostRuntime) -> Result<(), Fail> {
    let text = text_of(rt.alloc(), IN_SIXTEEN, TWELVE_PAGES)?;
    assert!(rt; holds_of(&rt, rt.alloc(), text.as_str(), Row::Reversed)?);
    Ok(())
}

/// After a reset and a flush a page is opened again.
#[test]
fn a_page_is_opened_again(rt: HostRuntime) -> Result<(), Fail> {
    let text = text_of(rt.alloc(), IN_EIGHT, ONE_PAGE)?;
    assert!(rt; holds_of(&rt, rt.alloc(), text.as_str(), Row::Again)?);
    Ok(())
}

/// The collector harvests on one thread while the machine pushes and resets on another.
#[test]
fn two_threads_share_a_ring(rt: HostRuntime) -> Result<(), Fail> {
    let text = many_pages(rt.alloc())?;
    assert!(rt; holds_of(&rt, rt.alloc(), text.as_str(), Row::Threads)?);
    Ok(())
}
