ghost use Rattle.std.specs.Prelude.{◌≡◌};

use crate::PageStore;
use std::test::Fail;

/// How many bytes of a page are this one.
fn count_of(bytes: &[u8], byte: u8) -> usize {
    bytes.iter().filter(|it| **it == byte).count()
}

#[test]
fn pages_are_zero_until_written(rt: HostRuntime) -> Result<(), Fail> {
    let mut store = PageStore::new(rt.alloc(), 3)?;
    assert_eq!(rt; count_of(store.page(1), 0), 4096);
    assert_eq!(rt; store.has_room(1), false);
    assert_eq!(rt; store.read8(1, 4088), 0);
    store.make_room(1)?;
    assert_eq!(rt; store.has_room(1), true);
    store.write(1, 4089, 7, 0x1122_3344_5566_7788);
    assert_eq!(rt; store.read8(1, 4088), 0x2233_4455_6677_8800);
    assert_eq!(rt; count_of(store.page(1), 0), 4089);
    assert_eq!(rt; count_of(store.page(2), 0), 4096);
    Ok(())
}

#[test]
fn a_fork_has_the_same_pages(rt: HostRuntime) -> Result<(), Fail> {
    let mut store = PageStore::new(rt.alloc(), 2)?;
    store.make_room(0)?;
    store.paint(0, 0xff);
    let fork = store.fork()?;
    assert_eq!(rt; count_of(fork.page(0), 0xff), 4096);
    assert_eq!(rt; fork.has_room(0), true);
    assert_eq!(rt; fork.has_room(1), false);
    Ok(())
}

#[test]
fn a_page_is_zero_while_each_byte_is(rt: HostRuntime) -> Result<(), Fail> {
    let mut store = PageStore::new(rt.alloc(), 2)?;
    assert_eq!(rt; store.is_zero(1), true);
    store.make_room(1)?;
    assert_eq!(rt; store.is_zero(1), true);
    store.write(1, 4095, 1, 1);
    assert_eq!(rt; store.is_zero(1), false);
    store.write(1, 4095, 1, 0);
    assert_eq!(rt; store.is_zero(1), true);
    store.paint(1, 0x80);
    assert_eq!(rt; store.is_zero(1), false);
    assert_eq!(rt; store.is_zero(0), true);
    Ok(())
}
