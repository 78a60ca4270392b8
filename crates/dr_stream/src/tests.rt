ghost use Rattle.std.specs.Prelude.{◌≡◌};

use crate::Sender;
use dr_io::{Outlet, PortBook, PutTurn};
use dr_types::limits::PAGE_BYTES;
use dr_types::{Listed, NumberList, Port};
use std::test::Fail;

/// Sends a stream of one page, two rounds and some zeros, and says how each of the six puts
/// ended.
fn send<O: Outlet>(mut sender: Sender<O>) -> (O, [PutTurn; 6])
    requires { sender.records ≡ 0 }
{
    let turns = [
        sender.header(10),
        sender.round(1),
        sender.page(0, &[0x5a; PAGE_BYTES]),
        sender.round(3),
        sender.zeros(7, 3),
        sender.finish(),
    ];
    (sender.into_outlet(), turns)
}

#[test]
fn a_stream_has_its_parts(rt: HostRuntime) -> Result<(), Fail> {
    let book = PortBook::new(rt.alloc(), Listed::new(rt.alloc()));
    let (book, turns) = send(Sender::new(book));
    assert_eq!(rt; turns, [PutTurn::Done; 6]);
    let bytes = book.bytes(Port::Stream);
    assert_eq!(rt; bytes.len(), 4156);
    let head = b"DRSTREAM\x02\0\0\0\x0a\0\0\0\x01\0\0\0\x01\0\0\0\x02\0\0\0\0\0\0\0";
    assert!(rt; bytes.starts_with(head));
    assert_eq!(rt; bytes.iter().filter(|byte| **byte == 0x5a).count(), 4096);
    let zeros = b"\x01\0\0\0\x03\0\0\0\x04\0\0\0\x07\0\0\0\x03\0\0\0\x03\0\0\0\x02\0\0\0";
    assert!(rt; bytes.ends_with(zeros));
    Ok(())
}

#[test]
fn each_part_is_one_put(rt: HostRuntime) -> Result<(), Fail> {
    for (put, len) in [
        (1, 4140),
        (2, 4148),
        (3, 52),
        (4, 4148),
        (5, 4144),
        (6, 4148),
        (7, 4156),
    ] {
        let mut fails: NumberList = Listed::new(rt.alloc());
        fails.push(put)?;
        let (book, turns) = send(Sender::new(PortBook::new(rt.alloc(), fails)));
        let failed = turns.iter().position(|turn| *turn == PutTurn::Failed);
        assert_eq!(rt; failed.is_some(), put < 7, "put {put}");
        assert_eq!(rt; book.bytes(Port::Stream).len(), len, "put {put}");
        assert!(rt; book.bytes(Port::Report).is_empty());
    }
    Ok(())
}
