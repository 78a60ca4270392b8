use crate::{
    FileIdentity, FilePorts, Opener, OwnedFiles, Owner, PathOpener, PortCause, PortFault, PortPaths,
};
use Plan::{Refused, Takes, Unnamed};
use dr_io::{Outlet, Port, PortBook, PutTurn};
use dr_types::{Bytes, Listed};
use std::alloc::Global;
use std::cell::RefCell;
use std::io::{ErrorKind, Write};
use std::os::unix::fs::symlink;
use std::rc::Rc;
use std::test::Fail;
use std::{fs, io};

/// What the fakes were given: the bytes of each port, and a letter of the port for each write and
/// for each file that was opened, in their order.
#[derive(Drop)]
struct Record {
    book: PortBook,
    writes: Bytes,
    opened: Bytes,
}

type Shared = Rc<RefCell<Record>>;

fn new_record(alloc: Global) -> Result<Shared, Fail> {
    let record = Record {
        book: PortBook::new(alloc, Listed::new(alloc)),
        writes: Listed::new(alloc),
        opened: Listed::new(alloc),
    };
    Ok(Rc::new(alloc, RefCell::new(record))?)
}

fn letter(port: Port) -> u8 {
    match port {
        Port::Report => b'r',
        Port::Stream => b's',
        Port::Image => b'i',
        Port::Journal => b'j',
    }
}

fn broken() -> io::Error {
    io::Error::from(ErrorKind::BrokenPipe)
}

/// The letters of all writes so far are these.
fn has_written(record: &Shared, letters: &str) -> bool {
    match record.try_borrow() {
        Ok(record) => record.writes.as_slice() == letters.as_bytes(),
        Err(_) => false,
    }
}

/// The letters of all files that were opened so far are these.
fn has_opened(record: &Shared, letters: &str) -> bool {
    match record.try_borrow() {
        Ok(record) => record.opened.as_slice() == letters.as_bytes(),
        Err(_) => false,
    }
}

/// A port was given these bytes.
fn has_bytes(record: &Shared, port: Port, bytes: &[u8]) -> bool {
    match record.try_borrow() {
        Ok(record) => record.book.bytes(port) == bytes,
        Err(_) => false,
    }
}

/// What becomes of a port that a fake is to open.
#[derive(Clone, Copy, Debug, PartialEq, Eq)]
enum Plan {
    Unnamed,
    Refused,
    /// Takes at most `piece` bytes a write, and fails after this many writes.
    Takes { piece: usize, writes: u32 },
}

const WHOLE: Plan = Takes {
    piece: 1_000_000,
    writes: 1_000,
};

/// Its writes and its flushes fail.
const FAILS: Plan = Takes {
    piece: 1_000_000,
    writes: 0,
};

/// What becomes of all ports.
#[derive(Clone, Copy)]
struct Plans {
    /// How many writes the report takes.
    report: u32,
    stream: Plan,
    image: Plan,
    journal: Plan,
    /// A port whose file is the input's.
    owned: Option<Port>,
}

const ALL_WHOLE: Plans = Plans {
    report: 1_000,
    stream: WHOLE,
    image: WHOLE,
    journal: WHOLE,
    owned: None,
};

const NONE_NAMED: Plans = Plans {
    stream: Unnamed,
    image: Unnamed,
    journal: Unnamed,
    ..ALL_WHOLE
};

#[derive(Drop)]
struct FakeFile {
    record: Shared,
    port: Port,
    piece: usize,
    writes: u32,
}

impl Write for FakeFile {
    fn write(&mut self, buf: &[u8]) -> io::Result<usize> {
        if self.writes == 0 {
            return Err(broken());
        }
        self.writes -= 1;
        let n = buf.len().min(self.piece);
        let Ok(mut record) = self.record.try_borrow_mut() else {
            return Err(broken());
        };
        if record.writes.push(letter(self.port)).is_err() {
            return Err(broken());
        }
        match record.book.put(self.port, &buf[..n]) {
            PutTurn::Done => Ok(n),
            PutTurn::Failed => Err(broken()),
        }
    }

    fn flush(&mut self) -> io::Result<()> {
        if self.writes == 0 {
            return Err(broken());
        }
        Ok(())
    }
}

/// A file by a plan that takes bytes.
fn fake_file(record: &Shared, port: Port, plan: Plan) -> io::Result<FakeFile> {
    let Takes { piece, writes } = plan else {
        return Err(broken());
    };
    let Ok(mut kept) = record.try_borrow_mut() else {
        return Err(broken());
    };
    if kept.opened.push(letter(port)).is_err() {
        return Err(broken());
    }
    Ok(FakeFile {
        record: record.clone()?,
        port,
        piece,
        writes,
    })
}

#[derive(Drop)]
struct FakeOpener {
    record: Shared,
    plans: Plans,
}

impl FakeOpener {
    fn plan(&self, port: Port) -> Plan {
        match port {
            Port::Report => Unnamed,
            Port::Stream => self.plans.stream,
            Port::Image => self.plans.image,
            Port::Journal => self.plans.journal,
        }
    }
}

impl Opener for FakeOpener {
    type Writer = FakeFile;

    fn names(&self, port: Port) -> bool {
        self.plan(port) != Unnamed
    }

    fn check(&self) -> Result<(), PortFault> {
        let Some(port) = self.plans.owned else {
            return Ok(());
        };
        let cause = PortCause::Owned(Owner::Input);
        Err(PortFault { port, cause })
    }

    fn open(&mut self, port: Port) -> Option<Result<FakeFile, PortCause>> {
        match self.plan(port) {
            Unnamed => None,
            plan => Some(fake_file(&self.record, port, plan).map_err(PortCause::System)),
        }
    }
}

/// Fakes as ports, with the record of what they are given.
#[derive(Drop)]
struct Faked {
    record: Shared,
    ports: FilePorts<FakeFile, FakeOpener>,
}

/// Ports by these plans.
fn make_planned(alloc: Global, plans: Plans) -> Result<Faked, Fail> {
    let record = new_record(alloc)?;
    let report = FakeFile {
        record: record.clone()?,
        port: Port::Report,
        piece: 1_000_000,
        writes: plans.report,
    };
    let opener = FakeOpener {
        record: record.clone()?,
        plans,
    };
    Ok(Faked {
        record,
        ports: FilePorts::new(alloc, report, opener),
    })
}

/// A report that takes all, and ports by these plans.
fn make_faked(alloc: Global, stream: Plan, image: Plan, journal: Plan) -> Result<Faked, Fail> {
    let plans = Plans {
        stream,
        image,
        journal,
        ..ALL_WHOLE
    };
    make_planned(alloc, plans)
}

/// Nothing failed, at no put and at no flush.
fn is_whole<O: Opener>(ports: FilePorts<FakeFile, O>) -> bool {
    ports.finish().is_none()
}

/// The first fault is this port's, by the system.
fn failed_at(fault: Option<PortFault>, port: Port) -> bool {
    match fault {
        Some(
            PortFault {
                port: at,
                cause: PortCause::System(_),
            },
        ) => at == port,
        _ => false,
    }
}

/// How a put of these bytes ended.
fn put_on<O: Outlet>(out: &mut O, port: Port, bytes: &str) -> PutTurn {
    out.put(port, bytes.as_bytes())
}

#[test]
fn all_files_are_opened_at_the_first_put(rt: HostRuntime) -> Result<(), Fail> {
    for port in [Port::Report, Port::Stream, Port::Image, Port::Journal] {
        let Faked { record, mut ports } = make_faked(rt.alloc(), WHOLE, WHOLE, WHOLE)?;
        assert!(rt; has_opened(&record, ""));
        assert_eq!(rt; put_on(&mut ports, port, ""), PutTurn::Done);
        assert!(rt; has_opened(&record, "sij"));
        assert_eq!(rt; put_on(&mut ports, port, ""), PutTurn::Done);
        assert!(rt; has_opened(&record, "sij"));
    }
    Ok(())
}

#[test]
fn nothing_is_opened_without_a_put(rt: HostRuntime) -> Result<(), Fail> {
    let Faked { record, ports } = make_faked(rt.alloc(), WHOLE, WHOLE, WHOLE)?;
    assert!(rt; is_whole(ports));
    assert!(rt; has_opened(&record, ""));
    Ok(())
}

#[test]
fn a_file_that_cannot_be_opened_fails_its_own_puts(rt: HostRuntime) -> Result<(), Fail> {
    let Faked { record, mut ports } = make_faked(rt.alloc(), WHOLE, Refused, WHOLE)?;
    for (port, expected) in [
        (Port::Report, PutTurn::Done),
        (Port::Stream, PutTurn::Done),
        (Port::Image, PutTurn::Failed),
        (Port::Journal, PutTurn::Done),
        (Port::Image, PutTurn::Failed),
        (Port::Stream, PutTurn::Done),
    ] {
        assert_eq!(rt; put_on(&mut ports, port, "a"), expected);
    }
    assert!(rt; failed_at(ports.finish(), Port::Image));
    assert!(rt; has_opened(&record, "sj"));
    assert!(rt; has_written(&record, "rsjs"));
    Ok(())
}

#[test]
fn a_port_without_a_name_takes_all(rt: HostRuntime) -> Result<(), Fail> {
    let Faked { record, mut ports } = make_faked(rt.alloc(), WHOLE, Unnamed, Unnamed)?;
    for port in [Port::Stream, Port::Image, Port::Journal, Port::Stream] {
        assert_eq!(rt; put_on(&mut ports, port, "ab"), PutTurn::Done);
        assert!(rt; has_written(&record, ""));
    }
    assert!(rt; is_whole(ports));
    assert!(rt; has_written(&record, "s"));
    Ok(())
}

/// Puts of these sizes, each of a byte of its own, and what all of them are.
fn put_sizes<O: Outlet>(alloc: Global, out: &mut O) -> Result<Bytes, Fail> {
    let mut all = Listed::new(alloc);
    for (byte, size) in [
        (1, 3),
        (2, 65_533),
        (3, 1),
        (4, 65_536),
        (5, 0),
        (6, 65_537),
        (7, 65_535),
        (8, 2),
    ] {
        let bytes = vec![in alloc; byte; size]?;
        if out.put(Port::Stream, bytes.as_slice()) == PutTurn::Done {
            all.append(bytes.as_slice())?;
        }
    }
    Ok(all)
}

#[test]
fn bytes_come_whole_and_in_large_pieces(rt: HostRuntime) -> Result<(), Fail> {
    let Faked { record, mut ports } = make_faked(rt.alloc(), WHOLE, WHOLE, WHOLE)?;
    let all = put_sizes(rt.alloc(), &mut ports)?;
    assert!(rt; is_whole(ports));
    assert_eq!(rt; all.len(), 262_147);
    assert!(rt; has_bytes(&record, Port::Stream, all.as_slice()));
    assert!(rt; has_written(&record, "ssssss"));
    Ok(())
}

#[test]
fn bytes_come_whole_to_a_file_that_takes_few(rt: HostRuntime) -> Result<(), Fail> {
    let few = Takes {
        piece: 1_000,
        writes: 1_000,
    };
    let Faked { record, mut ports } = make_faked(rt.alloc(), few, WHOLE, WHOLE)?;
    let all = put_sizes(rt.alloc(), &mut ports)?;
    assert!(rt; is_whole(ports));
    assert_eq!(rt; all.len(), 262_147);
    assert!(rt; has_bytes(&record, Port::Stream, all.as_slice()));
    Ok(())
}

#[test]
fn a_put_on_another_port_writes_what_waits(rt: HostRuntime) -> Result<(), Fail> {
    let Faked { record, mut ports } = make_faked(rt.alloc(), WHOLE, WHOLE, WHOLE)?;
    for (port, expected) in [
        (Port::Stream, ""),
        (Port::Stream, ""),
        (Port::Journal, "sj"),
        (Port::Journal, "sjj"),
        (Port::Image, "sjj"),
        (Port::Image, "sjj"),
        (Port::Stream, "sjji"),
        (Port::Report, "sjjisr"),
        (Port::Image, "sjjisr"),
        (Port::Report, "sjjisrir"),
    ] {
        assert_eq!(rt; put_on(&mut ports, port, "ab"), PutTurn::Done);
        assert!(rt; has_written(&record, expected), "{expected}");
    }
    Ok(())
}

#[test]
fn a_failed_flush_fails_that_put(rt: HostRuntime) -> Result<(), Fail> {
    let Faked { record, mut ports } = make_faked(rt.alloc(), FAILS, WHOLE, WHOLE)?;
    for (port, expected) in [
        (Port::Stream, PutTurn::Done),
        (Port::Stream, PutTurn::Done),
        (Port::Journal, PutTurn::Failed),
        (Port::Journal, PutTurn::Done),
        (Port::Stream, PutTurn::Failed),
        (Port::Image, PutTurn::Done),
        (Port::Report, PutTurn::Done),
        (Port::Stream, PutTurn::Failed),
    ] {
        assert_eq!(rt; put_on(&mut ports, port, "a"), expected);
    }
    assert!(rt; failed_at(ports.finish(), Port::Stream));
    assert!(rt; has_written(&record, "jir"));
    Ok(())
}

/// A file that fails after this many writes, and takes two bytes a write.
fn pairs(writes: u32) -> Plan {
    Takes { piece: 2, writes }
}

#[test]
fn a_write_fails_in_mid_stream(rt: HostRuntime) -> Result<(), Fail> {
    for (writes, first, second, taken) in [
        (0, PutTurn::Failed, PutTurn::Failed, ""),
        (1, PutTurn::Failed, PutTurn::Failed, "ab"),
        (2, PutTurn::Done, PutTurn::Failed, "abcd"),
        (3, PutTurn::Done, PutTurn::Failed, "abcdef"),
        (4, PutTurn::Done, PutTurn::Done, "abcdefgh"),
    ] {
        let Faked { record, mut ports } = make_faked(rt.alloc(), Unnamed, Unnamed, pairs(writes))?;
        assert_eq!(rt; put_on(&mut ports, Port::Journal, "abcd"), first);
        assert_eq!(rt; put_on(&mut ports, Port::Journal, "efgh"), second);
        assert!(rt; has_bytes(&record, Port::Journal, taken.as_bytes()));
    }
    Ok(())
}

#[test]
fn finish_tells_of_what_could_not_be_written(rt: HostRuntime) -> Result<(), Fail> {
    for (port, stream, image, expected) in [
        (Port::Stream, WHOLE, WHOLE, true),
        (Port::Stream, FAILS, FAILS, false),
        (Port::Stream, pairs(1), WHOLE, false),
        (Port::Stream, pairs(2), WHOLE, false),
        (Port::Stream, pairs(3), WHOLE, true),
        (Port::Image, WHOLE, WHOLE, true),
        (Port::Image, WHOLE, FAILS, false),
    ] {
        let Faked {
            record: _,
            mut ports,
        } = make_faked(rt.alloc(), stream, image, Unnamed)?;
        assert_eq!(rt; put_on(&mut ports, port, "abcd"), PutTurn::Done);
        let fault = ports.finish();
        assert_eq!(rt; fault.is_none(), expected, "{port:?} {stream:?} {image:?}");
        assert_eq!(rt;
            failed_at(fault, port),
            !expected,
            "{port:?} {stream:?} {image:?}"
        );
    }
    Ok(())
}

/// The one write of a put goes well, and the flush at the end fails.
#[test]
fn finish_flushes_the_journal_and_the_report(rt: HostRuntime) -> Result<(), Fail> {
    let journal = Plans {
        journal: Takes {
            piece: 1_000_000,
            writes: 1,
        },
        ..NONE_NAMED
    };
    let report = Plans {
        report: 1,
        ..NONE_NAMED
    };
    for (port, plans) in [(Port::Journal, journal), (Port::Report, report)] {
        let Faked {
            record: _,
            mut ports,
        } = make_planned(rt.alloc(), plans)?;
        assert_eq!(rt; put_on(&mut ports, port, "a"), PutTurn::Done);
        assert!(rt; failed_at(ports.finish(), port), "{port:?}");
    }
    Ok(())
}

#[test]
fn finish_tells_the_first_fault(rt: HostRuntime) -> Result<(), Fail> {
    let Faked {
        record: _,
        mut ports,
    } = make_faked(rt.alloc(), FAILS, Refused, FAILS)?;
    for port in [Port::Stream, Port::Image, Port::Journal] {
        let expected = if port == Port::Stream {
            PutTurn::Done
        } else {
            PutTurn::Failed
        };
        assert_eq!(rt; put_on(&mut ports, port, "a"), expected, "{port:?}");
    }
    assert!(rt; failed_at(ports.finish(), Port::Image));
    Ok(())
}

#[test]
fn a_port_whose_file_is_the_inputs_fails_all_puts(rt: HostRuntime) -> Result<(), Fail> {
    let plans = Plans {
        owned: Some(Port::Journal),
        ..ALL_WHOLE
    };
    let Faked { record, mut ports } = make_planned(rt.alloc(), plans)?;
    for port in [Port::Stream, Port::Report, Port::Journal, Port::Image] {
        assert_eq!(rt; put_on(&mut ports, port, "a"), PutTurn::Failed, "{port:?}");
    }
    assert!(rt; has_opened(&record, ""));
    assert!(rt; has_written(&record, ""));
    match ports.finish() {
        Some(fault) => {
            assert_eq!(rt; fault.port, Port::Journal);
            assert!(rt; matches!(fault.cause, PortCause::Owned(Owner::Input)));
        }
        None => assert!(rt; false, "no fault"),
    }
    Ok(())
}

#[test]
fn ports_without_a_name_are_not_wanted(rt: HostRuntime) -> Result<(), Fail> {
    let Faked { record: _, ports } = make_faked(rt.alloc(), WHOLE, Unnamed, Refused)?;
    let wanted = [
        (Port::Report, true),
        (Port::Stream, true),
        (Port::Image, false),
        (Port::Journal, true),
    ];
    for (port, expected) in wanted {
        assert_eq!(rt; ports.is_wanted(port), expected, "{port:?}");
    }
    Ok(())
}

const FOLDER: &str = "dr_files_test";

const STREAM: &str = "dr_files_test/stream";

const JOURNAL: &str = "dr_files_test/journal";

/// Paths of which the image's lies in a folder that isn't there.
fn test_paths(alloc: Global) -> Result<PortPaths, Fail> {
    Ok(PortPaths {
        stream: Some(String::from_str(alloc, STREAM)?),
        image: Some(String::from_str(alloc, "dr_files_test/absent/image")?),
        journal: Some(String::from_str(alloc, JOURNAL)?),
    })
}

/// The file at the path has this text.
fn has_text(rt: &HostRuntime, path: &str, text: &str) -> bool {
    match fs::read_to_string(rt, path) {
        Ok(found) => found.as_str() == text,
        Err(_) => false,
    }
}

/// A folder with an earlier stream.
fn make_folder(rt: &HostRuntime) -> io::Result<()> {
    let _ = fs::remove_dir_all(rt, FOLDER);
    fs::create_dir(rt, FOLDER)?;
    fs::write(rt, STREAM, "earlier")
}

#[test]
fn bytes_reach_real_files(rt: HostRuntime) -> Result<(), Fail> {
    make_folder(&rt)?;
    let opener = PathOpener::new(&rt, test_paths(rt.alloc())?, OwnedFiles::new(None, None));
    let mut ports = FilePorts::new(rt.alloc(), io::sink(), opener);
    assert!(rt; has_text(&rt, STREAM, "earlier"));
    assert_eq!(rt; put_on(&mut ports, Port::Report, "report"), PutTurn::Done);
    assert!(rt; has_text(&rt, STREAM, ""));
    for (port, bytes, expected) in [
        (Port::Stream, "some ", PutTurn::Done),
        (Port::Image, "image", PutTurn::Failed),
        (Port::Journal, "journal", PutTurn::Done),
        (Port::Stream, "more", PutTurn::Done),
    ] {
        assert_eq!(rt; put_on(&mut ports, port, bytes), expected);
    }
    assert!(rt; failed_at(ports.finish(), Port::Image));
    assert!(rt; has_text(&rt, STREAM, "some more"));
    assert!(rt; has_text(&rt, JOURNAL, "journal"));
    assert!(rt; fs::remove_dir_all(&rt, FOLDER).is_ok());
    Ok(())
}

const LINK: &str = "dr_io_files_links/link";

/// A folder with a file, a link to it and a link to nothing.
fn make_links(rt: &HostRuntime) -> io::Result<()> {
    let _ = fs::remove_dir_all(rt, "dr_io_files_links");
    fs::create_dir(rt, "dr_io_files_links")?;
    fs::write(rt, "dr_io_files_links/file", "earlier")?;
    fs::hard_link(rt, "dr_io_files_links/file", LINK)?;
    symlink(rt, "absent", "dr_io_files_links/dangling")
}

/// The paths of a stream and of a journal in the folder of links.
fn link_paths(alloc: Global, stream: &str, journal: &str) -> Result<PortPaths, Fail> {
    Ok(PortPaths {
        stream: Some(format!(in alloc; "dr_io_files_links/{stream}")?),
        image: None,
        journal: Some(format!(in alloc; "dr_io_files_links/{journal}")?),
    })
}

/// Whose the file of a port is, where that is the first fault.
fn owner_at(fault: Option<PortFault>, at: Port) -> Option<Owner> {
    let PortFault { port, cause } = fault?;
    match cause {
        PortCause::Owned(owner) if port == at => Some(owner),
        _ => None,
    }
}

/// Whose the journal's file is besides, where stream and journal have these paths.
fn journal_owner(rt: &HostRuntime, stream: &str, journal: &str) -> Result<Option<Owner>, Fail> {
    make_links(rt)?;
    let paths = link_paths(rt.alloc(), stream, journal)?;
    let opener = PathOpener::new(rt, paths, OwnedFiles::new(None, None));
    let mut ports = FilePorts::new(rt.alloc(), io::sink(), opener);
    let _put = put_on(&mut ports, Port::Stream, "a");
    let _put = put_on(&mut ports, Port::Journal, "b");
    Ok(owner_at(ports.finish(), Port::Journal))
}

#[test]
fn two_ports_never_have_one_file(rt: HostRuntime) -> Result<(), Fail> {
    let stream = Some(Owner::Port(Port::Stream));
    // The paths of two ports, whether they are one file, and what is in the file of before.
    let rows = [
        ("file", "other", None, "a"),
        ("file", "file", stream, "earlier"),
        ("file", "./file", stream, "earlier"),
        ("file", "link", stream, "earlier"),
        ("new", "new", stream, "earlier"),
        ("dangling", "absent", stream, "earlier"),
    ];
    for (first, second, owner, kept) in rows {
        let found = journal_owner(&rt, first, second)?;
        assert_eq!(rt; found, owner, "{first} and {second}");
        assert!(rt; has_text(&rt, LINK, kept), "{first} and {second}");
    }
    assert!(rt; fs::remove_dir_all(&rt, "dr_io_files_links").is_ok());
    Ok(())
}

const INPUT: &str = "dr_io_files_input/guest";

/// The first fault, where the image's file is the guest file and these files have owners.
fn image_fault(rt: &HostRuntime, owned: OwnedFiles) -> Result<Option<PortFault>, Fail> {
    let paths = PortPaths {
        stream: None,
        image: Some(String::from_str(rt.alloc(), INPUT)?),
        journal: None,
    };
    let opener = PathOpener::new(rt, paths, owned);
    let mut ports = FilePorts::new(rt.alloc(), io::sink(), opener);
    let _put = put_on(&mut ports, Port::Report, "a");
    Ok(ports.finish())
}

#[test]
fn no_port_has_the_file_of_the_input(rt: HostRuntime) -> Result<(), Fail> {
    let folder = "dr_io_files_input";
    let _ = fs::remove_dir_all(&rt, folder);
    fs::create_dir(&rt, folder)?;
    fs::write(&rt, INPUT, "guest")?;
    let guest = FileIdentity::of_path(&rt, INPUT);
    let input = image_fault(&rt, OwnedFiles::new(guest, None))?;
    assert_eq!(rt; owner_at(input, Port::Image), Some(Owner::Input));
    let report = image_fault(&rt, OwnedFiles::new(None, guest))?;
    assert_eq!(rt;
        owner_at(report, Port::Image),
        Some(Owner::Port(Port::Report))
    );
    let both = image_fault(&rt, OwnedFiles::new(guest, guest))?;
    assert_eq!(rt; owner_at(both, Port::Report), Some(Owner::Input));
    assert!(rt; has_text(&rt, INPUT, "guest"));
    let free = image_fault(&rt, OwnedFiles::new(None, None))?;
    assert!(rt; free.is_none());
    assert!(rt; has_text(&rt, INPUT, ""));
    assert!(rt; fs::remove_dir_all(&rt, folder).is_ok());
    Ok(())
}
