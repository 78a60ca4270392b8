use crate::paths::NamedPaths;
use dr_guestfile_explain::{Explained, explain};
use dr_io::Port;
use dr_io_files::{Owner, PortCause, PortFault};
use dr_shell::Shown;
use dr_stream_explain::Trouble;
use dr_types::limits::{MOST_GUEST_BYTES, MOST_STREAM_BYTES};
use dr_types::{FileFault, Memory, Status, StreamFault};
use std::io;

/// What a guest whose rounds are spent came to.
#[derive(Clone, Copy, Debug, PartialEq, Eq)]
pub struct Spent {
    /// How many rounds it has, all of which are spent.
    pub rounds: u32,
    /// How many pages were dirty in the last.
    pub dirty: usize,
    /// With how many it would have been stopped.
    pub threshold: u32,
}

/// What the program knows of a command that was not done.
#[derive(Drop)]
pub struct Refusal<'a> {
    pub status: Status,
    pub paths: NamedPaths<'a>,
    /// The bytes that were read, where they were kept.
    pub file: Option<&'a [u8]>,
    /// What helps to find the damage, where a migration stream is refused.
    pub trouble: Option<Trouble>,
    /// Why the last read failed that did.
    pub unread: Option<io::Error>,
    /// The first port that failed.
    pub unwritten: Option<PortFault>,
    /// What its rounds came to, where they are spent.
    pub spent: Option<Spent>,
}

impl<'a> Refusal<'a> {
    /// What the input is called: its path, or standard input.
    fn input(&self) -> Shown<'a> {
        Shown {
            text: self.paths.input().unwrap_or("standard input"),
        }
    }
}

/// The usage of the program, with examples.
const USAGE: &str = "\
usage: dirtyring_cli step [--in PATH] [--stream PATH] [--image PATH] [--journal PATH]
       dirtyring_cli run [--in PATH] [--stream PATH] [--image PATH] [--journal PATH]
       dirtyring_cli load [--in PATH] [--image PATH]

step and run migrate the guest of a guest file, and print a report of it. With step its vCPUs run
on one thread, always in the same order; with run each is a thread of its own. load checks a
migration stream, and loads the memory that it carries.

  --in PATH       the guest file, or the stream of load; without it, standard input is read
  --stream PATH   where the migration stream goes
  --image PATH    where the memory at the destination goes
  --journal PATH  where the journal of all events goes

A port without a path is discarded. For example:
  dirtyring_cli step --in examples/counters.guest --stream counters.stream
  dirtyring_cli load --in counters.stream --image counters.image
";

/// Prints why a guest file is refused: its place, and what helps to mend it.
fn print_fault(
    rt: &(impl Eprint + AllocGlobal),
    refusal: &Refusal<'_>,
    why: FileFault,
) -> Result<(), io::Error> {
    let input = refusal.input();
    let explained = match refusal.file {
        Some(file) => explain(rt.alloc(), file, why),
        None => Err(Memory),
    };
    match explained {
        Ok(
            Explained {
                line: Some(line),
                text,
            },
        ) => eprintln!(rt; "{input}:{line}: {}", text.as_str()),
        Ok(Explained { line: None, text }) => eprintln!(rt; "{input}: {}", text.as_str()),
        Err(_) => eprintln!(rt; "{input}: {why}"),
    }
}

/// Prints why a migration stream is refused: its place, and what helps to find the damage.
fn print_trouble(
    rt: &impl Eprint,
    refusal: &Refusal<'_>,
    why: StreamFault,
) -> Result<(), io::Error> {
    let input = refusal.input();
    match refusal.trouble {
        Some(trouble) => eprintln!(rt; "{input}: {trouble}"),
        None => eprintln!(rt; "{input}: {why}"),
    }
}

/// Prints how many bytes the input may have.
fn print_too_long(rt: &impl Eprint, refusal: &Refusal<'_>) -> Result<(), io::Error> {
    let input = refusal.input();
    if refusal.paths.is_load() {
        eprintln!(rt; "{input}: a migration stream has at most {MOST_STREAM_BYTES} bytes")
    } else {
        eprintln!(rt; "{input}: a guest file has at most {MOST_GUEST_BYTES} bytes")
    }
}

/// The option that names a port, or standard output.
fn option_of(port: Port) -> &'static str {
    match port {
        Port::Report => "standard output",
        Port::Stream => "--stream",
        Port::Image => "--image",
        Port::Journal => "--journal",
    }
}

/// Prints the port that can't be written, by its option and its path.
fn print_port(rt: &impl Eprint, paths: NamedPaths<'_>, port: Port) -> Result<(), io::Error> {
    eprint!(rt; "dirtyring_cli: {}", option_of(port))?;
    if let Some(path) = paths.port(port) {
        eprint!(rt; " {}", Shown { text: path })?;
    }
    eprint!(rt; ": can't be written: ")
}

/// Prints which port can't be written, and why.
fn print_unwritten(
    rt: &impl Eprint,
    paths: NamedPaths<'_>,
    fault: PortFault,
) -> Result<(), io::Error> {
    print_port(rt, paths, fault.port)?;
    match fault.cause {
        PortCause::System(why) => eprintln!(rt; "{why}"),
        PortCause::Owned(Owner::Input) => eprintln!(rt; "the input is read from this file"),
        PortCause::Owned(Owner::Port(port)) => {
            eprintln!(rt; "{} goes to this file too", option_of(port))
        }
    }
}

/// Prints what a guest whose rounds are spent came to.
fn print_spent(rt: &impl Eprint, spent: Option<Spent>) -> Result<(), io::Error> {
    match spent {
        Some(
            Spent {
                rounds,
                dirty,
                threshold,
            },
        ) => eprintln!(rt;
            "dirtyring_cli: unfinished: all rounds are spent ({rounds}); \
             dirty pages in the last: {dirty}, threshold: {threshold}"
        ),
        None => eprintln!(rt; "dirtyring_cli: unfinished: all rounds are spent"),
    }
}

/// Prints that the input can't be read, and why.
fn print_unread(
    rt: &impl Eprint,
    input: Shown<'_>,
    why: Option<io::Error>,
) -> Result<(), io::Error> {
    match why {
        Some(why) => eprintln!(rt; "{input}: can't be read: {why}"),
        None => eprintln!(rt; "{input}: can't be read"),
    }
}

/// Prints why a command was not done.
fn print_status(rt: &(impl Eprint + AllocGlobal), refusal: &Refusal<'_>) -> Result<(), io::Error> {
    let input = refusal.input();
    match refusal.status {
        Status::Done | Status::Outlet => Ok(()),
        Status::Words => print_usage(rt),
        Status::GuestFile(why) => print_fault(rt, refusal, why),
        Status::JournalText { line } => eprintln!(rt; "{input}:{line}: not an event"),
        Status::Unfinished => print_spent(rt, refusal.spent),
        Status::Source => print_unread(rt, input, refusal.unread),
        Status::Memory => print_no_memory(rt),
        Status::IllegalJournal { event, rule } => {
            eprintln!(rt; "{input}: event {event} of the journal breaks rule {rule}")
        }
        Status::BadStream(why) => print_trouble(rt, refusal, why),
        Status::TooLong => print_too_long(rt, refusal),
    }
}

/// Prints the usage.
pub fn print_usage(rt: &impl Eprint) -> Result<(), io::Error> {
    eprint!(rt; "{USAGE}")
}

/// Prints that the standard descriptors can't be kept from the files of ports.
pub fn print_unheld(rt: &impl Eprint, why: io::Error) -> Result<(), io::Error> {
    eprintln!(rt; "dirtyring_cli: the standard descriptors can't be held: {why}")
}

/// Prints that memory ran out.
pub fn print_no_memory(rt: &impl Eprint) -> Result<(), io::Error> {
    eprintln!(rt; "dirtyring_cli: out of memory")
}

/// Prints why a command was not done, and which port could not be written.
pub fn print_refusal(
    rt: &(impl Eprint + AllocGlobal),
    refusal: &Refusal<'_>,
) -> Result<(), io::Error> {
    print_status(rt, refusal)?;
    match refusal.unwritten {
        Some(fault) => print_unwritten(rt, refusal.paths, fault),
        None => Ok(()),
    }
}
