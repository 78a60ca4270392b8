//! The program: reads a guest file, migrates its guest over the dirty log, and writes what came of
//! it; or reads a migration stream, and writes the memory that it carries.
#![tactic(auto)]

mod standard;

use crate::standard::hold_standard;
use dr_history::Event;
use dr_input::{InputFile, KeptSource, NotedReader};
use dr_io::{ReadSource, Source};
use dr_io_files::{FileIdentity, FilePorts, OwnedFiles, PathOpener, PortPaths};
use dr_machine::Kept;
use dr_refusal::{
    NamedPaths, Refusal, Spent, explain_end, refuse_memory, refuse_unheld, refuse_words,
};
use dr_stream_explain::Trouble;
use dr_top::{CommandEnd, command};
use dr_types::Status;
use std::alloc::Global;
use std::cell::Cell;
use std::process::ExitCode;
use std::rt::Files;
use std::{env, fs, io};

/// The words after the program's name.
fn command_words(rt: &HostRuntime) -> Result<Vec<String>, io::Error> {
    let mut words = Vec::new(rt.alloc());
    for word in env::args(rt)?.skip(1) {
        words.push(word)?;
    }
    Ok(words)
}

/// The file at a path, or standard input where there is none.
fn open_input<R: Files + Input>(rt: &R, path: Option<&str>) -> InputFile<R::Reader, R::File> {
    match path {
        None => InputFile::Standard(rt.reader()),
        Some(path) => match fs::open(rt, path) {
            Ok(file) => InputFile::Named(file),
            Err(why) => InputFile::Unopened(why),
        },
    }
}

/// The files that no port may have: the input's, and the one that standard output goes to.
fn owned_files<R: Files>(rt: &R, input: Option<&str>) -> OwnedFiles {
    OwnedFiles::new(
        FileIdentity::of_path(rt, input.unwrap_or("/dev/stdin")),
        FileIdentity::of_path(rt, "/dev/stdout"),
    )
}

/// What a run whose rounds are spent came to.
fn spent_of(kept: &Kept) -> Option<Spent> {
    let settings = &kept.guest().settings;
    for event in kept.history().events().iter().rev() {
        if let Event::Synced { pages, .. } = event {
            return Some(Spent {
                rounds: settings.rounds,
                dirty: pages.len(),
                threshold: settings.threshold,
            });
        }
    }
    None
}

/// What is known of a command that ended so, but for what its ends tell.
fn refusal_of<'a>(
    words: &'a [String],
    file: Option<&'a [u8]>,
    status: Status,
    trouble: Option<Trouble>,
    spent: Option<Spent>,
) -> Refusal<'a> {
    let paths = NamedPaths::of(words);
    Refusal {
        status,
        paths,
        file,
        trouble,
        unread: None,
        unwritten: None,
        spent,
    }
}

/// The source of a command: of a migration stream, which may be long, no copy is kept.
fn kept_source<S: Source + Drop>(
    alloc: Global,
    paths: &NamedPaths<'_>,
    source: S,
) -> KeptSource<S> {
    if paths.is_load() {
        KeptSource::keeping_nothing(source)
    } else {
        KeptSource::new(alloc, source)
    }
}

/// The words of the program and the paths of its ports, or the exit code where they can't be had.
fn begin(rt: &HostRuntime) -> Result<(Vec<String>, PortPaths), u8> {
    let words = match command_words(rt) {
        Ok(words) => words,
        Err(why) => return Err(refuse_words(rt, why)),
    };
    match NamedPaths::of(words.as_slice()).ports() {
        Ok(ports) => Ok((words, ports)),
        Err(_) => Err(refuse_memory(rt)),
    }
}

fn main(rt: HostRuntime) -> Result<ExitCode, io::Error> {
    let _held = match hold_standard(&rt) {
        Ok(held) => held,
        Err(why) => return Ok(ExitCode::from(refuse_unheld(&rt, why))),
    };
    let (words, ports) = match begin(&rt) {
        Ok(begun) => begun,
        Err(code) => return Ok(ExitCode::from(code)),
    };
    let alloc = rt.alloc();
    let paths = NamedPaths::of(words.as_slice());
    let cause = Cell::new(None);
    let input = NotedReader::new(open_input(&rt, paths.input()), &cause);
    let mut source = kept_source(alloc, &paths, ReadSource::new(input));
    let opener = PathOpener::new(&rt, ports, owned_files(&rt, paths.input()));
    let out = FilePorts::new(alloc, io::writer(&rt), opener);
    let CommandEnd {
        status,
        out,
        kept,
        trouble,
    } = command(&rt, alloc, words.as_slice(), &mut source, out);
    let spent = kept.as_ref().and_then(spent_of);
    let mut refusal = refusal_of(words.as_slice(), source.kept(), status, trouble, spent);
    refusal.unread = cause.get();
    refusal.unwritten = out.finish();
    Ok(ExitCode::from(explain_end(&rt, &refusal)))
}
