//! Gives the judge of histories the events of long simulated migrations, so that its time can be
//! measured from outside, and prints how many events of each kind it took.
#![tactic(auto)]

mod counts;
mod fault;
mod request;
mod run;
mod sample;
mod tally;

use crate::counts::{Counts, print_counts};
use crate::fault::{RunFault, exit_code};
use crate::request::{Request, read_request};
use crate::run::run;
use dr_io::{ReadSource, Source};
use std::alloc::Global;
use std::io;
use std::process::ExitCode;

/// The request that a source has, and the counts of its run.
fn counted_run<S: Source>(alloc: Global, source: &mut S) -> Result<(Request, Counts), RunFault> {
    let request = read_request(alloc, source)?;
    Ok((request, run(alloc, request)?))
}

fn main(rt: HostRuntime) -> Result<ExitCode, io::Error> {
    let mut source = ReadSource::new(rt.reader());
    match counted_run(rt.alloc(), &mut source) {
        Ok((request, counts)) => {
            print_counts(&rt, request.guests, &counts)?;
            Ok(ExitCode::from(0))
        }
        Err(fault) => {
            eprintln!(rt; "dr_core_speed: {fault}")?;
            Ok(ExitCode::from(exit_code(fault)))
        }
    }
}
