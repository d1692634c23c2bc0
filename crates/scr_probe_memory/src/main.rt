//! Writes the report on a factor file, a book and a script of edits, as `scr` does, but without the texts of faults, and by one
//! engine that goes on where memory was refused: a record is applied again until it is accepted or has a fault, a few times.
//! So a run shows that an engine whose record was refused for want of memory gives the figures that are due at the next one.
#![tactic(auto)]

mod kept;

use kept::{Ended, kept_report};
use scr_io::{HostShelf, HostSink, write_all};
use std::env;
use std::io::{self, ErrorKind};
use std::process::ExitCode;

fn main(rt: HostRuntime) -> ExitCode {
    let names = match arguments(&rt) {
        Ok(names) => names,
        Err(error) if error.kind() == ErrorKind::OutOfMemory => return ExitCode::from(7),
        Err(_) => return ExitCode::from(2),
    };
    match kept_report(&rt, rt.alloc(), &mut HostShelf::new(&rt), names.as_slice()) {
        Ok(report) => match write_all(&mut HostSink::new(rt.stdout()), report.as_slice()) {
            Ok(()) => ExitCode::from(0),
            Err(_) => ExitCode::from(6),
        },
        Err(Ended::NoMemory) => ExitCode::from(7),
        Err(Ended::NoFiles) => ExitCode::from(2),
    }
}

/// The words after the program's name.
fn arguments(rt: &HostRuntime) -> io::Result<Vec<String>> {
    let mut words = Vec::new(rt.alloc());
    for word in env::args(rt)?.skip(1) {
        words.push(word)?;
    }
    Ok(words)
}
