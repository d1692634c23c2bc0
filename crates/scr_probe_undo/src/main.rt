//! Reads a book and a script, applies each record of the script and takes it back, and writes for each line whether its record
//! was accepted. So a run shows what it costs to try a record.
#![tactic(auto)]

mod tried;

use scr_io::{HostShelf, HostSink, write_all};
use std::env;
use std::io::{self, ErrorKind};
use std::process::ExitCode;
use tried::{Ended, answers};

fn main(rt: HostRuntime) -> ExitCode {
    let words = match arguments(&rt) {
        Ok(words) => words,
        Err(error) if error.kind() == ErrorKind::OutOfMemory => return ExitCode::from(7),
        Err(_) => return ExitCode::from(2),
    };
    match answers(rt.alloc(), &mut HostShelf::new(&rt), words.as_slice()) {
        Ok(text) => match write_all(&mut HostSink::new(rt.stdout()), text.as_slice()) {
            Ok(()) => ExitCode::from(0),
            Err(_) => ExitCode::from(6),
        },
        Err(Ended::NoMemory) => ExitCode::from(7),
        Err(Ended::NoFiles) => ExitCode::from(2),
    }
}

/// The words after the program's name.
fn arguments(rt: &HostRuntime) -> io::Result<Vec<String>> {
    let mut words = Vec::new(rt.alloc());
    for word in env::args(rt)?.skip(1) {
        words.push(word)?;
    }
    Ok(words)
}
