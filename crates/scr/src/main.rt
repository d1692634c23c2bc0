//! The program `scr`: an insurer's Solvency Capital Requirement by the standard formula.
#![tactic(auto)]

use scr_io::{HostShelf, HostSink, OpenGate};
use scr_run::{Status, conclude, program};
use std::io::ErrorKind;
use std::process::ExitCode;
use std::{env, io};

fn main(rt: HostRuntime) -> ExitCode {
    let mut errors = HostSink::new(rt.stderr());
    let code = match arguments(&rt) {
        Ok(arguments) => program(
            &rt,
            rt.alloc(),
            arguments.as_slice(),
            &mut HostShelf::new(&rt),
            &mut HostSink::new(rt.stdout()),
            &mut errors,
            &OpenGate,
        ),
        Err(error) if error.kind() == ErrorKind::OutOfMemory => {
            conclude(rt.alloc(), &Status::NoMemory, &mut errors)
        }
        Err(_) => conclude(rt.alloc(), &Status::Usage, &mut errors),
    };
    ExitCode::from(code)
}

/// The program's name and the words after it.
fn arguments(rt: &HostRuntime) -> io::Result<Vec<String>> {
    let mut words = Vec::new(rt.alloc());
    for word in env::args(rt)? {
        words.push(word)?;
    }
    Ok(words)
}
