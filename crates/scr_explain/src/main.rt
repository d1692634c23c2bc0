//! The program `scr_explain`: why a figure of the report is what it is. It reads the files of `scr` and prints the tree of
//! figures under a cell.
#![tactic(auto)]

mod command;
mod explaining;
mod late_file;
mod question;

use clap::ArgMatches;
use clap::error::ErrorKind;
use command::command;
use explaining::explain;
use late_file::LateFile;
use question::question_of;
use scr_io::{HostShelf, HostSink};
use scr_run::{Status, conclude};
use std::process::ExitCode;
use std::thread::Threads;
use std::{env, io};

/// The exit code where the words have no form, as that of `scr`.
const USAGE: u8 = 2;

fn main(rt: HostRuntime) -> ExitCode {
    let code = match run(&rt, &rt) {
        Ok(status) => conclude(rt.alloc(), &status, &mut HostSink::new(rt.stderr())),
        Err(code) => code,
    };
    ExitCode::from(code)
}

/// Answers the question of the words; `threads` starts the workers. Words that ask none, as those for help, are answered here, with
/// their exit code.
fn run<R: Threads + Sync>(threads: &R, rt: &HostRuntime) -> Result<Status, u8> {
    let words = match arguments(rt) {
        Ok(words) => words,
        Err(error) if error.kind() == io::ErrorKind::OutOfMemory => return Ok(Status::NoMemory),
        Err(_) => return Err(USAGE),
    };
    let Ok(command) = command(rt.alloc()) else {
        return Ok(Status::NoMemory);
    };
    match command.try_get_matches_from(words.as_slice()) {
        Ok(matches) => answer(threads, rt, &matches),
        Err(error) if error.kind() == ErrorKind::OutOfMemory => Ok(Status::NoMemory),
        Err(error) => {
            let _ = error.print(rt);
            Err(if error.exit_code() == 0 { 0 } else { USAGE })
        }
    }
}

/// The program's name and the words after it.
fn arguments(rt: &HostRuntime) -> io::Result<Vec<String>> {
    let mut words = Vec::new(rt.alloc());
    for word in env::args(rt)? {
        words.push(word)?;
    }
    Ok(words)
}

/// Answers the question on standard output, a drawing in its file.
fn answer<R: Threads + Sync>(
    threads: &R,
    rt: &HostRuntime,
    matches: &ArgMatches<'_>,
) -> Result<Status, u8> {
    let Some(question) = question_of(matches) else {
        let _ = eprintln!(rt;
            "scr_explain: no cell has this name, or the record is too long; docs/FORMATS.md lists the cells"
        );
        return Err(USAGE);
    };
    let mut shelf = HostShelf::new(rt);
    let status = match matches.get_str("svg") {
        Some(file) => {
            let mut sink = HostSink::new(LateFile::new(rt, file));
            explain(threads, rt.alloc(), &question, &mut shelf, &mut sink)
        }
        None => {
            let mut sink = HostSink::new(rt.stdout());
            explain(threads, rt.alloc(), &question, &mut shelf, &mut sink)
        }
    };
    Ok(status)
}
