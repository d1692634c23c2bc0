//! Tells how many figures and Blocks a run evaluates for its book and for each record of its edits: it takes the words of `scr`,
//! and prints the first line of each piece of the report with the number of evaluations since the piece before.
#![tactic(auto)]

mod told;

use scr_io::{Gate, HostShelf, HostSink};
use scr_run::run;
use std::env;
use std::io::{self, ErrorKind, Write};
use std::process::ExitCode;
use std::sync::atomic::{AtomicU64, Ordering};
use told::{Told, first_line};

/// A gate that counts what passes it.
#[derive(Drop)]
struct Counter {
    passes: AtomicU64,
}

impl Gate for Counter {
    fn pass(&self, _node: u32) {
        self.passes.fetch_add(1, Ordering::Relaxed);
    }
}

/// A writer that takes each piece whole, and hands its first line on with what passed since.
#[derive(Drop)]
struct Tally<'a, W: Write> {
    out: W,
    gate: &'a Counter,
    told: Told,
}

impl<W: Write> Write for Tally<'_, W> {
    fn write(&mut self, buf: &[u8]) -> io::Result<usize> {
        let since = self.told.since(self.gate.passes.load(Ordering::Relaxed));
        self.out.write_all(first_line(buf))?;
        writeln!(self.out, " evaluations {since}")?;
        Ok(buf.len())
    }

    fn flush(&mut self) -> io::Result<()> {
        self.out.flush()
    }
}

fn main(rt: HostRuntime) -> ExitCode {
    let gate = Counter {
        passes: AtomicU64::new(0),
    };
    let words = match arguments(&rt) {
        Ok(words) => words,
        Err(error) if error.kind() == ErrorKind::OutOfMemory => return ExitCode::from(7),
        Err(_) => return ExitCode::from(2),
    };
    let mut sink = HostSink::new(Tally {
        out: rt.stdout(),
        gate: &gate,
        told: Told { passes: 0 },
    });
    let status = run(
        &rt,
        rt.alloc(),
        words.as_slice(),
        &mut HostShelf::new(&rt),
        &mut sink,
        &gate,
    );
    ExitCode::from(status.code())
}

/// The words after the program's name.
fn arguments(rt: &HostRuntime) -> io::Result<Vec<String>> {
    let mut words = Vec::new(rt.alloc());
    for word in env::args(rt)?.skip(1) {
        words.push(word)?;
    }
    Ok(words)
}
