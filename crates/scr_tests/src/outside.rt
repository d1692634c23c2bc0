//! A run over a shelf and a sink in memory that fail where they are told to.
ghost use Rattle.std.specs.Prelude.{◌≤◌};

use scr_io::{Gate, MemShelf, MemSink, OpenGate};
use scr_run::run;
use std::alloc::{AllocError, Global};
use std::thread::Threads;

/// Which calls are to fail, and how many bytes one takes or gives at most.
#[derive(Clone, Copy)]
pub struct Outside {
    pub reads: u64,
    pub writes: u64,
    pub piece: usize,
}

/// No call fails: the calls are numbered from 1.
pub const SOUND: Outside = Outside {
    reads: 0,
    writes: 0,
    piece: 4096,
};

/// The exit code of a run, what it wrote, and what its shelf counted.
#[derive(Drop)]
pub struct End {
    pub code: u8,
    pub written: Vec<u8>,
    pub faults: u64,
    pub strays: u64,
}

const WORDS: [&str; 7] = ["--factors", "f", "--book", "b", "--edits", "e", "--workers"];

/// A run with the factor file `f`, the book `b` and the edits `e`.
pub fn outcome<R: Threads + Sync>(
    rt: &R,
    alloc: Global,
    files: &[(&str, &str)],
    outside: &Outside,
) -> Result<End, AllocError> {
    let fails = [outside.reads].to_vec(alloc)?;
    let mut shelf = MemShelf::new(held(alloc, files)?, fails, outside.piece.max(1));
    let mut sink = MemSink::new(alloc, [outside.writes].to_vec(alloc)?, outside.piece)?;
    let code = code_of_run(rt, alloc, &mut shelf, &mut sink, "64", &OpenGate)?;
    Ok(End {
        code,
        written: sink.written().to_vec(alloc)?,
        faults: shelf.faults(),
        strays: shelf.strays(),
    })
}

/// The files of a shelf.
fn held(alloc: Global, files: &[(&str, &str)]) -> Result<Vec<(String, Vec<u8>)>, AllocError> {
    let mut held = Vec::new(alloc);
    for (name, text) in files {
        held.push((
            String::from_str(alloc, name)?,
            text.as_bytes().to_vec(alloc)?,
        ))?;
    }
    Ok(held)
}

/// Runs with so many workers who pass a gate, and answers the exit code alone.
fn code_of_run<R: Threads + Sync, G: Gate + Sync>(
    rt: &R,
    alloc: Global,
    shelf: &mut MemShelf,
    sink: &mut MemSink,
    workers: &str,
    gate: &G,
) -> Result<u8, AllocError> {
    let mut words = Vec::new(alloc);
    for word in &WORDS {
        words.push(String::from_str(alloc, word)?)?;
    }
    words.push(String::from_str(alloc, workers)?)?;
    Ok(run(rt, alloc, words.as_slice(), shelf, sink, gate).code())
}

/// The exit code of a run where no call fails, by so many workers who pass a gate.
pub fn code_past<R: Threads + Sync, G: Gate + Sync>(
    rt: &R,
    alloc: Global,
    files: &[(&str, &str)],
    workers: &str,
    gate: &G,
) -> Result<u8, AllocError> {
    let mut shelf = MemShelf::new(held(alloc, files)?, Vec::new(alloc), SOUND.piece);
    let mut sink = MemSink::new(alloc, Vec::new(alloc), SOUND.piece)?;
    code_of_run(rt, alloc, &mut shelf, &mut sink, workers, gate)
}
