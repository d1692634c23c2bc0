//! One engine, over all records of a script.
ghost use Rattle.std.specs.Prelude.{◌≡◌, ◌≤◌, ◌<◌, length, vec_len, IfOk};
ghost use Rattle.scr_sheet.specs.Forms.{Formed};

use scr_book::{Book, Edit, Fault};
use scr_cells::print_block;
use scr_csv::{LineFault, lines, read_line};
use scr_factors::{FactorFault, Factors, read_factors};
use scr_io::{OpenGate, ReadFault, Shelf, Steps, read_all};
use scr_tree::{Engine, Refusal};
use std::alloc::{AllocError as NoMemory, Global};
use std::marker::Brand;
use std::sync::ledger::{Blank, Ledger};
use std::thread::Threads;

/// How often a record is applied at most.
const TRIES: u32 = 3;

/// Why there is no report.
#[derive(Drop)]
pub enum Ended {
    /// Memory was refused outside of the records.
    NoMemory,
    /// The words name no three files, or one of these could not be read or is refused.
    NoFiles,
}

/// The report on the named factor file, book and script.
pub fn kept_report<R: Threads + Sync, F: Shelf>(
    rt: &R,
    alloc: Global,
    shelf: &mut F,
    names: &[String],
) -> Result<Vec<u8>, Ended> {
    let [factors, book, edits] = names else {
        return Err(Ended::NoFiles);
    };
    let edits = file(alloc, shelf, edits)?;
    let factors = factors_of(alloc, file(alloc, shelf, factors)?.as_slice())?;
    let book = book_of(alloc, file(alloc, shelf, book)?.as_slice())?;
    let Ok(mut engine) = Engine::new(rt, alloc, factors, book, 1, &OpenGate) else {
        return Err(Ended::NoMemory);
    };
    let report = report(rt, alloc, &mut engine, edits.as_slice());
    engine.close();
    report.map_err(|_| Ended::NoMemory)
}

fn file<F: Shelf>(alloc: Global, shelf: &mut F, name: &str) -> Result<Vec<u8>, Ended>
    ensures { IfOk result (λ bytes. vec_len bytes ≤ 67108864) }
{
    match read_all(alloc, shelf, name) {
        Ok(bytes) => Ok(bytes),
        Err(ReadFault::NoMemory) => Err(Ended::NoMemory),
        Err(_) => Err(Ended::NoFiles),
    }
}

fn factors_of(alloc: Global, bytes: &[u8]) -> Result<Factors, Ended> {
    match read_factors(alloc, bytes) {
        Ok(factors) => Ok(factors),
        Err(FactorFault::NoMemory) => Err(Ended::NoMemory),
        Err(_) => Err(Ended::NoFiles),
    }
}

fn book_of(alloc: Global, bytes: &[u8]) -> Result<Book, Ended>
    requires { length bytes.now ≤ 67108864 }
{
    let Ok(mut book) = Book::new(alloc) else {
        return Err(Ended::NoMemory);
    };
    match fill(alloc, &mut book, bytes) {
        Ok(()) => Ok(book),
        Err(ended) => {
            book.close();
            Err(ended)
        }
    }
}

fn fill(alloc: Global, book: &mut Book, bytes: &[u8]) -> Result<(), Ended>
    requires { length bytes.now ≤ 67108864 }
{
    for line in lines(bytes) {
        let edit = match read_line(alloc, line.text) {
            Ok(edit) => edit,
            Err(LineFault::NoMemory) => return Err(Ended::NoMemory),
            Err(_) => return Err(Ended::NoFiles),
        };
        match book.apply(alloc, &edit) {
            Ok(()) => {}
            Err(Fault::NoMemory) => return Err(Ended::NoMemory),
            Err(_) => return Err(Ended::NoFiles),
        }
    }
    Ok(())
}

/// The block of the engine's book, and the reply to each record.
fn report<R: Threads + Sync>(
    rt: &R,
    alloc: Global,
    engine: &mut Engine,
    edits: &[u8],
) -> Result<Vec<u8>, NoMemory>
    requires { length edits.now ≤ 67108864 }
{
    let mut out = Vec::new(alloc);
    out.extend_from_slice(b"# 0 book\n")?;
    print_block(alloc, engine, &mut out)?;
    for line in lines(edits) {
        let head = format!(in alloc; "# {} ", line.number)?;
        out.extend_from_slice(head.as_bytes())?;
        match applied(rt, alloc, engine, line.text) {
            Ok(()) => {
                out.extend_from_slice(b"ok\n")?;
                print_block(alloc, engine, &mut out)?;
            }
            Err(Refusal::Fault(_)) => out.extend_from_slice(b"refused\n")?,
            Err(Refusal::NoMemory) => return Err(NoMemory),
        }
    }
    Ok(out)
}

/// Applies the record of a line, again where memory is refused.
fn applied<R: Threads + Sync>(
    rt: &R,
    alloc: Global,
    engine: &mut Engine,
    text: &[u8],
) -> Result<(), Refusal>
    requires { length text.now ≤ 67108864 }
{
    for _ in 1..TRIES {
        match applied_once(rt, alloc, engine, text) {
            Err(Refusal::NoMemory) => {}
            answer => return answer,
        }
    }
    applied_once(rt, alloc, engine, text)
}

fn applied_once<R: Threads + Sync>(
    rt: &R,
    alloc: Global,
    engine: &mut Engine,
    text: &[u8],
) -> Result<(), Refusal>
    requires { length text.now ≤ 67108864 }
{
    match read_line(alloc, text) {
        Ok(edit) => apply(rt, alloc, engine, &edit),
        Err(LineFault::Syntax(field)) => Err(Refusal::Fault(Fault::Syntax(field))),
        Err(LineFault::NoMemory) => Err(Refusal::NoMemory),
    }
}

/// Applies a record to the engine, with a counter of its own.
fn apply<R: Threads + Sync>(
    rt: &R,
    alloc: Global,
    engine: &mut Engine,
    edit: &Edit,
) -> Result<(), Refusal>
    requires { Formed edit.now }
{
    counted::<R, Brand>(rt, alloc, engine, edit, Blank::new(1))
}

fn counted<R: Threads + Sync, L: Ledger>(
    rt: &R,
    alloc: Global,
    engine: &mut Engine,
    edit: &Edit,
    blank: Blank,
) -> Result<(), Refusal>
    requires formed { Formed edit.now }
    requires name { blank.name ≡ L.name }
    requires parts { blank.parts ≡ L.parts }
    requires some { 0 < blank.parts }
{
    let mut steps = Steps::<L>::new(blank);
    engine.edit(rt, alloc, edit, 1, &OpenGate, &mut steps)
}
