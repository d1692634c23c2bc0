//! The records of a book and of its edits, applied one after another.
ghost use Rattle.std.specs.Prelude.{◌≡◌, ℕ, ◌+◌, ◌<◌, ◌≤◌, Ok, Err, IsErrOf, OnOk, OnErr, length};
ghost use Rattle.scr_sheet.specs.declared.fault.Fault.TheVariants as faults;
ghost use Rattle.scr_sheet.specs.Faults.{fault_of};
ghost use Rattle.scr_sheet.specs.Forms.{Formed};
ghost use Rattle.scr_tree.specs.Standing.{IsAfter, IsAsBefore, Refuses};
ghost use Rattle.scr_run.specs.BookFile.{recorded, sheet_from, sheet_of};
ghost use Rattle.scr_run.specs.BookAnswers.{Filled, Recorded, Replied, Read};
ghost use Rattle.scr_csv.specs.Lines.{records};
ghost use Rattle.scr_csv.specs.LineOrder.{lines_left};
ghost use Rattle.scr_line_chunks.specs.Files.{bytes_of};
ghost use Rattle.scr_line_chunks.specs.Passages.{AreWhole, records_behind};

use crate::crew::Crew;
use scr_book::{Book, Edit, Fault};
use scr_csv::{LineFault, read_line};
use scr_io::{Gate, Steps};
use scr_line_chunks::{Passages, lines_behind, passed_behind};
use scr_tree::{Engine, Refusal};
use std::alloc::Global;
use std::marker::Brand;
use std::sync::ledger::{Blank, Ledger};
use std::thread::Threads;

/// Why a file is no book.
#[derive(Drop)]
pub enum BookFault {
    /// The first record with a fault: the number of its line, and the fault, which is never want of
    /// memory.
    Record(u32, Fault),
    /// Memory was refused.
    NoMemory,
}

/// The book that the records of the file give, one after another.
#[tactic(auto, unfolding(crate::specs::BookFile::sheet_of))]
pub fn read_book(alloc: Global, bytes: &[u8]) -> Result<Book, BookFault>
    requires { length bytes.now ≤ 67108864 }
    ensures answer { Read (sheet_of bytes.now) result }
    ensures never_memory { (line : ℕ) → IsErrOf result (BookFault.Record line faults.NoMemory) → ⊥ }
{
    let Ok(mut book) = Book::new(alloc) else {
        return Err(BookFault::NoMemory);
    };
    match fill(alloc, &mut book, 0, bytes) {
        Ok(()) => Ok(book),
        Err(fault) => {
            book.close();
            Err(fault)
        }
    }
}

/// The book that the records of the file give, one after another. Each passage is given back when its
/// records were applied, so that the book takes its room.
#[tactic(auto, unfolding(crate::specs::BookFile::sheet_of))]
pub fn read_file(alloc: Global, file: Passages) -> Result<Book, BookFault>
    requires short { length (bytes_of file) ≤ 67108864 }
    requires whole { AreWhole file.whole.items }
    ensures answer { Read (sheet_of (bytes_of file)) result }
    ensures never_memory { (line : ℕ) → IsErrOf result (BookFault.Record line faults.NoMemory) → ⊥ }
{
    let Ok(mut book) = Book::new(alloc) else {
        return Err(BookFault::NoMemory);
    };
    match fill_from(alloc, &mut book, file) {
        Ok(()) => Ok(book),
        Err(fault) => {
            book.close();
            Err(fault)
        }
    }
}

/// Applies the records of the file to the book, passage by passage.
fn fill_from(alloc: Global, book: &mut Book, file: Passages) -> Result<(), BookFault>
    requires short { length (bytes_of file) ≤ 67108864 }
    requires whole { AreWhole file.whole.items }
    ensures answer { Filled (sheet_from (records (bytes_of file)) book.old.sheet) result
        book.new.sheet }
    ensures never_memory { (line : ℕ) → IsErrOf result (BookFault.Record line faults.NoMemory) → ⊥ }
{
    let Passages { whole, last } = file;
    let mut passed = 0;
    for passage in whole {
        match fill(alloc, book, passed, passage.as_slice()) {
            Ok(()) => {}
            Err(fault) => return Err(fault),
        }
        passed = passed_behind(passed, passage.as_slice());
    }
    fill(alloc, book, passed, last.as_slice())
}

/// Applies the records of bytes before which so many lines have passed to the book, one after
/// another, up to the first that is refused.
fn fill(alloc: Global, book: &mut Book, passed: u32, bytes: &[u8]) -> Result<(), BookFault>
    requires { passed + length bytes.now ≤ 67108864 }
    ensures answer { Filled (sheet_from (records_behind passed bytes.now) book.old.sheet) result
        book.new.sheet }
    ensures never_memory { (line : ℕ) → IsErrOf result (BookFault.Record line faults.NoMemory) → ⊥ }
{
    for line in lines_behind(passed, bytes) {
        match record(alloc, book, line.text) {
            Ok(()) => {}
            Err(Fault::NoMemory) => return Err(BookFault::NoMemory),
            Err(fault) => return Err(BookFault::Record(line.number, fault)),
        }
    }
    Ok(())
}

/// Applies the record of a line to the book, which is as before where the record is refused.
#[tactic(auto, unfolding(crate::specs::BookFile::recorded))]
pub fn record(alloc: Global, book: &mut Book, text: &[u8]) -> Result<(), Fault>
    requires { length text.now ≤ 67108864 }
    ensures { Recorded (recorded text.now book.old.sheet) book.old.sheet result book.new.sheet }
{
    match read_line(alloc, text) {
        Ok(edit) => book.take(alloc, edit),
        Err(LineFault::Syntax(field)) => Err(Fault::Syntax(field)),
        Err(LineFault::NoMemory) => Err(Fault::NoMemory),
    }
}

/// Applies the record of a line to the book of the engine, which is as before where the record is
/// refused.
#[tactic(auto, unfolding(crate::specs::BookFile::recorded))]
pub fn edit<R: Threads + Sync, G: Gate + Sync>(
    crew: &Crew<'_, R, G>,
    alloc: Global,
    engine: &mut Engine,
    text: &[u8],
) -> Result<(), Refusal>
    requires crew { (1 ≤ crew.now.workers) × (crew.now.workers ≤ 64) }
    requires short { length text.now ≤ 67108864 }
    ensures { Replied (recorded text.now engine.old.sheet) engine.old result engine.new }
{
    match read_line(alloc, text) {
        Ok(edit) => apply(crew, alloc, engine, &edit),
        Err(LineFault::Syntax(field)) => Err(Refusal::Fault(Fault::Syntax(field))),
        Err(LineFault::NoMemory) => Err(Refusal::NoMemory),
    }
}

/// Applies a record to the book of the engine, with a counter of its own.
fn apply<R: Threads + Sync, G: Gate + Sync>(
    crew: &Crew<'_, R, G>,
    alloc: Global,
    engine: &mut Engine,
    edit: &Edit,
) -> Result<(), Refusal>
    requires crew { (1 ≤ crew.now.workers) × (crew.now.workers ≤ 64) }
    requires formed { Formed edit.now }
    ensures answer { Refuses (fault_of edit.now engine.old.sheet) result }
    ensures ok { OnOk result (IsAfter edit.now engine.old engine.new) }
    ensures err { OnErr result (IsAsBefore engine.old engine.new) }
{
    counted::<R, G, Brand>(crew, alloc, engine, edit, Blank::new(1))
}

fn counted<R: Threads + Sync, G: Gate + Sync, L: Ledger>(
    crew: &Crew<'_, R, G>,
    alloc: Global,
    engine: &mut Engine,
    edit: &Edit,
    blank: Blank,
) -> Result<(), Refusal>
    requires crew { (1 ≤ crew.now.workers) × (crew.now.workers ≤ 64) }
    requires formed { Formed edit.now }
    requires name { blank.name ≡ L.name }
    requires parts { blank.parts ≡ L.parts }
    requires some { 0 < blank.parts }
    ensures answer { Refuses (fault_of edit.now engine.old.sheet) result }
    ensures ok { OnOk result (IsAfter edit.now engine.old engine.new) }
    ensures err { OnErr result (IsAsBefore engine.old engine.new) }
{
    let mut steps = Steps::<L>::new(blank);
    engine.edit(crew.rt, alloc, edit, crew.workers, crew.gate, &mut steps)
}
