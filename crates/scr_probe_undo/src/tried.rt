//! Records that are applied and taken back.
ghost use Rattle.std.specs.Prelude.{◌≡◌, ◌≤◌, length, vec_len, IfOk};
ghost use Rattle.scr_book.specs.RolledSheets.{AreStill};
ghost use Rattle.scr_sheet.specs.Forms.{Formed};

use scr_book::{Book, Edit, Fault};
use scr_csv::{LineFault, lines, read_line};
use scr_io::{ReadFault, Shelf, read_all};
use std::alloc::Global;

/// Why there are no answers.
#[derive(Drop)]
pub enum Ended {
    /// Memory was refused.
    NoMemory,
    /// The words name no book and script, or one of these could not be read or is refused.
    NoFiles,
}

/// For each line of the script whether its record was accepted, each of which was taken back. The words name the book and the
/// script.
pub fn answers<F: Shelf>(alloc: Global, shelf: &mut F, words: &[String]) -> Result<Vec<u8>, Ended> {
    let [book, edits] = words else {
        return Err(Ended::NoFiles);
    };
    let book = file(alloc, shelf, book)?;
    let edits = file(alloc, shelf, edits)?;
    let Ok(mut kept) = Book::new(alloc) else {
        return Err(Ended::NoMemory);
    };
    let told = told(alloc, &mut kept, book.as_slice(), edits.as_slice());
    kept.close();
    told
}

fn file<F: Shelf>(alloc: Global, shelf: &mut F, name: &str) -> Result<Vec<u8>, Ended>
    ensures { IfOk result (λ bytes. vec_len bytes ≤ 67108864) }
{
    match read_all(alloc, shelf, name) {
        Ok(bytes) => Ok(bytes),
        Err(ReadFault::NoMemory) => Err(Ended::NoMemory),
        Err(_) => Err(Ended::NoFiles),
    }
}

fn told(alloc: Global, book: &mut Book, records: &[u8], edits: &[u8]) -> Result<Vec<u8>, Ended>
    requires records { length records.now ≤ 67108864 }
    requires edits { length edits.now ≤ 67108864 }
{
    fill(alloc, book, records)?;
    let mut out = Vec::new(alloc);
    for line in lines(edits) {
        let answer: &[u8] = match tried(alloc, book, line.text) {
            Ok(()) => b"ok\n",
            Err(Fault::NoMemory) => return Err(Ended::NoMemory),
            Err(_) => b"refused\n",
        };
        let Ok(()) = out.extend_from_slice(answer) else {
            return Err(Ended::NoMemory);
        };
    }
    Ok(out)
}

fn fill(alloc: Global, book: &mut Book, bytes: &[u8]) -> Result<(), Ended>
    requires { length bytes.now ≤ 67108864 }
{
    for line in lines(bytes) {
        let edit = match read_line(alloc, line.text) {
            Ok(edit) => edit,
            Err(LineFault::NoMemory) => return Err(Ended::NoMemory),
            Err(_) => return Err(Ended::NoFiles),
        };
        match book.take(alloc, edit) {
            Ok(()) => {}
            Err(Fault::NoMemory) => return Err(Ended::NoMemory),
            Err(_) => return Err(Ended::NoFiles),
        }
    }
    Ok(())
}

/// Applies the record of a line and takes it back: the book is as it was.
fn tried(alloc: Global, book: &mut Book, text: &[u8]) -> Result<(), Fault>
    requires { length text.now ≤ 67108864 }
    ensures sheet { book.new.sheet ≡ book.old.sheet }
    ensures rolls { AreStill book.old book.new }
{
    match read_line(alloc, text) {
        Ok(edit) => taken_back(alloc, book, &edit),
        Err(LineFault::Syntax(field)) => Err(Fault::Syntax(field)),
        Err(LineFault::NoMemory) => Err(Fault::NoMemory),
    }
}

fn taken_back(alloc: Global, book: &mut Book, edit: &Edit) -> Result<(), Fault>
    requires { Formed edit.now }
    ensures sheet { book.new.sheet ≡ book.old.sheet }
    ensures rolls { AreStill book.old book.new }
{
    match book.apply_kept(alloc, edit) {
        Ok(undo) => {
            book.put_back(undo);
            Ok(())
        }
        Err(fault) => Err(fault),
    }
}
