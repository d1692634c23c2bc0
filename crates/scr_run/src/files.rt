//! The files that a run reads: each is read whole, and its bytes are refused or stand for a value.
ghost use Rattle.std.specs.Prelude.{◌≡◌, ◌≤◌, IfOk, IfErr, OnOk, vec_len, length};
ghost use Rattle.std.specs.Io.KnownBytes.{IsAtEnd};
ghost use Rattle.scr_line_chunks.specs.Files.{bytes_of};
ghost use Rattle.scr_line_chunks.specs.Passages.{AreWhole};
ghost use Rattle.scr_obligations.specs.Moment.{shelved};
ghost use Rattle.scr_obligations.specs.Steps.{Passed, Stopped};
ghost use Rattle.scr_run.specs.Readings.{Bears, IsLimited, too_long_of, bytes_in, factors_in, book_in, status_of_fault, status_unread};
ghost use Rattle.scr_run.specs.Statuses.{answer_of, IsEarly};

use crate::records::{BookFault, read_book, read_file};
use crate::status::{Status, Which};
use scr_book::Book;
use scr_factors::{FactorFault, Factors, read_factors};
use scr_io::{MAX_BYTES, ReadFault, Shelf, read_all};
use scr_line_chunks::{Passages, read_passages};
use std::alloc::Global;

/// What a file is read for.
#[derive(Clone, Copy)]
pub enum Role {
    Factors,
    Book,
    Edits,
}

/// The status of a run in which this file is too long.
fn too_long(role: Role) -> Status
    ensures { result ≡ too_long_of role }
{
    match role {
        Role::Factors => Status::FactorsTooLong,
        Role::Book => Status::TooLong(Which::Book),
        Role::Edits => Status::TooLong(Which::Edits),
    }
}

/// The status of a run whose file was not read.
fn unread(fault: ReadFault, role: Role) -> Status
    ensures status { result ≡ status_unread role fault }
    ensures early { IsEarly result }
{
    match fault {
        ReadFault::Failed => Status::Read,
        ReadFault::TooLong => too_long(role),
        ReadFault::NoMemory => Status::NoMemory,
    }
}

/// The bytes of a file, or the status that ends the run.
pub fn file_bytes<F: Shelf>(
    alloc: Global,
    shelf: &mut F,
    name: &str,
    role: Role,
) -> Result<Vec<u8>, Status>
    ensures passed { IfOk result (λ bytes. Passed name.now (bytes_in role)
        (shelved (F.content shelf.old) (F.faults shelf.old) (F.strays shelf.old))
        (shelved (F.content shelf.new) (F.faults shelf.new) (F.strays shelf.new)) bytes.items) }
    ensures stopped { IfErr result (λ status. Stopped name.now (bytes_in role)
        (shelved (F.content shelf.old) (F.faults shelf.old) (F.strays shelf.old))
        (shelved (F.content shelf.new) (F.faults shelf.new) (F.strays shelf.new))
        (answer_of status)) }
    ensures short { IfOk result (λ bytes. vec_len bytes ≤ 67108864) }
    ensures end { OnOk result (IsAtEnd (F.left shelf.new)) }
    ensures early { IfErr result IsEarly }
{
    match read_all(alloc, shelf, name) {
        Ok(bytes) => Ok(bytes),
        Err(fault) => Err(unread(fault, role)),
    }
}

/// The same in passages, each of which can be given back once it was read.
fn file_passages<F: Shelf>(
    alloc: Global,
    shelf: &mut F,
    name: &str,
    role: Role,
) -> Result<Passages, Status>
    ensures passed { IfOk result (λ file. Passed name.now (bytes_in role)
        (shelved (F.content shelf.old) (F.faults shelf.old) (F.strays shelf.old))
        (shelved (F.content shelf.new) (F.faults shelf.new) (F.strays shelf.new))
        (bytes_of file)) }
    ensures stopped { IfErr result (λ status. Stopped name.now (bytes_in role)
        (shelved (F.content shelf.old) (F.faults shelf.old) (F.strays shelf.old))
        (shelved (F.content shelf.new) (F.faults shelf.new) (F.strays shelf.new))
        (answer_of status)) }
    ensures whole { IfOk result (λ file. AreWhole file.whole.items) }
    ensures short { IfOk result (λ file. length (bytes_of file) ≤ 67108864) }
    ensures early { IfErr result IsEarly }
{
    match read_passages(alloc, shelf, name) {
        Ok(file) => Ok(file),
        Err(fault) => Err(unread(fault, role)),
    }
}

/// The values of a factor file, or the status that ends the run.
pub fn file_factors<F: Shelf>(alloc: Global, shelf: &mut F, name: &str) -> Result<Factors, Status>
    ensures passed { IfOk result (λ factors. Passed name.now factors_in
        (shelved (F.content shelf.old) (F.faults shelf.old) (F.strays shelf.old))
        (shelved (F.content shelf.new) (F.faults shelf.new) (F.strays shelf.new)) factors) }
    ensures stopped { IfErr result (λ status. Stopped name.now factors_in
        (shelved (F.content shelf.old) (F.faults shelf.old) (F.strays shelf.old))
        (shelved (F.content shelf.new) (F.faults shelf.new) (F.strays shelf.new))
        (answer_of status)) }
    ensures end { OnOk result (IsAtEnd (F.left shelf.new)) }
    ensures early { IfErr result IsEarly }
{
    let bytes = match file_bytes(alloc, shelf, name, Role::Factors) {
        Ok(bytes) => bytes,
        Err(status) => return Err(status),
    };
    match read_factors(alloc, bytes.as_slice()) {
        Ok(factors) => Ok(factors),
        Err(fault) => Err(factors_refused(fault)),
    }
}

/// The status of a run whose factor file has this fault.
fn factors_refused(fault: FactorFault) -> Status
    ensures status { result ≡ status_of_fault fault }
    ensures early { IsEarly result }
{
    match fault {
        FactorFault::NoMemory => Status::NoMemory,
        fault => Status::Factors(fault),
    }
}

/// The book that a file spells, or the status that ends the run.
pub fn file_book<F: Shelf>(alloc: Global, shelf: &mut F, name: &str) -> Result<Book, Status>
    ensures passed { IfOk result (λ book. Passed name.now book_in
        (shelved (F.content shelf.old) (F.faults shelf.old) (F.strays shelf.old))
        (shelved (F.content shelf.new) (F.faults shelf.new) (F.strays shelf.new)) book.sheet) }
    ensures stopped { IfErr result (λ status. Stopped name.now book_in
        (shelved (F.content shelf.old) (F.faults shelf.old) (F.strays shelf.old))
        (shelved (F.content shelf.new) (F.faults shelf.new) (F.strays shelf.new))
        (answer_of status)) }
    ensures early { IfErr result IsEarly }
{
    let file = match file_passages(alloc, shelf, name, Role::Book) {
        Ok(file) => file,
        Err(status) => return Err(status),
    };
    match read_file(alloc, file) {
        Ok(book) => Ok(book),
        Err(BookFault::NoMemory) => Err(Status::NoMemory),
        Err(BookFault::Record(line, fault)) => Err(Status::Book(line, fault)),
    }
}

/// Refuses bytes at hand that are more than a file may have.
pub fn check_length(bytes: &[u8], role: Role) -> Result<(), Status>
    ensures limited { IsLimited role bytes.now result }
    ensures short { OnOk result (length bytes.now ≤ 67108864) }
    ensures early { IfErr result IsEarly }
{
    if bytes.len() <= MAX_BYTES {
        Ok(())
    } else {
        Err(too_long(role))
    }
}

/// The book that bytes at hand spell, or the status that ends the run.
pub fn book_of(alloc: Global, bytes: &[u8]) -> Result<Book, Status>
    ensures answer { Bears (book_in bytes.now) result }
    ensures early { IfErr result IsEarly }
{
    match check_length(bytes, Role::Book) {
        Ok(()) => {}
        Err(status) => return Err(status),
    }
    match read_book(alloc, bytes) {
        Ok(book) => Ok(book),
        Err(BookFault::NoMemory) => Err(Status::NoMemory),
        Err(BookFault::Record(line, fault)) => Err(Status::Book(line, fault)),
    }
}
