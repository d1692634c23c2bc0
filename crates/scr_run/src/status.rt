//! How a run ends.
ghost use Rattle.std.specs.Prelude.{◌≡◌, ℕ};
ghost use Rattle.scr_run.specs.Codes.{code_of};

use scr_book::Fault;
use scr_factors::FactorFault;

/// Which of the files of records is too long.
#[derive(Clone, Copy)]
pub enum Which {
    Book,
    Edits,
}

/// How a run ended.
#[derive(Drop)]
pub enum Status {
    /// All was read and written, and every edit was accepted.
    Done,
    /// All was read and written, and at least one edit was refused.
    Refused,
    /// The words are not in their written form.
    Usage,
    /// The factor file has this fault, which is never want of memory.
    Factors(FactorFault),
    /// The factor file has more than 64 MiB.
    FactorsTooLong,
    /// The first record of the book that has a fault: the number of its line, and the fault, which
    /// is never want of memory.
    Book(u32, Fault),
    /// The file has more than 64 MiB.
    TooLong(Which),
    /// The file could not be read.
    Read,
    /// The report could not be written to its end.
    Write,
    /// Memory was refused.
    NoMemory,
}

impl Status {
    /// The exit code of the program: 0 where all went well, 1 where an edit was refused, and from 2
    /// to 7 by the cause of the failure.
    pub fn code(&self) -> u8
        ensures { result ≡ code_of self.now }
    {
        match self {
            Status::Done => 0,
            Status::Refused => 1,
            Status::Usage => 2,
            Status::Factors(_) | Status::FactorsTooLong => 3,
            Status::Book(..) | Status::TooLong(_) => 4,
            Status::Read => 5,
            Status::Write => 6,
            Status::NoMemory => 7,
        }
    }
}
