//! What is printed of a made book.
ghost use Rattle.std.specs.Prelude.{◌≡◌, ◌++◌, OnOk};
ghost use Rattle.scr_made.specs.Summary.{book_line, count_line, counts_text, edits_line, last_line};

use crate::making::{FUNDS, LIABILITIES, SECURITIES};
use std::alloc::{AllocError as NoMemory, Global};

/// Appends the number that a book was made from, and how many securities, funds and liabilities
/// each made book has.
#[tactic(auto, unfolding(crate::specs::Summary::counts_text))]
pub fn push_counts(alloc: Global, out: &mut Vec<u8>, number: u64) -> Result<(), NoMemory>
    ensures { OnOk result (out.new.items ≡ out.old.items ++ counts_text number) }
{
    push_count(alloc, out, "made ", number)?;
    push_count(alloc, out, "securities ", u64::from(SECURITIES))?;
    push_count(alloc, out, "funds ", u64::from(FUNDS))?;
    push_count(alloc, out, "lines ", u64::from(LIABILITIES))
}

#[tactic(auto, unfolding(crate::specs::Summary::count_line))]
fn push_count(alloc: Global, out: &mut Vec<u8>, label: &str, count: u64) -> Result<(), NoMemory>
    ensures { OnOk result (out.new.items ≡ out.old.items ++ count_line label.now count) }
{
    let digits = format!(in alloc; "{count}")?;
    push(out, label)?;
    push(out, digits.as_str())?;
    push(out, "\n")
}

/// Appends the line of a cell in the book.
#[tactic(auto, unfolding(crate::specs::Summary::book_line))]
pub fn push_book_line(_alloc: Global, out: &mut Vec<u8>, cell: &[u8]) -> Result<(), NoMemory>
    ensures { OnOk result (out.new.items ≡ out.old.items ++ book_line cell.now) }
{
    push(out, "book ")?;
    out.extend_from_slice(cell)
}

/// Appends how many records a script has, and how many of them were accepted.
#[tactic(auto, unfolding(crate::specs::Summary::edits_line))]
pub fn push_edits_line(
    alloc: Global,
    out: &mut Vec<u8>,
    edits: u32,
    accepted: u32,
) -> Result<(), NoMemory>
    ensures { OnOk result (out.new.items ≡ out.old.items ++ edits_line edits accepted) }
{
    let digits = format!(in alloc; "{edits}")?;
    let taken = format!(in alloc; "{accepted}")?;
    push(out, "edits ")?;
    push(out, digits.as_str())?;
    push(out, " accepted ")?;
    push(out, taken.as_str())?;
    push(out, "\n")
}

/// Appends the line of a cell after the last record.
#[tactic(auto, unfolding(crate::specs::Summary::last_line))]
pub fn push_last_line(_alloc: Global, out: &mut Vec<u8>, cell: &[u8]) -> Result<(), NoMemory>
    ensures { OnOk result (out.new.items ≡ out.old.items ++ last_line cell.now) }
{
    push(out, "last ")?;
    out.extend_from_slice(cell)
}

fn push(out: &mut Vec<u8>, text: &str) -> Result<(), NoMemory>
    ensures { OnOk result (out.new.items ≡ out.old.items ++ text.now) }
{
    out.extend_from_slice(text.as_bytes())
}
