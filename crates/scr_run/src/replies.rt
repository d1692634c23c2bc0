//! The first lines of the report, and the replies to the records of the edits.
ghost use Rattle.std.specs.Prelude.{◌≡◌, ℕ, ◌≤◌, ◌++◌, length, is_err, OnOk, IfOk};
ghost use Rattle.scr_cells.specs.Block.{block_text};
ghost use Rattle.scr_tree.specs.Standing.{HasSheet};
ghost use Rattle.scr_run.specs.BookFile.{recorded};
ghost use Rattle.scr_run.specs.Report.{opening_text, reply_start, accepted_text, refused_text, reply_text, after};

use crate::crew::Crew;
use crate::printing::{number_of, push, push_fault, push_number};
use crate::records::edit;
use scr_book::Fault;
use scr_cells::Lines;
use scr_io::Gate;
use scr_tree::{Engine, Refusal};
use std::alloc::{AllocError as NoMemory, Global};
use std::thread::Threads;

/// The reply to a record of the edits.
#[derive(Drop)]
pub struct Reply {
    pub text: Vec<u8>,
    pub refused: bool,
}

/// The first lines of the report, for the book as its file gives it. The lines of its block are kept for the blocks after it.
#[tactic(auto, unfolding(crate::specs::Report::opening_text))]
pub fn opening(alloc: Global, engine: &Engine, lines: &mut Lines) -> Result<Vec<u8>, NoMemory>
    ensures text { IfOk result (λ text. text.items ≡ opening_text
        (block_text engine.now.factors) engine.now.sheet) }
{
    let mut out = Vec::new(alloc);
    push(&mut out, "# 0 book\n")?;
    lines.print(alloc, engine, &mut out)?;
    Ok(out)
}

/// Applies the record of a line to the engine's book, and replies: with the block of the book that
/// it leaves, or with the fault for which it is refused. The book is as before where the record is
/// refused.
pub fn reply_to<R: Threads + Sync, G: Gate + Sync>(
    crew: &Crew<'_, R, G>,
    alloc: Global,
    engine: &mut Engine,
    lines: &mut Lines,
    number: u32,
    text: &[u8],
) -> Result<Reply, NoMemory>
    requires crew { (1 ≤ crew.now.workers) × (crew.now.workers ≤ 64) }
    requires short { length text.now ≤ 67108864 }
    ensures text { IfOk result (λ reply. reply.text.items ≡ reply_text
        (block_text engine.old.factors) number (recorded text.now engine.old.sheet)) }
    ensures refused { IfOk result (λ reply. reply.refused
        ≡ is_err (recorded text.now engine.old.sheet)) }
    ensures engine { OnOk result (HasSheet (after (recorded text.now engine.old.sheet) engine.old.sheet) engine.old engine.new) }
{
    match edit(crew, alloc, engine, text) {
        Ok(()) => Ok(Reply {
            text: accepted(alloc, engine, lines, number)?,
            refused: false,
        }),
        Err(Refusal::NoMemory) => Err(NoMemory),
        Err(Refusal::Fault(fault)) => Ok(Reply {
            text: refused(alloc, number, &fault)?,
            refused: true,
        }),
    }
}

#[tactic(auto, unfolding(crate::specs::Report::accepted_text))]
fn accepted(
    alloc: Global,
    engine: &Engine,
    lines: &mut Lines,
    number: u32,
) -> Result<Vec<u8>, NoMemory>
    ensures text { IfOk result (λ text. text.items ≡ accepted_text
        (block_text engine.now.factors) number engine.now.sheet) }
{
    let mut out = start(alloc, number)?;
    push(&mut out, "ok\n")?;
    lines.print(alloc, engine, &mut out)?;
    Ok(out)
}

#[tactic(auto, unfolding(crate::specs::Report::refused_text))]
fn refused(alloc: Global, number: u32, fault: &Fault) -> Result<Vec<u8>, NoMemory>
    ensures { IfOk result (λ text. text.items ≡ refused_text number fault.now) }
{
    let mut out = start(alloc, number)?;
    push(&mut out, "refused ")?;
    push_number(alloc, &mut out, number_of(fault))?;
    push(&mut out, " ")?;
    push_fault(alloc, &mut out, fault)?;
    push(&mut out, "\n")?;
    Ok(out)
}

#[tactic(auto, unfolding(crate::specs::Report::reply_start))]
fn start(alloc: Global, number: u32) -> Result<Vec<u8>, NoMemory>
    ensures { IfOk result (λ text. text.items ≡ reply_start number) }
{
    let mut out = Vec::new(alloc);
    push(&mut out, "# ")?;
    push_number(alloc, &mut out, number)?;
    push(&mut out, " ")?;
    Ok(out)
}
