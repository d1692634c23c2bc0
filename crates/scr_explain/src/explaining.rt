//! The answer to a question: it reads the factor file and the book as `scr` does, and writes what is asked of them.
ghost use Rattle.std.specs.Prelude.{◌≡◌, ◌≤◌, ◌<◌, ◌++◌, length, IfOk, OnOk};
ghost use Rattle.scr_cells.specs.declared.table.TheConstants.{CELL_COUNT};
ghost use Rattle.scr_obligations.specs.Moment.{Shelved, sunk, shelved};
ghost use Rattle.scr_obligations.specs.Owes.{Owes};
ghost use Rattle.scr_run.specs.BookFile.{recorded};
ghost use Rattle.scr_run.specs.Statuses.{answer_of};
ghost use Rattle.scr_explain.specs.Answer.{CanAsk, account_answer, answer_to, answered, ask_of, drawing_answer, heading, moves_answer, question_plan};

use crate::question::{Asked, Question};
use scr_cells::{cell_name, cell_node};
use scr_drawing::push_drawing;
use scr_explanation::{Extent, cell_bounds, push_account, push_moves};
use scr_io::{OpenGate, Shelf, Sink, write_all};
use scr_run::{Crew, Status, edit, ended, file_book, file_factors, push_refusal};
use scr_tree::{Engine, Refusal};
use std::alloc::{AllocError as NoMemory, Global};
use std::thread::Threads;

/// What a question is answered.
#[derive(Drop)]
pub struct Reply {
    pub text: Vec<u8>,
    /// The record that was asked about is refused.
    pub refused: bool,
}

/// Reads the factor file and the book of the question, and writes the answer. Each is checked before
/// the next is opened, and output begins when both were read.
pub fn explain<R: Threads + Sync, F: Shelf, K: Sink>(
    rt: &R,
    alloc: Global,
    question: &Question<'_>,
    shelf: &mut F,
    sink: &mut K,
) -> Status
    requires { CanAsk question.now.asked }
    ensures { Owes (question_plan (ask_of question.now))
        (shelved (F.content shelf.old) (F.faults shelf.old) (F.strays shelf.old))
        (shelved (F.content shelf.new) (F.faults shelf.new) (F.strays shelf.new))
        (sunk (K.written sink.old) (K.faults sink.old))
        (sunk (K.written sink.new) (K.faults sink.new))
        (answer_of result) }
{
    let factors = match file_factors(alloc, shelf, question.factors) {
        Ok(factors) => factors,
        Err(status) => return status,
    };
    let book = match file_book(alloc, shelf, question.book) {
        Ok(book) => book,
        Err(status) => return status,
    };
    let Ok(mut engine) = Engine::new(rt, alloc, factors, book, 1, &OpenGate) else {
        return Status::NoMemory;
    };
    let status = tell(rt, alloc, &mut engine, question.asked, sink);
    engine.close();
    status
}

/// Writes the answer of the engine's book.
fn tell<R: Threads + Sync, K: Sink>(
    rt: &R,
    alloc: Global,
    engine: &mut Engine,
    asked: Asked<'_>,
    sink: &mut K,
) -> Status
    requires { CanAsk asked }
    ensures { (shelf : Shelved)
        → Owes (answered asked.entry engine.old.factors engine.old.sheet) shelf shelf
        (sunk (K.written sink.old) (K.faults sink.old))
        (sunk (K.written sink.new) (K.faults sink.new))
        (answer_of result) }
{
    let Ok(answer) = answer(rt, alloc, engine, asked) else {
        return Status::NoMemory;
    };
    match write_all(sink, answer.text.as_slice()) {
        Ok(()) => ended(answer.refused),
        Err(_) => Status::Write,
    }
}

/// The answer of the engine's book.
fn answer<R: Threads + Sync>(
    rt: &R,
    alloc: Global,
    engine: &mut Engine,
    asked: Asked<'_>,
) -> Result<Reply, NoMemory>
    requires { CanAsk asked }
    ensures { IfOk result (λ answer. (answer.text.items, answer.refused)
        ≡ answer_to engine.old.factors engine.old.sheet asked.entry) }
{
    match asked {
        Asked::Account(cell, extent) => account(alloc, engine, cell, extent),
        Asked::Moves(line) => moves(rt, alloc, engine, line),
        Asked::Drawing => drawing(alloc, engine),
    }
}

/// Why a cell of the engine's book is what it is.
#[tactic(auto, unfolding(crate::specs::Answer::account_answer))]
fn account(alloc: Global, engine: &Engine, cell: u32, extent: Extent) -> Result<Reply, NoMemory>
    requires cell { cell < CELL_COUNT }
    requires depth { extent.depth ≤ 1_000 }
    ensures { IfOk result (λ answer. (answer.text.items, answer.refused)
        ≡ account_answer engine.now.factors engine.now.sheet cell extent) }
{
    let mut text = Vec::new(alloc);
    push_heading(engine, cell, &mut text)?;
    push_account(alloc, engine, extent, &cell_node(cell), &mut text)?;
    Ok(Reply {
        text,
        refused: false,
    })
}

/// A drawing of the engine's book.
#[tactic(auto, unfolding(crate::specs::Answer::drawing_answer))]
fn drawing(alloc: Global, engine: &Engine) -> Result<Reply, NoMemory>
    ensures { IfOk result (λ answer. (answer.text.items, answer.refused)
        ≡ drawing_answer engine.now.factors engine.now.sheet) }
{
    let cells = cell_bounds(alloc, engine)?;
    let mut text = Vec::new(alloc);
    let currency = engine.book().sheet().numbers.currency.as_bytes();
    push_drawing(alloc, currency, cells.as_slice(), &mut text)?;
    Ok(Reply {
        text,
        refused: false,
    })
}

/// Appends the name of a cell, and the currency of its amounts.
#[tactic(auto, unfolding(crate::specs::Answer::heading))]
fn push_heading(engine: &Engine, cell: u32, text: &mut Vec<u8>) -> Result<(), NoMemory>
    requires { cell < CELL_COUNT }
    ensures { OnOk result (text.new.items ≡ text.old.items ++ heading engine.now.sheet cell) }
{
    text.extend_from_slice(cell_name(cell).as_bytes())?;
    text.extend_from_slice(b", amounts in ")?;
    text.extend_from_slice(engine.book().sheet().numbers.currency.as_bytes())?;
    text.extend_from_slice(b"\n")
}

/// Which cells of the engine's book a record moves, or why it is refused.
#[tactic(auto, unfolding(crate::specs::Answer::moves_answer))]
fn moves<R: Threads + Sync>(
    rt: &R,
    alloc: Global,
    engine: &mut Engine,
    line: &str,
) -> Result<Reply, NoMemory>
    requires { length line.now ≤ 67108864 }
    ensures { IfOk result (λ answer. (answer.text.items, answer.refused)
        ≡ moves_answer engine.old.factors engine.old.sheet (recorded line.now engine.old.sheet)) }
{
    let before = cell_bounds(alloc, engine)?;
    let crew = Crew {
        rt,
        workers: 1,
        gate: &OpenGate,
    };
    let mut text = Vec::new(alloc);
    match edit(&crew, alloc, engine, line.as_bytes()) {
        Ok(()) => {
            push_moves(alloc, &before, engine, &mut text)?;
            Ok(Reply {
                text,
                refused: false,
            })
        }
        Err(Refusal::NoMemory) => Err(NoMemory),
        Err(Refusal::Fault(fault)) => {
            text.extend_from_slice(b"refused ")?;
            push_refusal(alloc, &mut text, &fault)?;
            text.extend_from_slice(b"\n")?;
            Ok(Reply {
                text,
                refused: true,
            })
        }
    }
}
