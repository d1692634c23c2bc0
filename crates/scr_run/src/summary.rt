//! The summary of a made book and its script.
ghost use Rattle.std.specs.Prelude.{◌≡◌, ◌≤◌, IfOk, OnOk, is_ok, length};
ghost use Rattle.scr_cells.specs.Block.{requirement_line as line_of};
ghost use Rattle.scr_csv.specs.Lines.{records};
ghost use Rattle.scr_obligations.specs.Moment.{sunk};
ghost use Rattle.scr_tree.specs.Standing.{HasSheet};
ghost use Rattle.scr_run.specs.Report.{after, answers, any_refused};
ghost use Rattle.scr_run.specs.BookFile.{recorded};
ghost use Rattle.scr_run.specs.Summary.{accepted, left_by, summary_text};
ghost use Rattle.scr_run.specs.Writing.{WritesText};

use crate::crew::Crew;
use crate::records::edit;
use crate::report::WriteFault;
use scr_cells::requirement_line;
use scr_csv::lines;
use scr_io::{Gate, Sink, write_all};
use scr_made::{push_book_line, push_counts, push_edits_line, push_last_line};
use scr_tree::{Engine, Refusal};
use std::alloc::{AllocError as NoMemory, Global};
use std::thread::Threads;

/// The summary of a made book and its script.
#[derive(Drop)]
struct Summary {
    text: Vec<u8>,
    refused: bool,
}

/// How many records a script has, and how many of them were accepted.
#[derive(Clone, Copy)]
struct Counts {
    records: u32,
    accepted: u32,
}

/// Writes the summary of the engine's book, which was made from the number, and of its script, and
/// says whether a record of the script was refused.
pub fn write_summary<R: Threads + Sync, K: Sink, G: Gate + Sync>(
    crew: &Crew<'_, R, G>,
    alloc: Global,
    engine: &mut Engine,
    number: u64,
    script: &[u8],
    sink: &mut K,
) -> Result<bool, WriteFault>
    requires crew { (1 ≤ crew.now.workers) × (crew.now.workers ≤ 64) }
    requires short { length script.now ≤ 67108864 }
    ensures written { WritesText
        (summary_text (line_of engine.old.factors) number script.now engine.old.sheet)
        (sunk (K.written sink.old) (K.faults sink.old))
        (sunk (K.written sink.new) (K.faults sink.new)) result }
    ensures refused { IfOk result (λ refused. refused ≡ any_refused
        (answers (records script.now) engine.old.sheet)) }
{
    let Ok(summary) = summary_of(crew, alloc, engine, number, script) else {
        return Err(WriteFault::NoMemory);
    };
    match write_all(sink, summary.text.as_slice()) {
        Ok(()) => Ok(summary.refused),
        Err(_) => Err(WriteFault::Failed),
    }
}

fn summary_of<R: Threads + Sync, G: Gate + Sync>(
    crew: &Crew<'_, R, G>,
    alloc: Global,
    engine: &mut Engine,
    number: u64,
    script: &[u8],
) -> Result<Summary, NoMemory>
    requires crew { (1 ≤ crew.now.workers) × (crew.now.workers ≤ 64) }
    requires short { length script.now ≤ 67108864 }
    ensures text { IfOk result (λ summary. summary.text.items
        ≡ summary_text (line_of engine.old.factors) number script.now engine.old.sheet) }
    ensures refused { IfOk result (λ summary. summary.refused ≡ any_refused
        (answers (records script.now) engine.old.sheet)) }
{
    let mut text = Vec::new(alloc);
    push_counts(alloc, &mut text, number)?;
    let book = requirement_line(alloc, engine)?;
    push_book_line(alloc, &mut text, book.as_slice())?;
    let counts = apply_all(crew, alloc, engine, script)?;
    push_edits_line(alloc, &mut text, counts.records, counts.accepted)?;
    let last = requirement_line(alloc, engine)?;
    push_last_line(alloc, &mut text, last.as_slice())?;
    Ok(Summary {
        text,
        refused: counts.accepted < counts.records,
    })
}

/// Applies the records of the script to the engine's book one after another, but for those that are
/// refused, and counts them.
fn apply_all<R: Threads + Sync, G: Gate + Sync>(
    crew: &Crew<'_, R, G>,
    alloc: Global,
    engine: &mut Engine,
    script: &[u8],
) -> Result<Counts, NoMemory>
    requires crew { (1 ≤ crew.now.workers) × (crew.now.workers ≤ 64) }
    requires short { length script.now ≤ 67108864 }
    ensures records { IfOk result (λ counts. counts.records ≡ length (records script.now)) }
    ensures accepted { IfOk result (λ counts. counts.accepted
        ≡ accepted (answers (records script.now) engine.old.sheet)) }
    ensures engine { OnOk result (HasSheet (left_by engine.old.sheet (answers (records script.now) engine.old.sheet)) engine.old engine.new) }
{
    let mut counts = Counts {
        records: 0,
        accepted: 0,
    };
    for line in lines(script) {
        let accepted = is_accepted(crew, alloc, engine, line.text)?;
        counts.records += 1;
        counts.accepted += u32::from(accepted);
    }
    Ok(counts)
}

/// Applies a record to the engine's book, and says whether it was accepted.
fn is_accepted<R: Threads + Sync, G: Gate + Sync>(
    crew: &Crew<'_, R, G>,
    alloc: Global,
    engine: &mut Engine,
    text: &[u8],
) -> Result<bool, NoMemory>
    requires crew { (1 ≤ crew.now.workers) × (crew.now.workers ≤ 64) }
    requires short { length text.now ≤ 67108864 }
    ensures accepted { IfOk result (λ accepted. accepted
        ≡ is_ok (recorded text.now engine.old.sheet)) }
    ensures engine { OnOk result (HasSheet (after (recorded text.now engine.old.sheet) engine.old.sheet) engine.old engine.new) }
{
    match edit(crew, alloc, engine, text) {
        Ok(()) => Ok(true),
        Err(Refusal::Fault(_)) => Ok(false),
        Err(Refusal::NoMemory) => Err(NoMemory),
    }
}
