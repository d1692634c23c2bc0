//! The report, written block by block.
ghost use Rattle.std.specs.Prelude.{◌≡◌, ℕ, ◌≤◌, length, IfOk};
ghost use Rattle.scr_cells.specs.Block.{block_text};
ghost use Rattle.scr_csv.specs.Lines.{records};
ghost use Rattle.scr_obligations.specs.Moment.{sunk};
ghost use Rattle.scr_run.specs.Report.{answers, any_refused, report_text};
ghost use Rattle.scr_run.specs.Writing.{WritesText};

use crate::crew::Crew;
use crate::replies::{opening, reply_to};
use scr_cells::Lines;
use scr_csv::lines;
use scr_io::{Gate, Sink, write_all};
use scr_tree::Engine;
use std::alloc::Global;
use std::thread::Threads;

/// Why a text was not written to its end.
#[derive(Clone, Copy)]
pub enum WriteFault {
    /// The sink failed, and its count of faults rose.
    Failed,
    /// Memory was refused.
    NoMemory,
}

/// Writes the report on the engine's book and the edits of a file, one piece for the book and one for each
/// edit, and says whether an edit was refused.
pub fn write_report<R: Threads + Sync, K: Sink, G: Gate + Sync>(
    crew: &Crew<'_, R, G>,
    alloc: Global,
    engine: &mut Engine,
    edits: &[u8],
    sink: &mut K,
) -> Result<bool, WriteFault>
    requires crew { (1 ≤ crew.now.workers) × (crew.now.workers ≤ 64) }
    requires short { length edits.now ≤ 67108864 }
    ensures written { WritesText (report_text (block_text engine.old.factors) edits.now engine.old.sheet)
        (sunk (K.written sink.old) (K.faults sink.old))
        (sunk (K.written sink.new) (K.faults sink.new)) result }
    ensures refused { IfOk result (λ refused. refused ≡ any_refused
        (answers (records edits.now) engine.old.sheet)) }
{
    let mut printed = Lines::new(alloc);
    let Ok(text) = opening(alloc, engine, &mut printed) else {
        return Err(WriteFault::NoMemory);
    };
    match write_all(sink, text.as_slice()) {
        Ok(()) => {}
        Err(_) => return Err(WriteFault::Failed),
    }
    let mut refused = false;
    for line in lines(edits) {
        let Ok(reply) = reply_to(crew, alloc, engine, &mut printed, line.number, line.text) else {
            return Err(WriteFault::NoMemory);
        };
        refused |= reply.refused;
        match write_all(sink, reply.text.as_slice()) {
            Ok(()) => {}
            Err(_) => return Err(WriteFault::Failed),
        }
    }
    Ok(refused)
}
