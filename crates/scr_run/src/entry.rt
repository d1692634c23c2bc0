//! What the program does: it runs, tells how the run ended, and says its exit code.
ghost use Rattle.std.specs.Prelude.{◌≡◌, ◌≤◌, None, drop, IfOk};
ghost use Rattle.scr_obligations.specs.Moment.{shelved, sunk};
ghost use Rattle.scr_obligations.specs.Owes.{Owes};
ghost use Rattle.scr_run.specs.Codes.{code_of};
ghost use Rattle.scr_run.specs.Plans.{plan_of};
ghost use Rattle.scr_run.specs.Statuses.{answer_of};
ghost use Rattle.scr_run.specs.StatusTexts.{told_line};
ghost use Rattle.scr_run.specs.Writing.{IsTold, TellsLine};
ghost use Rattle.scr_args.specs.Forms.{said as words_say};
ghost use Rattle.scr_run.specs.declared.status.Status.{Status as Ended};

use crate::report::WriteFault;
use crate::running::run;
use crate::status::Status;
use crate::telling::status_line;
use scr_io::{Gate, Shelf, Sink, write_all};
use std::alloc::{AllocError as NoMemory, Global};
use std::thread::Threads;

/// Runs the program on its arguments, the first of which is its own name. The report goes to
/// `sink`, and the line of a status that is no end with a whole report to `errors`. The answer is
/// the exit code.
pub fn program<R: Threads + Sync, F: Shelf, K: Sink, E: Sink, G: Gate + Sync>(
    rt: &R,
    alloc: Global,
    arguments: &[String],
    shelf: &mut F,
    sink: &mut K,
    errors: &mut E,
    gate: &G,
) -> u8
    ensures ran { (status : Ended) × (result ≡ code_of status) × Owes
        (plan_of (words_say (drop 1 arguments.now)))
        (shelved (F.content shelf.old) (F.faults shelf.old) (F.strays shelf.old))
        (shelved (F.content shelf.new) (F.faults shelf.new) (F.strays shelf.new))
        (sunk (K.written sink.old) (K.faults sink.old))
        (sunk (K.written sink.new) (K.faults sink.new))
        (answer_of status)
        × IsTold (λ e. sunk (E.written e) (E.faults e)) (told_line status) errors.old errors.new }
    ensures usage { result ≡ 2 → words_say (drop 1 arguments.now) ≡ None }
    ensures untouched { words_say (drop 1 arguments.now) ≡ None → shelf.new ≡ shelf.old }
    ensures quiet { 2 ≤ result → result ≤ 5 → sink.new ≡ sink.old }
{
    let status = run(rt, alloc, words_of(arguments), shelf, sink, gate);
    conclude(alloc, &status, errors)
}

/// The words after the program's name.
fn words_of(arguments: &[String]) -> &[String]
    ensures { result.now ≡ drop 1 arguments.now }
{
    match arguments {
        [] => &[],
        [_, words @ ..] => words,
    }
}

/// Tells how a run ended, and answers the exit code. Where memory for the line is refused, nothing
/// of it is told; the code is the same wherever it cannot be told.
pub fn conclude<E: Sink>(alloc: Global, status: &Status, errors: &mut E) -> u8
    ensures code { result ≡ code_of status.now }
    ensures told { IsTold (λ e. sunk (E.written e) (E.faults e)) (told_line status.now)
        errors.old errors.new }
{
    let _ = tell(alloc, status, errors);
    status.code()
}

/// Writes the line of a status that is no end with a whole report; nothing where memory is refused.
fn tell<E: Sink>(alloc: Global, status: &Status, errors: &mut E) -> Result<(), WriteFault>
    ensures { TellsLine (λ e. sunk (E.written e) (E.faults e)) (told_line status.now)
        errors.old errors.new result }
{
    let Ok(line) = line_of(alloc, status) else {
        return Err(WriteFault::NoMemory);
    };
    match write_all(errors, line.as_slice()) {
        Ok(()) => Ok(()),
        Err(_) => Err(WriteFault::Failed),
    }
}

/// The line by which a status is told, with its end; none for an end with a whole report.
fn line_of(alloc: Global, status: &Status) -> Result<Vec<u8>, NoMemory>
    ensures { IfOk result (λ line. line.items ≡ told_line status.now) }
{
    let mut line = Vec::new(alloc);
    if status.code() < 2 {
        return Ok(line);
    }
    status_line(alloc, status, &mut line)?;
    line.push(b'\n')?;
    Ok(line)
}
