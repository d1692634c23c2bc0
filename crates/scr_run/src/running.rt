//! A run of the program: from its words to its status.
ghost use Rattle.std.specs.Prelude.{◌≡◌, ◌≤◌, ℕ, None};
ghost use Rattle.std.specs.Io.KnownBytes.{IsAtEnd};
ghost use Rattle.scr_obligations.specs.Moment.{shelved, sunk};
ghost use Rattle.scr_obligations.specs.Outcome.{TellsNothing};
ghost use Rattle.scr_obligations.specs.Owes.{Owes};
ghost use Rattle.scr_factors.specs.declared.fault.FactorFault.TheVariants as factor_faults;
ghost use Rattle.scr_sheet.specs.declared.fault.Fault.TheVariants as faults;
ghost use Rattle.scr_run.specs.FileNames.{names_of};
ghost use Rattle.scr_run.specs.Plans.{ended_status, plan_of, plan_on, report_plan};
ghost use Rattle.scr_run.specs.Statuses.{answer_of, IsEnded, IsQuiet};
ghost use Rattle.scr_args.specs.Forms.{said as words_say};

use crate::crew::Crew;
use crate::files::{Role, file_book, file_bytes, file_factors};
use crate::making::run_made;
use crate::report::{WriteFault, write_report};
use crate::status::Status;
use scr_args::{Words, WordsFault, parse_words};
use scr_io::{Gate, Shelf, Sink};
use scr_tree::Engine;
use std::alloc::Global;
use std::thread::Threads;

/// The names of the files of a report.
#[derive(Clone, Copy)]
struct Files<'a> {
    factors: &'a str,
    book: &'a str,
    edits: &'a str,
}

/// Runs the program on its words, the words after its name. With `--factors`, `--book` and
/// `--edits`, each with the name of a file on the shelf, the report on the book and the edits goes
/// to the sink; with `--factors` and `--make` the summary of the book that is made from the number.
/// The figures are reckoned by the number of `--workers`, on which the text does not depend. The
/// files are read in this order, each is checked before the next is opened, and output begins when
/// all were read.
pub fn run<R: Threads + Sync, F: Shelf, K: Sink, G: Gate + Sync>(
    rt: &R,
    alloc: Global,
    words: &[String],
    shelf: &mut F,
    sink: &mut K,
    gate: &G,
) -> Status
    // What the words call for is done: the files of their plan are read in order, the first that
    // ends the run decides, and the text is written; or the run gives up, with its cause.
    ensures owed { Owes (plan_of (words_say words.now))
        (shelved (F.content shelf.old) (F.faults shelf.old) (F.strays shelf.old))
        (shelved (F.content shelf.new) (F.faults shelf.new) (F.strays shelf.new))
        (sunk (K.written sink.old) (K.faults sink.old))
        (sunk (K.written sink.new) (K.faults sink.new))
        (answer_of result) }

    // Of a shelf and a sink that tell nothing too: words that have no form touch neither, want of
    // memory is no fault of a file, the sink is touched only once all is read, and the last file
    // was read to its end where the report is whole.
    ensures usage { result ≡ Status.Usage → words_say words.now ≡ None }
    ensures untouched { words_say words.now ≡ None → shelf.new ≡ shelf.old }
    ensures never_memory { (result ≡ Status.Factors factor_faults.NoMemory → ⊥) ×
        ((line : ℕ) → result ≡ Status.Book line faults.NoMemory → ⊥) }
    ensures quiet { IsQuiet result → sink.new ≡ sink.old }
    ensures silent { TellsNothing (plan_of (words_say words.now)) (F.content shelf.old)
        → sink.new ≡ sink.old }
    ensures read_to_end { IsEnded result → IsAtEnd (F.left shelf.new) }
{
    match parse_words(alloc, words) {
        Ok(
            Words::Files {
                factors,
                book,
                edits,
                workers,
            },
        ) => {
            let crew = Crew { rt, workers, gate };
            let files = Files {
                factors: factors.as_str(),
                book: book.as_str(),
                edits: edits.as_str(),
            };
            report(&crew, alloc, files, shelf, sink)
        }
        Ok(
            Words::Make {
                factors,
                number,
                workers,
            },
        ) => {
            let crew = Crew { rt, workers, gate };
            run_made(&crew, alloc, factors.as_str(), number, shelf, sink)
        }
        Err(WordsFault::Usage) => Status::Usage,
        Err(WordsFault::NoMemory) => Status::NoMemory,
    }
}

/// Reads the factor file, the book and its edits, and writes the report on them.
fn report<R: Threads + Sync, F: Shelf, K: Sink, G: Gate + Sync>(
    crew: &Crew<'_, R, G>,
    alloc: Global,
    files: Files<'_>,
    shelf: &mut F,
    sink: &mut K,
) -> Status
    requires crew { (1 ≤ crew.now.workers) × (crew.now.workers ≤ 64) }
    ensures owed { Owes (report_plan (names_of files.entry))
        (shelved (F.content shelf.old) (F.faults shelf.old) (F.strays shelf.old))
        (shelved (F.content shelf.new) (F.faults shelf.new) (F.strays shelf.new))
        (sunk (K.written sink.old) (K.faults sink.old))
        (sunk (K.written sink.new) (K.faults sink.new))
        (answer_of result) }
    ensures begun { result ≡ Status.Usage → ⊥ }
    ensures never_memory { (result ≡ Status.Factors factor_faults.NoMemory → ⊥) ×
        ((line : ℕ) → result ≡ Status.Book line faults.NoMemory → ⊥) }
    ensures quiet { IsQuiet result → sink.new ≡ sink.old }
    ensures silent { TellsNothing (report_plan (names_of files.entry)) (F.content shelf.old)
        → sink.new ≡ sink.old }
    ensures read_to_end { IsEnded result → IsAtEnd (F.left shelf.new) }
{
    let factors = match file_factors(alloc, shelf, files.factors) {
        Ok(factors) => factors,
        Err(status) => return status,
    };
    let book = match file_book(alloc, shelf, files.book) {
        Ok(book) => book,
        Err(status) => return status,
    };
    let Ok(mut engine) = Engine::new(crew.rt, alloc, factors, book, crew.workers, crew.gate) else {
        return Status::NoMemory;
    };
    let status = report_on(crew, alloc, &mut engine, files.edits, shelf, sink);
    engine.close();
    status
}

/// Reads the edits of the engine's book, and writes the report on both.
fn report_on<R: Threads + Sync, F: Shelf, K: Sink, G: Gate + Sync>(
    crew: &Crew<'_, R, G>,
    alloc: Global,
    engine: &mut Engine,
    edits_name: &str,
    shelf: &mut F,
    sink: &mut K,
) -> Status
    requires crew { (1 ≤ crew.now.workers) × (crew.now.workers ≤ 64) }
    ensures owed { Owes (plan_on engine.old.factors edits_name.now engine.old.sheet)
        (shelved (F.content shelf.old) (F.faults shelf.old) (F.strays shelf.old))
        (shelved (F.content shelf.new) (F.faults shelf.new) (F.strays shelf.new))
        (sunk (K.written sink.old) (K.faults sink.old))
        (sunk (K.written sink.new) (K.faults sink.new))
        (answer_of result) }
    ensures begun { result ≡ Status.Usage → ⊥ }
    ensures never_memory { (result ≡ Status.Factors factor_faults.NoMemory → ⊥) ×
        ((line : ℕ) → result ≡ Status.Book line faults.NoMemory → ⊥) }
    ensures quiet { IsQuiet result → sink.new ≡ sink.old }
    ensures silent { TellsNothing (plan_on engine.old.factors edits_name.now engine.old.sheet)
        (F.content shelf.old) → sink.new ≡ sink.old }
    ensures read_to_end { IsEnded result → IsAtEnd (F.left shelf.new) }
{
    let edits = match file_bytes(alloc, shelf, edits_name, Role::Edits) {
        Ok(edits) => edits,
        Err(status) => return status,
    };
    match write_report(crew, alloc, engine, edits.as_slice(), sink) {
        Ok(refused) => ended(refused),
        Err(WriteFault::Failed) => Status::Write,
        Err(WriteFault::NoMemory) => Status::NoMemory,
    }
}

/// The status of a run whose text is whole.
pub fn ended(refused: bool) -> Status
    ensures { result ≡ ended_status refused }
{
    if refused {
        Status::Refused
    } else {
        Status::Done
    }
}
