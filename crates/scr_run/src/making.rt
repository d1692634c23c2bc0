//! A run on a book that is made from a number.
ghost use Rattle.std.specs.Prelude.{◌≡◌, ◌≤◌, ℕ, List};
ghost use Rattle.std.specs.Io.KnownBytes.{IsAtEnd};
ghost use Rattle.scr_factors.specs.declared.fault.FactorFault.TheVariants as factor_faults;
ghost use Rattle.scr_io.specs.Content.{Content};
ghost use Rattle.scr_obligations.specs.Moment.{Shelved, shelved, sunk};
ghost use Rattle.scr_obligations.specs.Outcome.{TellsNothing};
ghost use Rattle.scr_obligations.specs.Owes.{Owes};
ghost use Rattle.scr_sheet.specs.declared.fault.Fault.TheVariants as faults;
ghost use Rattle.scr_run.specs.Plans.{book_plan, made_plan, script_plan};
ghost use Rattle.scr_run.specs.Statuses.{IsEnded, IsQuiet, answer_of};

use crate::crew::Crew;
use crate::files::{Role, book_of, check_length, file_factors};
use crate::report::WriteFault;
use crate::running::ended;
use crate::status::Status;
use crate::summary::write_summary;
use scr_factors::Factors;
use scr_io::{Gate, Shelf, Sink};
use scr_made::make;
use scr_tree::Engine;
use std::alloc::Global;
use std::thread::Threads;

/// Reads the factor file, makes a book and its script from the number, and writes their summary.
pub fn run_made<R: Threads + Sync, F: Shelf, K: Sink, G: Gate + Sync>(
    crew: &Crew<'_, R, G>,
    alloc: Global,
    factors_name: &str,
    number: u64,
    shelf: &mut F,
    sink: &mut K,
) -> Status
    requires crew { (1 ≤ crew.now.workers) × (crew.now.workers ≤ 64) }
    ensures owed { Owes (made_plan factors_name.now number)
        (shelved (F.content shelf.old) (F.faults shelf.old) (F.strays shelf.old))
        (shelved (F.content shelf.new) (F.faults shelf.new) (F.strays shelf.new))
        (sunk (K.written sink.old) (K.faults sink.old))
        (sunk (K.written sink.new) (K.faults sink.new))
        (answer_of result) }
    ensures begun { result ≡ Status.Usage → ⊥ }
    ensures never_memory { (result ≡ Status.Factors factor_faults.NoMemory → ⊥) ×
        ((line : ℕ) → result ≡ Status.Book line faults.NoMemory → ⊥) }
    ensures quiet { IsQuiet result → sink.new ≡ sink.old }
    ensures silent { TellsNothing (made_plan factors_name.now number) (F.content shelf.old)
        → sink.new ≡ sink.old }
    ensures read_to_end { IsEnded result → IsAtEnd (F.left shelf.new) }
{
    match file_factors(alloc, shelf, factors_name) {
        Ok(factors) => run_book(crew, alloc, factors, number, sink),
        Err(status) => status,
    }
}

/// Makes a book and its script, and writes their summary by these factors.
fn run_book<R: Threads + Sync, K: Sink, G: Gate + Sync>(
    crew: &Crew<'_, R, G>,
    alloc: Global,
    factors: Factors,
    number: u64,
    sink: &mut K,
) -> Status
    requires crew { (1 ≤ crew.now.workers) × (crew.now.workers ≤ 64) }
    ensures owed { (shelf : Shelved) → Owes (book_plan number factors) shelf shelf
        (sunk (K.written sink.old) (K.faults sink.old))
        (sunk (K.written sink.new) (K.faults sink.new))
        (answer_of result) }
    ensures begun { result ≡ Status.Usage → ⊥ }
    ensures never_memory { (result ≡ Status.Factors factor_faults.NoMemory → ⊥) ×
        ((line : ℕ) → result ≡ Status.Book line faults.NoMemory → ⊥) }
    ensures quiet { IsQuiet result → sink.new ≡ sink.old }
    ensures silent { (content : List ℕ → Content) → TellsNothing (book_plan number factors) content
        → sink.new ≡ sink.old }
{
    let Ok(made) = make(alloc, number) else {
        return Status::NoMemory;
    };
    let book = match book_of(alloc, made.book.as_slice()) {
        Ok(book) => book,
        Err(status) => return status,
    };
    let Ok(mut engine) = Engine::new(crew.rt, alloc, factors, book, crew.workers, crew.gate) else {
        return Status::NoMemory;
    };
    let status = run_script(
        crew,
        alloc,
        &mut engine,
        number,
        made.script.as_slice(),
        sink,
    );
    engine.close();
    status
}

/// Writes the summary of the engine's book, which was made from the number, and of its script.
fn run_script<R: Threads + Sync, K: Sink, G: Gate + Sync>(
    crew: &Crew<'_, R, G>,
    alloc: Global,
    engine: &mut Engine,
    number: u64,
    script: &[u8],
    sink: &mut K,
) -> Status
    requires crew { (1 ≤ crew.now.workers) × (crew.now.workers ≤ 64) }
    ensures owed { (shelf : Shelved)
        → Owes (script_plan engine.old.factors number script.now engine.old.sheet) shelf shelf
        (sunk (K.written sink.old) (K.faults sink.old))
        (sunk (K.written sink.new) (K.faults sink.new))
        (answer_of result) }
    ensures begun { result ≡ Status.Usage → ⊥ }
    ensures never_memory { (result ≡ Status.Factors factor_faults.NoMemory → ⊥) ×
        ((line : ℕ) → result ≡ Status.Book line faults.NoMemory → ⊥) }
    ensures quiet { IsQuiet result → sink.new ≡ sink.old }
    ensures silent { (content : List ℕ → Content)
        → TellsNothing (script_plan engine.old.factors number script.now engine.old.sheet) content
        → sink.new ≡ sink.old }
{
    match check_length(script, Role::Edits) {
        Ok(()) => {}
        Err(status) => return status,
    }
    match write_summary(crew, alloc, engine, number, script, sink) {
        Ok(refused) => ended(refused),
        Err(WriteFault::Failed) => Status::Write,
        Err(WriteFault::NoMemory) => Status::NoMemory,
    }
}
