//! What the words of the command line say.
ghost use Rattle.std.specs.Prelude.{◌≡◌, ◌↔◌, IfOk, IsErrOf, None, is_some, map, option_map, true};
ghost use Rattle.clap.specs.Matches.{first_value, found_of};
ghost use Rattle.scr_args.specs.Forms as written;
ghost use Rattle.scr_args.specs.Options.{value_of as given_value};
ghost use Rattle.scr_args.specs.Texts.{Tells, form_of, given_of, said_of};

use crate::command::command;
use crate::forms::{Form, form_with};
use crate::options::{GivenOption, options_given, value_of};
use crate::word::Word;
use clap::ArgMatches;
use clap::error::ErrorKind;
use std::alloc::{AllocError as NoMemory, Global};
use thiserror::Error;

/// What the words of the command line say.
#[derive(Drop)]
pub enum Words {
    /// A run on files: the names of the factor file, the book and its edits, and the number of
    /// workers, 1 to 64.
    Files {
        factors: Word,
        book: Word,
        edits: Word,
        workers: u32,
    },
    /// A run on a made book: the name of the factor file, the number that the book is made from,
    /// below 10^18, and the number of workers, 1 to 64.
    Make {
        factors: Word,
        number: u64,
        workers: u32,
    },
}

/// Why words say nothing.
#[derive(Clone, Copy, Debug, PartialEq, Eq, Drop, Error)]
pub enum WordsFault {
    /// The words have no written form.
    #[error("the words have no written form")]
    Usage,
    /// Memory was refused.
    #[error("out of memory")]
    NoMemory,
}

/// What the words say, the words after the program's name. The written form is a set of options,
/// each given once, in any order, as two words `--name value` or as one word `--name=value`:
/// `factors`, `book`, `edits` and `workers`, or `factors`, `make` and `workers`. A value is not
/// empty and does not begin with `-`; that of `workers` is one or two digits that stand for 1 to
/// 64, that of `make` 1 to 18 digits. Any other list of words is refused as `Usage`.
pub fn parse_words(alloc: Global, words: &[String]) -> Result<Words, WordsFault>
    ensures { Tells (written.said words.now) result }
{
    let found = matched(alloc, words)?;
    match is_written(alloc, words) {
        Ok(true) => {}
        Ok(false) => return Err(WordsFault::Usage),
        Err(_) => return Err(WordsFault::NoMemory),
    }
    match found {
        Some(form) => words_of(alloc, form).map_err(|_| WordsFault::NoMemory),
        None => Err(WordsFault::Usage),
    }
}

/// Whether the words have a written form.
fn is_written(alloc: Global, words: &[String]) -> Result<bool, NoMemory>
    ensures { IfOk result (λ due. due ≡ is_some (written.said words.now)) }
{
    match options_given(alloc, words)? {
        Some(options) => Ok(said_by(options.as_slice()).is_some()),
        None => Ok(false),
    }
}

/// What options say.
fn said_by<'a>(options: &[GivenOption<'a>]) -> Option<Form<'a>>
    ensures { option_map form_of result ≡ written.said_by (given_value (map given_of options.now)) }
{
    form_with(
        value_of(options, "factors"),
        value_of(options, "book"),
        value_of(options, "edits"),
        value_of(options, "make"),
        value_of(options, "workers"),
    )
}

/// What the words say as `clap` reads them, which reads those of the written form and more.
fn matched(alloc: Global, words: &[String]) -> Result<Option<Form<'_>>, WordsFault>
    ensures ok { IfOk result (λ found. is_some (written.said words.now) ≡ true
        → option_map form_of found ≡ written.said words.now) }
    ensures usage { IsErrOf result (WordsFault.Usage) → written.said words.now ≡ None }
{
    let Ok(command) = command(alloc) else {
        return Err(WordsFault::NoMemory);
    };
    match command.try_get_matches_from(words) {
        Ok(matches) => Ok(said_by_matches(&matches)),
        Err(error) => Err(fault_of(error.kind())),
    }
}

/// How an error of `clap` is told.
fn fault_of(kind: ErrorKind) -> WordsFault
    ensures { (result ≡ WordsFault.NoMemory) ↔ (kind ≡ ErrorKind.OutOfMemory) }
{
    match kind {
        ErrorKind::OutOfMemory => WordsFault::NoMemory,
        _ => WordsFault::Usage,
    }
}

/// What the values say that `clap` found.
fn said_by_matches<'a>(matches: &ArgMatches<'a>) -> Option<Form<'a>>
    ensures { option_map form_of result ≡ written.said_by (first_value (found_of matches.now)) }
{
    form_with(
        matches.get_str("factors"),
        matches.get_str("book"),
        matches.get_str("edits"),
        matches.get_str("make"),
        matches.get_str("workers"),
    )
}

/// The same with texts of its own.
fn words_of(alloc: Global, form: Form<'_>) -> Result<Words, NoMemory>
    ensures { IfOk result (λ words. said_of words ≡ form_of form.entry) }
{
    match form {
        Form::Files {
            factors,
            book,
            edits,
            workers,
        } => Ok(Words::Files {
            factors: Word::of(alloc, factors)?,
            book: Word::of(alloc, book)?,
            edits: Word::of(alloc, edits)?,
            workers,
        }),
        Form::Make {
            factors,
            number,
            workers,
        } => Ok(Words::Make {
            factors: Word::of(alloc, factors)?,
            number,
            workers,
        }),
    }
}
