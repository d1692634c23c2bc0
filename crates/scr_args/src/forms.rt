//! The written forms of the command line.
ghost use Rattle.std.specs.Prelude.{◌≡◌, option_and_then, option_map};
ghost use Rattle.scr_args.specs.Numbers.{made_in, workers_in};
ghost use Rattle.scr_args.specs.Forms as written;
ghost use Rattle.scr_args.specs.Texts.{form_of, text_of};

use crate::numbers::{read_made, read_workers};

/// What the values of the options say, where they have a written form.
#[derive(Clone, Copy)]
pub enum Form<'a> {
    Files {
        factors: &'a str,
        book: &'a str,
        edits: &'a str,
        workers: u32,
    },
    Make {
        factors: &'a str,
        number: u64,
        workers: u32,
    },
}

/// The table of forms: which options say what.
pub fn form_with<'a>(
    factors: Option<&'a str>,
    book: Option<&'a str>,
    edits: Option<&'a str>,
    make: Option<&'a str>,
    workers: Option<&'a str>,
) -> Option<Form<'a>>
    ensures { option_map form_of result ≡ written.form (text_of factors.entry) (text_of book.entry)
        (text_of edits.entry) (text_of make.entry) (text_of workers.entry) }
{
    match (factors, book, edits, make, workers) {
        (Some(factors), Some(book), Some(edits), None, Some(workers)) => {
            files(factors, book, edits, workers)
        }
        (Some(factors), None, None, Some(number), Some(workers)) => made(factors, number, workers),
        _ => None,
    }
}

fn files<'a>(factors: &'a str, book: &'a str, edits: &'a str, workers: &str) -> Option<Form<'a>>
    ensures { option_map form_of result
        ≡ option_map (written.Said.Files factors.now book.now edits.now) (workers_in workers.now) }
{
    let workers = read_workers(workers)?;
    Some(Form::Files {
        factors,
        book,
        edits,
        workers,
    })
}

fn made<'a>(factors: &'a str, number: &str, workers: &str) -> Option<Form<'a>>
    ensures { option_map form_of result ≡ option_and_then
        (λ n. option_map (written.Said.Make factors.now n) (workers_in workers.now))
        (made_in number.now) }
{
    let number = read_made(number)?;
    let workers = read_workers(workers)?;
    Some(Form::Make {
        factors,
        number,
        workers,
    })
}
