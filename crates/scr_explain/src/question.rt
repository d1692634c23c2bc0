//! What the words of the command line ask.
ghost use Rattle.std.specs.Prelude.{◌≡◌, ◌<◌, ◌⊎◌, ℕ, IfSome, None, Some, codes, option_map, slice_get};
ghost use Rattle.clap.specs.Matches.{first_value, found_of};
ghost use Rattle.scr_cells.specs.Table.{table};
ghost use Rattle.scr_cells.specs.declared.table.TheConstants.{CELL_COUNT};
ghost use Rattle.scr_explanation.specs.declared.account.Extent.{Extent as ExtentSeen};
ghost use Rattle.scr_explain.specs.Answer.{AskNothing, CanAsk, HasNumber, IsAsked, IsExtent};

use clap::ArgMatches;
use scr_cells::{CELL_COUNT, cell_name};
use scr_explanation::Extent;

/// The most bytes of a record: those of a file.
const MAX_RECORD: usize = 67_108_864;

/// The most levels of a tree.
const MAX_DEPTH: u32 = 1_000;

/// What is asked of a book.
#[derive(Clone, Copy)]
pub enum Asked<'a> {
    /// Why the cell of this number is what it is, in a tree of this extent.
    Account(u32, Extent),
    /// Which cells a record moves.
    Moves(&'a str),
    /// A drawing of the requirement.
    Drawing,
}

/// A question, with the names of the files that it is about.
#[derive(Clone, Copy)]
pub struct Question<'a> {
    pub factors: &'a str,
    pub book: &'a str,
    pub asked: Asked<'a>,
}

/// What the words ask. Nothing exactly where no file is named, or where they ask nothing that can be asked: no cell has the name, or
/// the record is longer than a file may be.
pub fn question_of<'a>(matches: &ArgMatches<'a>) -> Option<Question<'a>>
    ensures files { IfSome result (λ question.
        (first_value (found_of matches.now) (codes "factors") ≡ Some question.factors.now)
        × (first_value (found_of matches.now) (codes "book") ≡ Some question.book.now)) }
    ensures asked { IfSome result (λ question. IsAsked (found_of matches.now) question.asked) }
    ensures can { IfSome result (λ question. CanAsk question.asked) }
    ensures none { result ≡ None → (first_value (found_of matches.now) (codes "factors") ≡ None)
        ⊎ (first_value (found_of matches.now) (codes "book") ≡ None)
        ⊎ AskNothing (found_of matches.now) }
{
    Some(Question {
        factors: matches.get_str("factors")?,
        book: matches.get_str("book")?,
        asked: asked_by(matches)?,
    })
}

/// The same without the files.
fn asked_by<'a>(matches: &ArgMatches<'a>) -> Option<Asked<'a>>
    ensures asked { IfSome result (IsAsked (found_of matches.now)) }
    ensures can { IfSome result CanAsk }
    ensures none { result ≡ None → AskNothing (found_of matches.now) }
{
    if matches.get_str("svg").is_some() {
        return Some(Asked::Drawing);
    }
    if let Some(record) = matches.get_str("record") {
        if record.len() > MAX_RECORD {
            return None;
        }
        return Some(Asked::Moves(record));
    }
    let extent = extent_of(matches)?;
    Some(Asked::Account(cell_named(matches.get_str("cell")?)?, extent))
}

/// The extent of the tree that is asked for.
fn extent_of(matches: &ArgMatches<'_>) -> Option<Extent>
    ensures given { IfSome result (IsExtent (found_of matches.now)) }
    ensures none { result ≡ None → (extent : ExtentSeen) → IsExtent (found_of matches.now) extent → ⊥ }
{
    Some(Extent {
        depth: number_of(matches, "depth")?.min(MAX_DEPTH),
        top: number_of(matches, "top")?,
    })
}

/// The number that is given under a name.
fn number_of(matches: &ArgMatches<'_>, name: &str) -> Option<u32>
    ensures given { IfSome result (HasNumber (found_of matches.now) name.now) }
    ensures none { result ≡ None → (number : ℕ) → HasNumber (found_of matches.now) name.now number → ⊥ }
{
    matches.get_one::<u32>(name)
}

/// The number of the first cell of this name.
fn cell_named(name: &str) -> Option<u32>
    ensures within { IfSome result (λ k. k < CELL_COUNT) }
    ensures named { IfSome result (λ k.
        option_map (λ cell. cell.name) (slice_get table k) ≡ Some name.now) }
    ensures none { result ≡ None → (k : ℕ) → k < CELL_COUNT
        → option_map (λ cell. cell.name) (slice_get table k) ≡ Some name.now → ⊥ }
{
    for k in 0..CELL_COUNT {
        if cell_name(k) == name {
            return Some(k);
        }
    }
    None
}
