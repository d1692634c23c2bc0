//! What an engine keeps beside its factors and its book, of a book that is reckoned for the first time.
ghost use Rattle.std.specs.Prelude.{◌≡◌, [], IfOk};
ghost use Rattle.scr_sheet.specs.Validity.{Valid};
ghost use Rattle.scr_tree.specs.Changed.{IsStateOf};

use crate::basis::Crew;
use crate::edits::State;
use crate::first::{Opened, reckon_all};
use crate::reckoning::Scratch;
use scr_book::Book;
use scr_factors::Factors;
use scr_io::Gate;
use scr_reachability::Marked;
use std::alloc::AllocError as NoMemory;
use std::thread::Threads;

/// All figures of a book with their numbers and links; the first edit makes room for marks. The gate is passed once for each. Only
/// want of memory is refused.
pub(crate) fn opened<R: Threads + Sync, G: Gate + Sync>(
    crew: &Crew<'_, R, G>,
    factors: &Factors,
    book: &Book,
) -> Result<State, NoMemory>
    ensures valid { IfOk result (λ state. Valid book.now.sheet) }
    ensures state { IfOk result (IsStateOf factors.now book.now) }
    ensures marks { IfOk result (λ state. state.marks.list ≡ []) }
{
    let Opened {
        rates,
        places,
        lists,
        figures,
        links,
    } = reckon_all(crew, factors, book)?;
    Ok(State {
        rates,
        places,
        lists,
        figures,
        links,
        marks: Marked::new(crew.alloc),
        scratch: Scratch::new(crew.alloc),
    })
}
