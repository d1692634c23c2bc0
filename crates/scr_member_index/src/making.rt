//! Builds the index of a book's member lists.
ghost use Rattle.std.specs.Prelude.{◌≡◌, ℕ, IfOk, List, length};
ghost use Rattle.std.specs.List.{IsDistinct, position_or_len};
ghost use Rattle.scr_tables.specs.Names.{same_name};
ghost use Rattle.scr_ids.specs.Ranges.{count, first};
ghost use Rattle.scr_member_lists.specs.Seatings.{AreSeated};
ghost use Rattle.scr_sum_slots.specs.Filling.{AreFirsts};
ghost use Rattle.scr_member_index.specs.Lists as spec;
ghost use Rattle.scr_member_index.specs.Lists.{AreListsOf, HaveRanges};
ghost use Rattle.scr_member_index.specs.Parting.{AreGrown, HasMoreParts};

use crate::Lists;
use crate::naming::ranges_of;
use crate::parting::{grow_all, number_parts};
use scr_book::{Book, Table};
use scr_ids::Places;
use scr_member_lists::Seating;
use scr_sum_slots::{Firsts, Parts};
use std::alloc::{AllocError as NoMemory, Global};

/// The index of a book's member lists: first ids beside the lists, and parts, whose ids are appended to `places`. `NoMemory` if it
/// doesn't fit.
pub fn lists_of(alloc: Global, book: &Book, places: &mut Places) -> Result<Lists, NoMemory>
    requires { HaveRanges book.now.sheet places.old }
    ensures ok { IfOk result (AreListsOf book.now places.new) }
    ensures more { HasMoreParts places.old places.new }
{
    // Brings the invariant into sight: the sheet is valid, so no two rows of a table share a name.
    let _sheet = book.sheet();
    let mut parts = Parts::new(alloc)?;
    let securities = listed(
        alloc,
        &mut parts,
        book.security_seats(),
        places,
        Table::Security,
    )?;
    let liabilities = listed(
        alloc,
        &mut parts,
        book.liability_seats(),
        places,
        Table::Liability,
    )?;
    let funds = listed(alloc, &mut parts, book.fund_seats(), places, Table::Fund)?;
    let groups = listed(alloc, &mut parts, book.group_seats(), places, Table::Group)?;
    number_parts(&parts, places)?;
    // Brings the invariant into sight: each part's slot is below the number of slots.
    let _slots = parts.len();
    Ok(Lists {
        securities,
        liabilities,
        funds,
        groups,
        parts,
    })
}

// The first ids beside the lists of a table, whose parts are added.
fn listed<const N: usize>(
    alloc: Global,
    parts: &mut Parts,
    seating: &Seating<N>,
    places: &Places,
    table: Table,
) -> Result<Firsts, NoMemory>
    requires { length seating.now.seats ≡ count places.now (spec.ranges_of table) }
    ensures firsts { IfOk result (λ firsts. (names : List (List ℕ)) → AreSeated names seating.now → IsDistinct same_name names
        → AreFirsts (λ name. first places.now (spec.ranges_of table) (position_or_len (same_name name) names)) seating.now.rolls firsts) }
    ensures parts { IfOk result (λ firsts. AreGrown table firsts parts.old parts.new) }
{
    let firsts = Firsts::of(alloc, seating, places, ranges_of(table))?;
    grow_all(alloc, parts, table, &firsts)?;
    Ok(firsts)
}
