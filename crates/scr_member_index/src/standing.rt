//! The seats of the row of a record, before the record and after it.
ghost use Rattle.std.specs.Prelude.{◌≡◌, ℕ, IfSome, None, Some, if◌then◌else◌, length, map};
ghost use Rattle.std.specs.List.{position_or_len};
ghost use Rattle.std.specs.Option.{option_map};
ghost use Rattle.scr_tables.specs.Names.{same_name};
ghost use Rattle.scr_tables.specs.Tables.{has_row};
ghost use Rattle.scr_ids.specs.Ranges.{count, first};
ghost use Rattle.scr_member_lists.specs.Seatings.{AreSeated, free, seats_of};
ghost use Rattle.scr_sheet.specs.Members.{edit_name};
ghost use Rattle.scr_book.specs.Rolls.{moves_in, same_table};
ghost use Rattle.scr_member_index.specs.Lists.{HasLists, HaveRanges};
ghost use Rattle.scr_member_index.specs.Standing as spec;

use scr_book::{Book, Edit, Name, Table};
use scr_ids::{Places, Table as Ranged};
use scr_member_lists::{Seating, Seats};
use scr_tables::{Row, Rows};

/// The row of a record before it: its table, name and seats, and its first id if it was there.
#[derive(Clone, Copy)]
pub struct Stood {
    table: Table,
    name: Name,
    seats: Seats,
    first: Option<u32>,
}

/// The move of a row through member lists by one record: the seats before and after, and the row's first id.
#[derive(Clone, Copy)]
pub struct Move {
    pub(crate) table: Table,
    pub(crate) before: Seats,
    pub(crate) after: Seats,
    pub(crate) first: u32,
}

/// The row of the record before it is applied; `None` if rows of its kind are in no list.
pub fn stood_of(book: &Book, places: &Places, edit: &Edit) -> Option<Stood>
    requires { HaveRanges book.now.sheet places.now }
    ensures { result ≡ spec.stood_of edit.now book.now places.now }
{
    let (table, name) = moving_row(edit)?;
    let (seats, first) = row_of(book, places, table, &name);
    Some(Stood {
        table,
        name,
        seats,
        first,
    })
}

/// The move of the row by the record, which the book has applied; `None` if the row neither was nor is there.
pub fn move_of(book: &Book, places: &Places, stood: &Option<Stood>) -> Option<Move>
    requires ranges { HaveRanges book.now.sheet places.now }
    requires table { IfSome stood.now (λ stood. HasLists stood.table) }
    ensures { result ≡ spec.move_of stood.now book.now places.now }
{
    let stood = stood.as_ref()?;
    let (after, first) = row_of(book, places, stood.table, &stood.name);
    let first = match first {
        Some(first) => first,
        None => stood.first?,
    };
    Some(Move {
        table: stood.table,
        before: stood.seats,
        after,
        first,
    })
}

// The seats of the row of a name, and its first id if it is there.
fn row_of(book: &Book, places: &Places, table: Table, name: &Name) -> (Seats, Option<u32>)
    requires ranges { HaveRanges book.now.sheet places.now }
    requires table { HasLists table }
    ensures seats { result.0 ≡ spec.seats_in table name.now book.now }
    ensures first { result.1 ≡ spec.first_in table name.now book.now places.now }
{
    let sheet = book.sheet();
    match table {
        Table::Security => row_at(
            &sheet.securities,
            book.security_seats(),
            places,
            Ranged::Security,
            name,
        ),
        Table::Liability => row_at(
            &sheet.liabilities,
            book.liability_seats(),
            places,
            Ranged::Liability,
            name,
        ),
        Table::Fund => row_at(&sheet.funds, book.fund_seats(), places, Ranged::Fund, name),
        Table::Group => row_at(
            &sheet.groups,
            book.group_seats(),
            places,
            Ranged::Group,
            name,
        ),
        Table::Bank | Table::Rein | Table::Curve => unreachable!(),
    }
}

fn row_at<R: Row, const N: usize>(
    rows: &Rows<R>,
    seating: &Seating<N>,
    places: &Places,
    table: Ranged,
    name: &Name,
) -> (Seats, Option<u32>)
    requires seated { AreSeated (map R.name_of rows.now) seating.now }
    requires ranges { count places.now table ≡ length (map R.name_of rows.now) }
    ensures seats { result.0 ≡ (if has_row R.name_of name.now rows.now
        then seats_of (map R.name_of rows.now) seating.now.seats name.now else free) }
    ensures first { result.1 ≡ (if has_row R.name_of name.now rows.now
        then Some (first places.now table (position_or_len (same_name name.now) (map R.name_of rows.now))) else None) }
{
    let _count = rows.len();
    match rows.place(name) {
        Some(row) => (seating.seats(row), Some(places.first(table, row))),
        None => (Seats::free(), None),
    }
}

// Table and name of the row that the record is about; `None` if rows of its kind are in no list.
fn moving_row(edit: &Edit) -> Option<(Table, Name)>
    ensures row { result ≡ option_map (λ table. (table, edit_name edit.now)) (moves_in edit.now) }
    ensures table { IfSome result (λ row. HasLists row.0) }
{
    match edit {
        Edit::Group { name, .. } => Some((Table::Group, *name)),
        Edit::Security { name, .. } => Some((Table::Security, *name)),
        Edit::Fund { name, .. } => Some((Table::Fund, *name)),
        Edit::Liability { name, .. } => Some((Table::Liability, *name)),
        Edit::Flows { security, .. } => Some((Table::Security, *security)),
        Edit::LiabilityFlows { liability, .. } => Some((Table::Liability, *liability)),
        Edit::Remove { table, name } if has_lists(*table) => Some((*table, *name)),
        _ => None,
    }
}

// Whether rows of the table are members of lists.
fn has_lists(table: Table) -> bool
    ensures { result ≡ same_table table table }
{
    match table {
        Table::Security | Table::Fund | Table::Liability | Table::Group => true,
        Table::Bank | Table::Rein | Table::Curve => false,
    }
}
