//! Numbers of lists, across the four tables that have any.
ghost use Rattle.std.specs.Prelude.{◌≡◌, ◌<◌, ◌≤◌, ◌^◌, IfSome, IsNone};
ghost use Rattle.scr_member_index.specs.Lists as spec;

use scr_book::Table;
use scr_ids::Table as Ranged;

/// The table of id ranges for the rows of a table.
pub(crate) fn ranges_of(table: Table) -> Ranged
    ensures { result ≡ spec.ranges_of table }
{
    match table {
        Table::Security => Ranged::Security,
        Table::Liability => Ranged::Liability,
        Table::Fund => Ranged::Fund,
        Table::Group | Table::Bank | Table::Rein | Table::Curve => Ranged::Group,
    }
}

/// The number of a list among the lists of all tables; `None` if it is 2^31 or more.
pub(crate) fn list_in(table: Table, number: u32) -> Option<u32>
    ensures there { IfSome result (λ list. list ≡ spec.list_in table number) }
    ensures absent { IsNone result → 2 ^ 31 ≤ spec.list_in table number }
{
    if number >= 1 << 29 {
        return None;
    }
    Some(4 * number + table_place(table))
}

fn table_place(table: Table) -> u32
    ensures place { result ≡ spec.table_place table }
    ensures few { result < 4 }
{
    match table {
        Table::Security => 0,
        Table::Liability => 1,
        Table::Fund => 2,
        Table::Group | Table::Bank | Table::Rein | Table::Curve => 3,
    }
}

/// The table of a list's members, and the list's number among the lists of that table.
pub fn list_of(list: u32) -> (Table, u32)
    ensures number { spec.list_in result.0 result.1 ≡ list }
    ensures table { spec.HasLists result.0 }
{
    let table = match list % 4 {
        0 => Table::Security,
        1 => Table::Liability,
        2 => Table::Fund,
        _ => Table::Group,
    };
    (table, list / 4)
}
