//! Look-ups of rows of which most ask for the last of the table: payments mostly come right after the row that has them. So the last
//! is tried before any name is looked up, which costs a comparison in the place of a hash.
ghost use Rattle.std.specs.Prelude.{◌≡◌, Some, IfSome, is_some, map, slice_get};
ghost use Rattle.std.specs.Option.{option_copied, option_map};
ghost use Rattle.scr_tables.specs.Tables.{has_row, row_of};

use crate::Name;
use scr_tables::{Row, Rows};

// The place of the row of this name.
pub(crate) fn recent_place<R: Row>(rows: &Rows<R>, name: &Name) -> Option<usize>
    ensures there { is_some result ≡ has_row R.name_of name.now rows.now }
    ensures place { IfSome result (λ k. option_map R.name_of (slice_get rows.now k) ≡ Some name.now) }
{
    let count = rows.len();
    if count > 0 && rows.at(count - 1).name() == *name {
        return Some(count - 1);
    }
    rows.place(name)
}

// The row of this name.
pub(crate) fn recent_row<'a, R: Row>(rows: &'a Rows<R>, name: &Name) -> Option<&'a R>
    ensures { option_copied result ≡ row_of R.name_of name.now rows.now }
{
    let _count = rows.len();
    let place = recent_place(rows, name)?;
    Some(rows.at(place))
}
