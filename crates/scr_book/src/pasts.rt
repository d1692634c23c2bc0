//! Which row goes out and which comes back where what stood in a table before is put back.
ghost use Rattle.std.specs.Prelude.{◌≡◌};
ghost use Rattle.std.specs.Option.{option_copied};
ghost use Rattle.scr_book.specs.Pasts.{name_in, row_in};

use crate::Name;
use scr_sheet::{Past, Row};

/// The name of the row that goes out or comes back.
pub(crate) fn name_in<R: Row>(past: &Past<R>) -> Name
    ensures { result ≡ name_in R.name_of past.now }
{
    match past {
        Past::New(name) => *name,
        Past::Replaced(row) => row.name(),
        Past::Dropped { row, .. } => row.name(),
    }
}

/// The row that comes back, if there was one.
pub(crate) fn row_in<R: Row>(past: &Past<R>) -> Option<&R>
    ensures { option_copied result ≡ row_in past.now }
{
    match past {
        Past::New(_) => None,
        Past::Replaced(row) => Some(row),
        Past::Dropped { row, .. } => Some(row),
    }
}
