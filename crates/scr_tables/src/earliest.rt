//! The first in byte order of the names of rows.
ghost use Rattle.std.specs.Prelude.{◌≡◌, Bool, Some, if◌then◌else◌, map, filter, fold};
ghost use Rattle.std.specs.Fn.{FnReturnsAt};
ghost use Rattle.scr_tables.specs.Names.{earlier};

use crate::{Name, Row, Rows};

impl<R: Row> Rows<R> {
    /// The first in byte order of a name that was found before, if one was, and of the names of the
    /// rows that count.
    pub fn earliest<F: Fn(&R) -> bool>(&self, found: Option<Name>, counts: F) -> Option<Name>
        requires callable { F.IsAlwaysCallable counts }
        ensures { (test : R → Bool)
            → ((row : R) (told : Bool) → FnReturnsAt F.Fn counts row told → told ≡ test row)
            → result ≡ fold earlier found (map R.name_of (filter test self.now)) }
    {
        let mut first = found;
        for row in self.iter() {
            first = earlier_if(counts(row), first, row.name());
        }
        first
    }
}

// The first and this name, where it counts: the earlier of them in byte order.
fn earlier_if(counts: bool, first: Option<Name>, name: Name) -> Option<Name>
    ensures { result ≡ (if counts then earlier first name else first) }
{
    if counts {
        Some(earlier(first, name))
    } else {
        first
    }
}

fn earlier(first: Option<Name>, name: Name) -> Name
    ensures { Some result ≡ earlier first name }
{
    match first {
        Some(first) => if name < first { name } else { first },
        None => name,
    }
}
