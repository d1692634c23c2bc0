//! Laws of ids, for proofs above to cite.
ghost use Rattle.std.specs.Prelude.{ℕ, ◌<◌};
ghost use Rattle.scr_ids.specs.Ranges.{Numbered, count};
ghost use Rattle.scr_ids.specs.Moves.{Came, IsAsBefore, IsWholeAsBefore, PutBack, Retired, Went};
ghost use Rattle.scr_ids.specs.declared.table.Table.{Table};

use crate::{Place, Places, Table};

/// Appending a row and dropping it leaves every row its ids. So does removing a row and putting it back at its index, which
/// restores the free ranges too.
pub fn moves_back()
    ensures came { (table : Table) (before between after : Numbered) → Came table before between → Retired table between after
        → IsAsBefore before after }
    ensures went { (table : Table) (k : ℕ) (before between after : Numbered) → k < count before table → Went table k before between
        → PutBack table k between after → IsWholeAsBefore before after }
{}

/// Ids may be shared between threads and sent to them.
pub fn sharing() {
    shared::<Places>();
    shared::<Place>();
    shared::<Table>();
}

// Compiles only where threads may share a `T` and hand it on.
fn shared<T: Send + Sync>() {}
