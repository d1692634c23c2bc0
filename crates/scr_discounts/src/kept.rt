//! The discounts of all currencies, kept so that no figure reckons them again.
ghost use Rattle.std.specs.Prelude.{◌≡◌, ◌<◌, ◌++◌, [], ◌∷◌, Some, length, slice_get, IfOk, OnOk, OnErr};

use scr_yield_curve::Discounts;
use std::alloc::{AllocError as NoMemory, Global};
use std::marker::Model;

/// The discounts of each currency in the order of the curves: as its rates are, after a rise and after a fall (Delegated
/// Regulation (EU) 2015/35, Articles 166 and 167). Contracts see the list of the rows.
#[derive(Drop)]
pub struct Curves {
    rows: Vec<[Discounts; 3]>,
}

impl Model for Curves {
    ghost use Rattle.std.specs.Prelude.{List};
    ghost use Rattle.scr_yield_curve.specs.declared.table.Discounts.{Discounts};

    ghost Value = { List (List Discounts) };

    ghost view = { λ curves. curves.rows.items };
}

impl Curves {
    /// Of no currency.
    pub fn new(alloc: Global) -> Result<Curves, NoMemory>
        ensures { IfOk result (λ curves. curves ≡ []) }
    {
        Ok(Curves {
            rows: Vec::new(alloc),
        })
    }

    /// Of no currency, with room for so many.
    pub(crate) fn with_capacity(alloc: Global, currencies: usize) -> Result<Curves, NoMemory>
        ensures { IfOk result (λ curves. curves ≡ []) }
    {
        let rows = Vec::with_capacity(alloc, currencies)?;
        Ok(Curves { rows })
    }

    /// Adds the discounts of one more currency at the end. `alloc` is where the list's memory comes from already.
    pub fn push(&mut self, alloc: Global, row: [Discounts; 3]) -> Result<(), NoMemory>
        ensures ok { OnOk result (self.new ≡ self.old ++ row ∷ []) }
        ensures err { OnErr result (self.new ≡ self.old) }
    {
        self.rows.push(row)?;
        Ok(())
    }

    /// The discounts of the currency at a place.
    pub fn row(&self, place: usize) -> &[Discounts; 3]
        requires { place < length self.now }
        ensures { slice_get self.now place ≡ Some result.now }
    {
        &self.rows[place]
    }
}
