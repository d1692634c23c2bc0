//! A list of values that is made once.
ghost use Rattle.std.specs.Prelude.{◌≡◌, IfOk};
ghost use Rattle.std.specs.Cmp.Lexicographic.{pointwise, lists_equiv, lists_per};

use crate::Name;
use std::alloc::{AllocError as NoMemory, Global};
use std::marker::Model;

/// Names in an order.
pub type Names = Series<Name>;

/// Values in an order. Contracts see them as a list.
#[derive(Debug, Drop)]
pub struct Series<T: Copy> {
    values: Vec<T>,
}

impl<T: Copy> Model for Series<T> {
    ghost use Rattle.std.specs.Prelude.{List};

    ghost Value = { List T };

    ghost view = { λ series. series.values.items };
}

impl<T: Copy> Series<T> {
    /// These values.
    pub fn new(values: Vec<T>) -> Series<T>
        ensures { result ≡ values.items }
    {
        Series { values }
    }

    /// The values in their order.
    pub fn as_slice(&self) -> &[T]
        ensures { result.now ≡ self.now }
    {
        &self.values
    }

    /// The values, given back without memory.
    pub fn into_vec(self) -> Vec<T>
        ensures { result.items ≡ self }
    {
        self.values
    }

    /// The same values once more.
    pub fn copy(&self, alloc: Global) -> Result<Series<T>, NoMemory>
        ensures { IfOk result (λ copy. copy ≡ self.now) }
    {
        Ok(Series {
            values: Vec::from_slice(alloc, &self.values)?,
        })
    }
}

impl<T: Copy + PartialEq> PartialEq for Series<T> {
    ghost eq = { λ a b. pointwise T.eq a b };

    ghost laws = { lists_per T.laws };

    fn eq(&self, other: &Self) -> bool {
        self.as_slice() == other.as_slice()
    }
}

impl<T: Copy + Eq> Eq for Series<T> {
    ghost laws = { lists_equiv T.Eq.laws };
}
