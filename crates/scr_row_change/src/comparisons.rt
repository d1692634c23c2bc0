//! Payments and rates compared.
ghost use Rattle.std.specs.Prelude.{◌≡◌};
ghost use Rattle.scr_row_change.specs.Comparisons.{same_payments, same_rates};

use scr_dates::Day;

/// Whether they are the same payments in the same order, with the same days and amounts.
pub fn same_payments(a: &[(Day, i64)], b: &[(Day, i64)]) -> bool
    ensures { result ≡ same_payments a.now b.now }
{
    a == b
}

/// Whether they are the same rates.
pub fn same_rates(a: &[i64], b: &[i64]) -> bool
    ensures { result ≡ same_rates a.now b.now }
{
    a == b
}
