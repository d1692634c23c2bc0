//! Payments, each at its own maturity.

ghost use Rattle.std.specs.Prelude.{◌≡◌, ◌*◌, ◌≤◌, pos, ◌≤ℤ◌, All, unsigned_abs};
ghost use Rattle.scr_num.specs.Rounding.{ends};
ghost use Rattle.scr_dates.specs.Civil.{IsDay};
ghost use Rattle.scr_yield_curve.specs.declared.table.TheConstants.{MAX_DISCOUNT};
ghost use Rattle.scr_dates.specs.Payments.{total};
ghost use Rattle.scr_flow.specs.Due.{dues, AreNear};
ghost use Rattle.scr_flow.specs.Sums.{weighted_ends};

use crate::falls::with_lost;
use scr_dates::{Day, Years};
use scr_num::{Span, exact};
use scr_yield_curve::Falls;

/// What payments of at least 0 lose by two lists of falls, found in one walk along the payments. They need not be summed by
/// maturity first, since payments of one sign add up. All days lie in the years 1900 to 2200, no payment lies further ahead
/// than 100 years, and the amounts sum to 5·10^13 at most.
pub fn both_losses(
    years: &Years,
    pairs: &[(Day, i64)],
    first: &Falls,
    second: &Falls,
) -> (Span, Span)
    requires days_in { All (λ pair. IsDay pair.0.number) pairs.now }
    requires near { AreNear years.now pairs.now }
    requires none_owed { All (λ pair. pos 0 ≤ℤ pair.1) pairs.now }
    requires small { total pairs.now ≤ 50_000_000_000_000 }
    ensures first { ends result.0 ≡ weighted_ends (dues years.now pairs.now) first.now }
    ensures second { ends result.1 ≡ weighted_ends (dues years.now pairs.now) second.now }
    ensures first_low { unsigned_abs result.0.low ≤ MAX_DISCOUNT * total pairs.now }
    ensures first_high { unsigned_abs result.0.high ≤ MAX_DISCOUNT * total pairs.now }
    ensures second_low { unsigned_abs result.1.low ≤ MAX_DISCOUNT * total pairs.now }
    ensures second_high { unsigned_abs result.1.high ≤ MAX_DISCOUNT * total pairs.now }
{
    let mut left = exact(0);
    let mut right = exact(0);
    let mut last = 0;
    for (day, amount) in pairs {
        let maturity = usize::from(years.until_after(last, *day));
        last = maturity;
        if maturity > 0 {
            left = with_lost(left, first, maturity - 1, *amount);
            right = with_lost(right, second, maturity - 1, *amount);
        }
    }
    (left, right)
}
