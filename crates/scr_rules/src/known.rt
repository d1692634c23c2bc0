//! What figures take of the rates that are kept.
ghost use Rattle.std.specs.Prelude.{◌≡◌, ◌<◌, ◌≤◌, All, Some, length, slice_get, IfSome, sum_by, unsigned_abs};
ghost use Rattle.scr_dates.specs.Civil.{IsDay};
ghost use Rattle.scr_dates.specs.Payments.{total};
ghost use Rattle.scr_flow.specs.Due.{dues, AreNear};
ghost use Rattle.scr_discounts.specs.declared.known.CurrencyFalls.{CurrencyFalls};
ghost use Rattle.scr_rules.specs.Discounts.{falls_in};

use scr_book::BalanceSheet;
use scr_dates::Day;
use scr_discounts::Rates;
use scr_flow::{bucket, bucket_by};
use scr_nodes::Direction;
use scr_yield_curve::Falls;

/// The falls of the currency at a place where its rates change in a direction.
pub(crate) fn falls_of(rates: &Rates, place: usize, direction: Direction) -> &Falls
    requires { place < length rates.now.falls.items }
    ensures { (row : CurrencyFalls) → slice_get rates.now.falls.items place ≡ Some row
        → result.now ≡ falls_in direction row }
{
    match direction {
        Direction::Up => &rates.falls[place].up,
        Direction::Down => &rates.falls[place].down,
    }
}

/// Payments by maturity, by the anniversaries that are kept of the reference date, if they are.
pub(crate) fn bucketed(
    sheet: &BalanceSheet,
    kept: Option<&Rates>,
    payments: &[(Day, i64)],
) -> [i64; 100]
    requires kept { IfSome kept (λ rates. rates.now.years ≡ sheet.now.numbers.asof.number) }
    requires asof { IsDay sheet.now.numbers.asof.number }
    requires days { All (λ payment. IsDay payment.0.number) payments.now }
    requires near { AreNear sheet.now.numbers.asof.number payments.now }
    requires small { total payments.now ≤ 50_000_000_000_000 }
    ensures value { result ≡ dues sheet.now.numbers.asof.number payments.now }
    ensures no_larger { sum_by unsigned_abs result ≤ total payments.now }
{
    match kept {
        Some(rates) => bucket_by(&rates.years, payments),
        None => bucket(sheet.numbers.asof, payments),
    }
}
