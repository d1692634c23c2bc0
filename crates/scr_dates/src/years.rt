//! How many years it is to a payment.
ghost use Rattle.std.specs.Prelude.{◌≡◌, ◌<◌, ◌≤◌, pos, neg_ℤ, ◌+ℤ◌, ◌<ℤ◌, ◌≤ℤ◌};
ghost use Rattle.jiff_core.specs.Date.{epoch_day};
ghost use Rattle.scr_dates.specs.Civil.{IsDay, civil_date};
ghost use Rattle.scr_dates.specs.Years as spec;
ghost use Rattle.scr_dates.specs.Years.{is_later_in_year, maturity_of, IsLeast, IsMaturity};

use crate::{Day, Maturity};
use jiff_core::civil::Date;

/// The maturity of a payment: the least number of years, from 1 on, that takes the reference date
/// to the payment or past it. 29 February plus some years is 28 February in a year without a 29
/// February. Both days lie in the years 1900 to 2200. The rule is this project's own.
pub fn maturity(asof: Day, pay: Day) -> Maturity
    requires asof_in { IsDay asof.number }
    requires pay_in { IsDay pay.number }
    ensures value { result ≡ maturity_of asof.number pay.number }
    ensures least { IsMaturity asof.number pay.number result }
{
    if pay <= asof {
        return Maturity::Past;
    }
    let years = years_to(asof, pay);
    if years <= 100 {
        Maturity::Years(years as u8)
    } else {
        Maturity::TooFar(years)
    }
}

fn years_to(asof: Day, pay: Day) -> u16
    requires asof_in { IsDay asof.number }
    requires pay_in { IsDay pay.number }
    requires ahead { asof.number <ℤ pay.number }
    ensures value { result ≡ spec.years_to asof.number pay.number }
    ensures least { IsLeast asof.number pay.number result }
{
    let (start, end) = (date_of(asof), date_of(pay));
    // In the years before that of the payment the anniversary is too early, and in the years after
    // it late enough.
    let years = years_between(start, end);
    if is_later_in_year(start, end) {
        years + 1
    } else {
        years
    }
}

// How many years the second date's year is after the first's.
fn years_between(start: Date, end: Date) -> u16
    requires { start.year ≤ℤ end.year }
    ensures { start.year +ℤ pos result ≡ end.year }
{
    end.year.abs_diff(start.year)
}

fn date_of(day: Day) -> Date
    requires { IsDay day.number }
    ensures { epoch_day result ≡ day.number }
{
    Date::from_unix_epoch_day(i64::from(day.number)).unwrap()
}

// The second date comes later in its year than the first in its own: it is after the anniversary. So it is also of
// 29 February, which falls on the 28th only where no 29th follows.
fn is_later_in_year(start: Date, end: Date) -> bool
    ensures { result ≡ is_later_in_year (civil_date start) (civil_date end) }
{
    start.month < end.month || start.month == end.month && start.day < end.day
}
