//! The anniversaries of a reference date.
ghost use Rattle.std.specs.Prelude.{◌≡◌, ◌≢◌, ℕ, ◌-◌, ◌≤◌, pos, ◌+ℤ◌, ◌<ℤ◌, ◌≤ℤ◌};
ghost use Rattle.jiff_core.specs.Date.{epoch_day};
ghost use Rattle.scr_dates.specs.Civil.{IsDay, civil_date, day_number};
ghost use Rattle.scr_dates.specs.Payments.{years_of};
ghost use Rattle.scr_dates.specs.Years.{anniversary, maturity_of, years_later};
ghost use Rattle.scr_dates.specs.declared.term.Maturity.TheVariants.{TooFar};

use crate::day::Day;
use jiff_core::civil::Date;
use std::marker::Model;

/// The most days from one anniversary to the next.
const LONGEST_YEAR: u32 = 366;

/// The reference date and the days 1 to 100 years after it. 29 February plus some years is 28 February in a year without
/// a 29 February. Contracts see the number of the reference date.
#[derive(Drop)]
pub struct Years {
    asof: Day,
    days: [i32; 101],
}

impl Model for Years {
    ghost use Rattle.std.specs.Prelude.{ℤ};
    ghost use Rattle.scr_dates.specs.Kept.{IsKept};

    ghost Value = { ℤ };

    ghost view = { λ years. years.asof.number };

    ghost invariant = { λ years. IsKept years.asof.number years.days };
}

impl Years {
    /// Those of a reference date in the years 1900 to 2200.
    pub fn new(asof: Day) -> Years
        requires { IsDay asof.number }
        ensures { result ≡ asof.number }
    {
        let start = date_of(asof);
        let mut days = [0; 101];
        for n in 0..101 {
            days[usize::from(n)] = anniversary(start, n);
        }
        Years { asof, days }
    }

    /// The years to a payment, as its maturity tells: the least number of years, from 1 on, that takes the reference date to
    /// the payment or past it, and 0 for a payment on or before the reference date. The payment lies in the years 1900 to
    /// 2200, and no further ahead than 100 years.
    pub fn until(&self, pay: Day) -> u8
        requires pay_in { IsDay pay.number }
        requires near { (years : ℕ) → maturity_of self.now pay.number ≢ TooFar years }
        ensures value { result ≡ years_of (maturity_of self.now pay.number) }
        ensures most { result ≤ 100 }
    {
        if pay.number <= self.asof.number {
            return 0;
        }
        for n in self.first_guess(pay)..101 {
            if pay.number <= self.days[n] {
                return n as u8;
            }
        }
        unreachable!()
    }

    /// The same. The year after so many is tried first, since payments mostly follow one another year by year.
    pub fn until_after(&self, last: usize, pay: Day) -> u8
        requires pay_in { IsDay pay.number }
        requires near { (years : ℕ) → maturity_of self.now pay.number ≢ TooFar years }
        ensures value { result ≡ years_of (maturity_of self.now pay.number) }
        ensures most { result ≤ 100 }
    {
        if last < 100 && self.days[last] < pay.number && pay.number <= self.days[last + 1] {
            return (last + 1) as u8;
        }
        self.until(pay)
    }

    // A number of years before which the payment is not reached.
    fn first_guess(&self, pay: Day) -> usize
        requires pay_in { IsDay pay.number }
        requires ahead { self.now <ℤ pay.number }
        ensures least { 1 ≤ result }
        ensures most { result ≤ 100 }
        ensures before { anniversary self.now (result - 1) <ℤ pay.number }
    {
        let days = (pay.number - self.asof.number) as u32;
        let years = ((days - 1) / LONGEST_YEAR).min(99) as usize;
        if self.days[years] < pay.number {
            years + 1
        } else {
            1
        }
    }
}

fn date_of(day: Day) -> Date
    requires { IsDay day.number }
    ensures { epoch_day result ≡ day.number }
{
    Date::from_unix_epoch_day(i64::from(day.number)).unwrap()
}

// The day so many years after a date.
fn anniversary(start: Date, years: u8) -> i32
    requires start { IsDay (epoch_day start) }
    requires years { years ≤ 100 }
    ensures { result ≡ day_number (years_later (civil_date start) years) }
{
    Date::constrain(later_year(start, years), start.month, start.day).to_unix_epoch_day()
}

fn later_year(start: Date, years: u8) -> i16
    requires start { start.year ≤ℤ pos 2200 }
    requires years { years ≤ 100 }
    ensures { result ≡ start.year +ℤ pos years }
{
    start.year + i16::from(years)
}
