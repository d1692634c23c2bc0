//! How days are written.
ghost use Rattle.std.specs.Prelude.{◌≡◌, ◌++◌, ◌<◌, ◌≤◌, pos, unsigned_abs, ◌≤ℤ◌, OnOk};
ghost use Rattle.jiff_core.specs.Date.{epoch_day};
ghost use Rattle.scr_dates.specs.Civil.{IsDay, civil_date, date_of};
ghost use Rattle.scr_fields.specs.Texts.{day_text, civil_text, date_text, tens, ones};

use jiff::civil::Date;
use jiff_core::civil;
use scr_dates::Day;
use std::alloc::{AllocError as NoMemory, Global};

/// Appends a day as `YYYY-MM-DD`, and nothing for a day outside the years 1900 to 2200.
#[tactic(auto, unfolding(crate::specs::Texts::day_text))]
pub fn push_day(alloc: Global, day: Day, out: &mut Vec<u8>) -> Result<(), NoMemory>
    ensures { OnOk result (out.new.items ≡ out.old.items ++ day_text day) }
{
    // The text grows by its own allocator.
    let _ = alloc;
    if day.number < -25_567 || 84_370 < day.number {
        return Ok(());
    }
    let date = date_of(day);
    let (month, ordinal) = (date.month().unsigned_abs(), date.day().unsigned_abs());
    push_date(date.year().unsigned_abs(), month, ordinal, out)
}

#[tactic(auto, unfolding(crate::specs::Texts::date_text))]
fn push_date(year: u16, month: u8, day: u8, out: &mut Vec<u8>) -> Result<(), NoMemory>
    requires year_in { year < 10_000 }
    requires month_in { month < 100 }
    requires day_in { day < 100 }
    ensures { OnOk result (out.new.items ≡ out.old.items ++ date_text year month day) }
{
    let (century, rest) = ((year / 100) as u8, (year % 100) as u8);
    out.extend_from_slice(&[
        tens(century),
        ones(century),
        tens(rest),
        ones(rest),
        b'-',
        tens(month),
        ones(month),
        b'-',
        tens(day),
        ones(day),
    ])
}

fn tens(number: u8) -> u8
    requires { number < 100 }
    ensures { result ≡ tens number }
{
    b'0' + number / 10
}

fn ones(number: u8) -> u8
    ensures { result ≡ ones number }
{
    b'0' + number % 10
}

// The date of a day, in the years 1900 to 2200.
fn date_of(day: Day) -> Date
    requires { IsDay day.number }
    ensures is { civil_date result ≡ date_of day.number }
    ensures since { pos 1900 ≤ℤ result.year }
    ensures until { result.year ≤ℤ pos 2200 }
{
    plain_date(day)
}

fn plain_date(day: Day) -> Date
    requires { IsDay day.number }
    ensures { epoch_day result ≡ day.number }
{
    let plain = civil::Date::from_unix_epoch_day(i64::from(day.number)).unwrap();
    Date::from_plain(plain)
}
