//! Days, and the texts that write them.
ghost use Rattle.std.specs.Prelude.{◌≡◌, ◌+◌, ◌<◌, ◌≤◌, ◌&&◌, length, map, slice_index, true, IfSome};
ghost use Rattle.std.specs.Char.{is_ascii_digit};
ghost use Rattle.std.specs.Simd.Lanes.{mask_l};
ghost use Rattle.scr_dates.specs.Civil.{IsDay};
ghost use Rattle.scr_dates.specs.Text as spec;
ghost use Rattle.scr_dates.specs.Text.{day_of_text, has_two_digits, has_eight_digits, written_year, two_digits as written_digits};

use jiff::civil::Date;
use std::simd::prelude::*;

/// A day, counted from 1970-01-01, which is day 0; earlier days are negative.
#[derive(Clone, Copy, Debug, PartialEq, Eq, PartialOrd, Ord)]
pub struct Day {
    pub number: i32,
}

/// The day that a text writes as `YYYY-MM-DD`: ten bytes, a date of the civil calendar in the years
/// 1900 to 2200. `None` for every other text.
#[inline(always)]
pub fn parse_day(text: &[u8]) -> Option<Day>
    ensures value { result ≡ day_of_text text.now }
    ensures in_range { IfSome result (λ day. IsDay day.number) }
{
    if text.len() != 10 || text[4] != b'-' || text[7] != b'-' || !has_digits(text) {
        return None;
    }
    day_of_date(year(text), two_digits(text, 5), two_digits(text, 8))
}

// The year that the first four digits write.
#[tactic(auto, using(crate::proofs::Lanes::pair_in))]
#[inline(always)]
fn year(text: &[u8]) -> u16
    requires within { 4 ≤ length text.now }
    requires century { has_two_digits text.now 0 ≡ true }
    requires year { has_two_digits text.now 2 ≡ true }
    ensures value { result ≡ written_year text.now }
    ensures bound { result < 10_000 }
{
    let digits = u16::from(text[0]) * 1000
        + u16::from(text[1]) * 100
        + u16::from(text[2]) * 10
        + u16::from(text[3]);
    // The code of `0`, in each place.
    digits - 48 * 1111
}

// Each place of the text but those of its dashes has a digit.
#[inline(always)]
fn has_digits(text: &[u8]) -> bool
    requires long { length text.now ≡ 10 }
    requires first_dash { slice_index text.now 4 ≡ 45 }
    requires second_dash { slice_index text.now 7 ≡ 45 }
    ensures { result ≡ has_eight_digits text.now }
{
    begins_with_digits(text) && has_two_digits(text, 8)
}

// The same of the first eight bytes, which are tested together: the dashes among them are no digits.
#[inline(always)]
fn begins_with_digits(text: &[u8]) -> bool
    requires long { length text.now ≡ 10 }
    requires first_dash { slice_index text.now 4 ≡ 45 }
    requires second_dash { slice_index text.now 7 ≡ 45 }
    ensures { result ≡ ((has_two_digits text.now 0 && has_two_digits text.now 2) && has_two_digits text.now 5) }
{
    digits(u8x8::from_slice(text)) == 0b0110_1111
}

// The bytes at `at` and behind it are digits.
#[inline(always)]
fn has_two_digits(text: &[u8], at: usize) -> bool
    requires { at + 1 < length text.now }
    ensures { result ≡ has_two_digits text.now at }
{
    text[at].is_ascii_digit() && text[at + 1].is_ascii_digit()
}

// A bit for each lane that has a digit.
#[inline(always)]
fn digits(lanes: u8x8) -> u64
    ensures { result ≡ mask_l (map is_ascii_digit lanes) }
{
    (lanes - u8x8::splat(b'0'))
        .simd_lt(u8x8::splat(10))
        .to_bitmask()
}

// The number that the two digits from `at` on write.
#[tactic(auto, using(crate::proofs::Lanes::pair_in))]
#[inline(always)]
fn two_digits(text: &[u8], at: usize) -> u8
    requires within { at + 1 < length text.now }
    requires digits { has_two_digits text.now at ≡ true }
    ensures value { result ≡ written_digits text.now at }
    ensures bound { result < 100 }
{
    (text[at] - b'0') * 10 + (text[at + 1] - b'0')
}

// The day of a date, if the calendar has it and it lies in the years 1900 to 2200.
#[inline(always)]
fn day_of_date(year: u16, month: u8, day: u8) -> Option<Day>
    requires year_in { year < 10_000 }
    requires month_in { month < 100 }
    requires day_in { day < 100 }
    ensures { result ≡ spec.day_of_date year month day }
{
    if !(1900..=2200).contains(&year) {
        return None;
    }
    let date = Date::new(year as i16, month as i8, day as i8).ok()?;
    Some(Day {
        number: date.to_plain().to_unix_epoch_day(),
    })
}
