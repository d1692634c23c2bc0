//! The rates of a curve under each stress.

ghost use Rattle.std.specs.Prelude.{◌≡◌, ◌<◌, ◌≤◌, ◌+◌, ◌-◌, min, ℤ, pos, ◌+ℤ◌, ◌-ℤ◌, ◌*ℤ◌, length, take, All, slice_index_or};
ghost use Rattle.std.specs.Int.{int_max};
ghost use Rattle.scr_num.specs.Fraction.{millionths};
ghost use Rattle.scr_num.specs.Enclosure.{Measures};
ghost use Rattle.scr_profile.specs.Interest.{rise, fall, stress};
ghost use Rattle.scr_yield_curve.specs.Rate.{tilted, rate};
ghost use Rattle.scr_yield_curve.specs.Parts.{parts, IsCurveInMillionths, IsRateInMillionths, IsRateInParts, AreRates, rates_in_parts};

use crate::Tilt;
use scr_profile::{INTEREST_DOWN, INTEREST_UP};

/// The seven-billionths in a millionth.
const PARTS_PER_MILLIONTH: i64 = 7000;

/// One percentage point in seven-billionths.
const ONE_POINT: i64 = 70_000_000;

/// The rate of each maturity of 1 to 100 years in seven-billionths, exactly, from the yearly rates of a curve in
/// millionths. Beyond the last rate the curve is flat. Upwards each rate rises by its percentage of itself, and by one
/// percentage point at least (Delegated Regulation (EU) 2015/35, Article 166); downwards a rate above 0 falls by its
/// percentage of itself, and any other stays (Article 167).
pub fn stressed(rates: &[i32], tilt: Tilt) -> [i64; 100]
    requires some { 1 ≤ length rates.now }
    requires at_most { length rates.now ≤ 100 }
    requires limits { All IsRateInMillionths rates.now }
    ensures value { result ≡ rates_in_parts rates.now tilt }
    ensures exact { AreRates result (rate rates.now tilt) }
    ensures in_range { All IsRateInParts result }
{
    let mut curve = [0; 100];
    for i in 0..100 {
        curve[i] = stressed_rate(base_at(rates, i), tilt, i);
    }
    curve
}

/// The same of rates as a balance sheet keeps them.
pub fn yearly(rates: &[i64], tilt: Tilt) -> [i64; 100]
    requires some { 1 ≤ length rates.now }
    requires at_most { length rates.now ≤ 100 }
    requires limits { All IsRateInMillionths rates.now }
    ensures value { result ≡ rates_in_parts rates.now tilt }
    ensures in_range { All IsRateInParts result }
{
    let narrow = narrowed(rates);
    stressed(&narrow[..rates.len()], tilt)
}

/// The same of the maturity at a place alone.
pub fn yearly_at(rates: &[i64], tilt: Tilt, place: usize) -> i64
    requires curve { IsCurveInMillionths rates.now }
    requires place { place < 100 }
    ensures { (d : ℤ) → result ≡ slice_index_or (rates_in_parts rates.now tilt) place d }
{
    stressed_rate(rates[place.min(rates.len() - 1)] as i32, tilt, place)
}

/// The same rates, followed by zeros.
fn narrowed(rates: &[i64]) -> [i32; 100]
    requires at_most { length rates.now ≤ 100 }
    requires limits { All IsRateInMillionths rates.now }
    ensures { take (length rates.now) result ≡ rates.now }
{
    let mut narrow = [0; 100];
    for i in 0..rates.len() {
        narrow[i] = rates[i] as i32;
    }
    narrow
}

/// The rate of the curve at a place, or the last one beyond it.
fn base_at(rates: &[i32], place: usize) -> i32
    requires some { 1 ≤ length rates.now }
    ensures { (d : ℤ) → result ≡ slice_index_or rates.now (min (place + 1) (length rates.now) - 1) d }
{
    rates[place.min(rates.len() - 1)]
}

/// The stressed rate of the maturity at a place of the tables.
fn stressed_rate(base: i32, tilt: Tilt, place: usize) -> i64
    requires base_in { IsRateInMillionths base }
    requires place_in { place < 100 }
    ensures exact { Measures parts result (tilted tilt (place + 1) (millionths base)) }
    ensures in_range { IsRateInParts result }
{
    match tilt {
        Tilt::Base => i64::from(base) * PARTS_PER_MILLIONTH,
        Tilt::Up => raised(base, rise_at(place)),
        Tilt::Down => lowered(base, fall_at(place)),
    }
}

fn raised(base: i32, share: u16) -> i64
    ensures { result ≡ base *ℤ pos 7000 +ℤ int_max (base *ℤ pos share) (pos 70000000) }
{
    let base = i64::from(base);
    base * PARTS_PER_MILLIONTH + (base * i64::from(share)).max(ONE_POINT)
}

fn lowered(base: i32, share: u16) -> i64
    ensures { result ≡ base *ℤ pos 7000 -ℤ int_max base (pos 0) *ℤ pos share }
{
    let base = i64::from(base);
    base * PARTS_PER_MILLIONTH - base.max(0) * i64::from(share)
}

/// The rise of the maturity at a place, in seventieths of a percent.
fn rise_at(place: usize) -> u16
    requires { place < 100 }
    ensures value { result ≡ stress rise (place + 1) }
    ensures share { result ≤ 7000 }
{
    INTEREST_UP[place]
}

/// The fall of the maturity at a place, in seventieths of a percent.
fn fall_at(place: usize) -> u16
    requires { place < 100 }
    ensures value { result ≡ stress fall (place + 1) }
    ensures share { result ≤ 7000 }
{
    INTEREST_DOWN[place]
}
