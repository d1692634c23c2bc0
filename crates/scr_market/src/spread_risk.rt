//! The spread risk sub-module.

ghost use Rattle.std.specs.Prelude.{◌≡◌, ℕ, ◌+◌, ◌*◌, ◌^◌, ◌<◌, ◌≤◌, pos, ◌≤ℤ◌, unsigned_abs};
ghost use Rattle.scr_num.specs.Figure.{Figure};
ghost use Rattle.scr_num.specs.Rounding.{ends};
ghost use Rattle.scr_num.specs.Amounts.{IsAmount};
ghost use Rattle.scr_num.specs.Enclosure.{Encloses, Measures};
ghost use Rattle.scr_profile.specs.declared.limits.TheConstants.{MAX_DURATION};
ghost use Rattle.scr_market.specs.Spread.{band_of, start_of, stress_exact};
ghost use Rattle.scr_market.specs.SpreadEnds.{stress_units, spread_ends};

use scr_factors::Factors;
use scr_num::{Span, scale};

/// All of an amount, in 10^-9.
const ALL: u64 = 1_000_000_000;

/// The share of its value that a bond loses, in 10^-9: Delegated Regulation (EU) 2015/35, Article
/// 176. `row` is the credit quality step, or 7 for bonds without one, and the modified duration is
/// in thousandths of a year.
pub fn stress(factors: &Factors, row: u8, duration: u32) -> u64
    requires row { row < 8 }
    requires duration { pos duration ≤ℤ MAX_DURATION }
    ensures value { result ≡ stress_units factors.now row duration }
    ensures exact { Measures 1_000_000_000 (pos result) (stress_exact factors.now row duration) }
    ensures size { result ≤ ALL }
{
    let counted = duration.max(1000);
    let band = band(counted);
    let (a, b) = factors.spread(row, band);
    let above = counted - 5000 * u32::from(band);
    (1000 * u64::from(a) + u64::from(b) * u64::from(above)).min(ALL)
}

// The band of a duration; a duration on the end of a band belongs to it.
fn band(duration: u32) -> u8
    ensures value { result ≡ band_of duration }
    ensures last { result < 5 }
    ensures start { start_of result ≤ duration }
{
    if duration <= 5_000 {
        0
    } else if duration <= 10_000 {
        1
    } else if duration <= 15_000 {
        2
    } else if duration <= 20_000 {
        3
    } else {
        4
    }
}

/// The capital requirement for spread risk in grains, thousandths of a cent, from the sum of what
/// all bonds lose in 10^-9 cents.
pub fn spread(sum: Span) -> Span
    requires low { unsigned_abs sum.low ≤ 10 ^ 33 }
    requires high { unsigned_abs sum.high ≤ 10 ^ 33 }
    ensures ends { ends result ≡ spread_ends (ends sum) }
    ensures encloses { (figure : Figure) → Encloses 1_000_000_000 sum.low sum.high figure
        → Encloses 1000 result.low result.high figure }
    ensures size { (most : ℕ) → IsAmount (most * 1_000_000) (ends sum)
        → IsAmount most (ends result) }
    ensures low_size { unsigned_abs result.low ≤ 10 ^ 27 }
    ensures high_size { unsigned_abs result.high ≤ 10 ^ 27 }
{
    scale(sum, 1, 1_000_000)
}
