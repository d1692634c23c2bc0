//! The capital requirement for type 1 exposures.

ghost use Rattle.std.specs.Prelude.{◌≡◌, ◌*◌, ◌+◌, ◌^◌, ◌<◌, ◌≤◌, pos, ◌≤ℤ◌, IsBitSet, if◌then◌else◌};
ghost use Rattle.scr_num.specs.Fraction.{Fraction};
ghost use Rattle.scr_num.specs.Figure.{Frac};
ghost use Rattle.scr_num.specs.Enclosure.{Encloses};
ghost use Rattle.scr_num.specs.Narrow.{IsNarrow};
ghost use Rattle.scr_num.specs.Rounding.{ends, exact_ends, hull_ends, root_ends, scale_ends};
ghost use Rattle.scr_agg.specs.Unbeaten.{HasSeveral};
ghost use Rattle.scr_default.specs.Bands.{IsNearBand};
ghost use Rattle.scr_default.specs.Losses.{grains};
ghost use Rattle.scr_default.specs.Type1.{band_of, type1_figure};
ghost use Rattle.scr_default.specs.Type1Ends as worked;
ghost use Rattle.scr_default.specs.Type1Ends.{type1_ends, type1_mask, hull_of_bands, bit_of};
ghost use Rattle.scr_num.specs.Amounts.{IsAmount};
ghost use Rattle.scr_default.specs.declared.TheConstants.{MAX_LOSS};

use crate::numbers::number;
use scr_num::{Span, hull, root_of, scale};

/// The capital requirement for type 1 exposures in grains.
#[derive(Clone, Copy, Debug, PartialEq, Eq)]
pub struct Banded {
    pub charge: Span,
    /// Bit 0 is set where the standard deviation may be at most 7 percent of the total loss given default, bit 1 where
    /// it may be above and at most 20 percent, and bit 2 where it may be above 20 percent.
    pub mask: u8,
}

/// The bands that are possible.
#[derive(Clone, Copy)]
struct Bands {
    first: bool,
    second: bool,
    third: bool,
}

/// The capital requirement for type 1 exposures: Delegated Regulation (EU) 2015/35, Article 200. Where the ends of the
/// variance leave it open which band the standard deviation lies in, the charge spans those of all that are possible. Of a
/// variance that is known to 42 square grains that is so only where 7 or 20 percent of the total lie between two ends of
/// the standard deviation at most 7 grains apart; elsewhere the charge is known to 35 grains.
///
/// `total` is the loss given default of all type 1 exposures in grains, and `variance` in square grains.
pub fn type1(total: u64, variance: Span) -> Banded
    requires total { total ≤ MAX_LOSS }
    requires low { pos 0 ≤ℤ variance.low }
    requires high { variance.high ≤ℤ pos (10 ^ 33) }
    ensures charge { ends result.charge ≡ type1_ends total (ends variance) }
    ensures mask { result.mask ≡ type1_mask total (ends variance) }
    ensures encloses { (exact : Fraction)
        → Encloses 1_000_000 variance.low variance.high (Frac exact)
        → Encloses 1000 result.charge.low result.charge.high (type1_figure (grains total) exact) }
    ensures band { (exact : Fraction) → Encloses 1_000_000 variance.low variance.high (Frac exact)
        → IsBitSet result.mask (band_of (grains total) exact) }
    ensures one_at_least { 1 ≤ result.mask }
    ensures no_other_bits { result.mask < 8 }
    ensures size { IsAmount (16 * 10 ^ 16) (ends result.charge) }
    ensures narrow { IsNarrow 42 (ends variance) → (HasSeveral result.mask → ⊥) → IsNarrow 35 (ends result.charge) }
    ensures gap { IsNarrow 42 (ends variance) → HasSeveral result.mask
        → IsNearBand (root_ends (ends variance)) total × IsNarrow 7 (root_ends (ends variance)) }
{
    let deviation = root_of(variance);
    let bands = possible_bands(deviation, total);
    Banded {
        charge: hull_of(deviation, total, bands),
        mask: mask_of(bands),
    }
}

fn possible_bands(deviation: Span, total: u64) -> Bands
    requires total { total ≤ MAX_LOSS }
    requires low { pos 0 ≤ℤ deviation.low }
    requires high { deviation.high ≤ℤ pos (2 ^ 64) }
    ensures first { result.first ≡ worked.is_possible (ends deviation) total 0 }
    ensures second { result.second ≡ worked.is_possible (ends deviation) total 1 }
    ensures third { result.third ≡ worked.is_possible (ends deviation) total 2 }
{
    let low = deviation.low.unsigned_abs();
    let high = deviation.high.unsigned_abs();
    let total = u128::from(total);
    Bands {
        first: 100 * low <= 7 * total,
        second: 7 * total < 100 * high && 5 * low <= total,
        third: total < 5 * high,
    }
}

// The least span that holds what each possible band charges. If neither of the first two is possible, the third is.
fn hull_of(deviation: Span, total: u64, bands: Bands) -> Span
    requires low { pos 0 ≤ℤ deviation.low }
    requires high { deviation.high ≤ℤ pos (2 ^ 64) }
    ensures { ends result ≡ hull_of_bands bands.first bands.second bands.third
        (scale_ends (ends deviation) 3 1) (scale_ends (ends deviation) 5 1)
        (exact_ends (pos total)) }
{
    let three = scale(deviation, 3, 1);
    let five = scale(deviation, 5, 1);
    let whole = number(u128::from(total));
    let lowest = chosen(bands.first, three, chosen(bands.second, five, whole));
    widened(widened(lowest, bands.second, five), bands.third, whole)
}

fn chosen(first: bool, a: Span, b: Span) -> Span
    ensures { ends result ≡ (if first then ends a else ends b) }
{
    if first { a } else { b }
}

fn widened(so_far: Span, possible: bool, next: Span) -> Span
    ensures { ends result
        ≡ (if possible then hull_ends (ends so_far) (ends next) else ends so_far) }
{
    if possible { hull(so_far, next) } else { so_far }
}

fn mask_of(bands: Bands) -> u8
    ensures { result ≡ bit_of bands.first 1 + bit_of bands.second 2 + bit_of bands.third 4 }
{
    bit(bands.first, 1) + bit(bands.second, 2) + bit(bands.third, 4)
}

fn bit(set: bool, value: u8) -> u8
    ensures { result ≡ bit_of set value }
{
    if set { value } else { 0 }
}
