//! The life underwriting risk module.

ghost use Rattle.std.specs.Prelude.{◌≡◌, ◌*◌, ◌+◌, ◌^◌, ◌<◌, ◌≤◌, pos, ◌≤ℤ◌, unsigned_abs};
ghost use Rattle.scr_num.specs.Figure.{Figure, Figures};
ghost use Rattle.scr_num.specs.Enclosure.{Encloses, EncloseAll};
ghost use Rattle.scr_num.specs.Rounding.{ends};
ghost use Rattle.scr_agg.specs.Correlated.{NotNegative, total_high, all_ends};
ghost use Rattle.scr_bio.specs.Biometric.{life_figure};
ghost use Rattle.scr_bio.specs.BiometricEnds.{loss_ends, life_ends, units_of_a_grain};

use scr_agg::quad;
use scr_num::{Span, scale};
use scr_profile::LIFE;

/// Of so many units of 10^-18 cents one grain is made.
const UNITS_OF_A_GRAIN: u128 = 1_000_000_000_000_000;

/// The losses of all liabilities in a scenario, in grains, thousandths of a cent, of their sum in
/// 10^-18 cents.
pub fn loss(sum: Span) -> Span
    requires low { unsigned_abs sum.low ≤ 10 ^ 33 }
    requires high { unsigned_abs sum.high ≤ 10 ^ 33 }
    ensures ends { ends result ≡ loss_ends (ends sum) }
    ensures encloses { (f : Figure) → Encloses 1_000_000_000_000_000_000 sum.low sum.high f
        → Encloses 1000 result.low result.high f }
    ensures not_negative { pos 0 ≤ℤ sum.low → pos 0 ≤ℤ result.low }
    ensures low_size { unsigned_abs result.low * units_of_a_grain
        < unsigned_abs sum.low + units_of_a_grain }
    ensures high_size { unsigned_abs result.high * units_of_a_grain
        < unsigned_abs sum.high + units_of_a_grain }
{
    scale(sum, 1, UNITS_OF_A_GRAIN)
}

/// The capital requirement for life underwriting risk, in grains, of those for mortality,
/// longevity, disability, expense, revision, lapse and catastrophe risk (Delegated Regulation (EU)
/// 2015/35, Article 136).
pub fn life(parts: &[Span; 7]) -> Span
    requires lows { NotNegative parts.now }
    requires highs { total_high parts.now ≤ 6_000_000_000_000_000_000 }
    ensures ends { ends result ≡ life_ends (all_ends parts.now) }
    ensures encloses { (figures : Figures) → EncloseAll 1000 (all_ends parts.now) figures
        → Encloses 1000 result.low result.high (life_figure figures) }
    ensures not_negative { pos 0 ≤ℤ result.low }
    ensures at_most_the_sum { result.high ≤ℤ pos (total_high parts.now) }
{
    quad(parts, &LIFE)
}
