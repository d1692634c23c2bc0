//! Premium and reserve risk, and the non-life underwriting risk module.

ghost use Rattle.std.specs.Prelude.{◌≡◌, ℕ, ◌*◌, ◌^◌, ◌<◌, ◌≤◌, length, pos, ◌+ℤ◌, ◌<ℤ◌, ◌≤ℤ◌};
ghost use Rattle.scr_num.specs.Figure.{Figure, Figures};
ghost use Rattle.scr_num.specs.Enclosure.{Encloses, EncloseAll};
ghost use Rattle.scr_num.specs.Rounding.{ends, or_zero};
ghost use Rattle.scr_agg.specs.Correlated.{table_of, CellsWithin, NotNegative, total_high, all_ends};
ghost use Rattle.scr_profile.specs.declared.limits.TheConstants.{MAX_AMOUNT};
ghost use Rattle.scr_nonlife.specs.Nonlife.{premium_reserve_figure, nonlife_figure};
ghost use Rattle.scr_nonlife.specs.NonlifeEnds.{premium_reserve_ends, nonlife_ends};

use scr_agg::quad;
use scr_num::{Span, cents, scale};
use scr_profile::{Matrix, NONLIFE};

/// The capital requirement for premium and reserve risk, in grains, thousandths of a cent: three
/// times the root over the segments (Delegated Regulation (EU) 2015/35, Articles 115 and 117). `m`
/// holds the correlations between segments.
pub fn premium_reserve(parts: &[Span], m: &Matrix) -> Span
    requires size { m.now.n ≤ 16 }
    requires denominator { pos 0 <ℤ m.now.den }
    requires cells { CellsWithin m.now }
    requires count { length parts.now ≡ m.now.n }
    requires lows { NotNegative parts.now }
    requires small { or_zero m.now.den * (total_high parts.now * total_high parts.now) < 2 ^ 127 }
    ensures ends { ends result ≡ premium_reserve_ends (all_ends parts.now) (table_of m.now) }
    ensures encloses { (figures : Figures) → EncloseAll 1000 (all_ends parts.now) figures
        → Encloses 1000 result.low result.high (premium_reserve_figure figures (table_of m.now)) }
    ensures not_negative { pos 0 ≤ℤ result.low }
    ensures at_most_thrice_the_sum { result.high ≤ℤ pos (3 * total_high parts.now) }
{
    scale(quad(parts, m), 3, 1)
}

/// The capital requirement for non-life underwriting risk, in grains, of those for premium and
/// reserve and for catastrophe risk in grains and of the charge for lapse risk in cents (Article
/// 114).
pub fn nonlife(pr: Span, cat: Span, lapse: u64) -> Span
    requires pr_not_negative { pos 0 ≤ℤ pr.low }
    requires cat_not_negative { pos 0 ≤ℤ cat.low }
    requires parts { (pr.high +ℤ cat.high) ≤ℤ pos 6_000_000_000_000_000_000 }
    requires lapse { lapse ≤ MAX_AMOUNT }
    ensures ends { ends result ≡ nonlife_ends (ends pr) (ends cat) lapse }
    ensures encloses { (f g : Figure) → Encloses 1000 pr.low pr.high f
        → Encloses 1000 cat.low cat.high g
        → Encloses 1000 result.low result.high (nonlife_figure f g lapse) }
    ensures not_negative { pos 0 ≤ℤ result.low }
    ensures at_most_the_sum { result.high ≤ℤ (pr.high +ℤ cat.high +ℤ pos (1000 * lapse)) }
{
    quad(&[pr, cat, cents(lapse)], &NONLIFE)
}
