//! The health underwriting risk module.

ghost use Rattle.std.specs.Prelude.{◌≡◌, ◌+◌, ◌*◌, ◌≤◌, pos, ◌+ℤ◌, ◌≤ℤ◌, [], ◌∷◌};
ghost use Rattle.scr_num.specs.Cents.{cents_ends, cents_figure};
ghost use Rattle.scr_num.specs.Figure.{Figure, Figures};
ghost use Rattle.scr_num.specs.Figure.Figures.{more, none};
ghost use Rattle.scr_num.specs.Enclosure.{Encloses, EncloseAll};
ghost use Rattle.scr_num.specs.Rounding.{ends};
ghost use Rattle.scr_agg.specs.Correlated.{NotNegative, total_high, all_ends};
ghost use Rattle.scr_profile.specs.declared.limits.TheConstants.{MAX_AMOUNT};
ghost use Rattle.scr_bio.specs.Biometric.{slt_figure, nslt_figure, health_cat_figure, health_figure};
ghost use Rattle.scr_bio.specs.BiometricEnds.{slt_ends, nslt_ends, health_cat_ends, health_ends};

use crate::uncorrelated::{THREE, TWO};
use scr_agg::quad;
use scr_num::{Span, cents};
use scr_profile::{HEALTH, SLT};

/// The capital requirement for SLT health underwriting risk, in grains, thousandths of a cent, of
/// those for mortality, longevity, disability, expense, revision and lapse risk (Delegated
/// Regulation (EU) 2015/35, Article 151).
pub fn slt(parts: &[Span; 6]) -> Span
    requires lows { NotNegative parts.now }
    requires highs { total_high parts.now ≤ 6_000_000_000_000_000_000 }
    ensures ends { ends result ≡ slt_ends (all_ends parts.now) }
    ensures encloses { (figures : Figures) → EncloseAll 1000 (all_ends parts.now) figures
        → Encloses 1000 result.low result.high (slt_figure figures) }
    ensures not_negative { pos 0 ≤ℤ result.low }
    ensures at_most_the_sum { result.high ≤ℤ pos (total_high parts.now) }
{
    quad(parts, &SLT)
}

/// The capital requirement for NSLT health underwriting risk, in grains, of that for premium and
/// reserve risk in grains and of the charge for lapse risk in cents (Article 145).
pub fn nslt(pr: Span, lapse: u64) -> Span
    requires pr_not_negative { pos 0 ≤ℤ pr.low }
    requires pr_high { pr.high ≤ℤ pos 5_000_000_000_000_000_000 }
    requires lapse { lapse ≤ MAX_AMOUNT }
    ensures ends { ends result ≡ nslt_ends (ends pr) lapse }
    ensures encloses { (f : Figure) → Encloses 1000 pr.low pr.high f
        → Encloses 1000 result.low result.high (nslt_figure f lapse) }
    ensures not_negative { pos 0 ≤ℤ result.low }
    ensures at_most_the_sum { result.high ≤ℤ (pr.high +ℤ pos (1000 * lapse)) }
{
    quad(&[pr, cents(lapse)], &TWO)
}

/// The capital requirement for health catastrophe risk, in grains, of the charges for mass
/// accidents, accident concentration and pandemics in cents (Article 160).
pub fn health_cat(mass: u64, accident: u64, pandemic: u64) -> Span
    requires mass { mass ≤ MAX_AMOUNT }
    requires accident { accident ≤ MAX_AMOUNT }
    requires pandemic { pandemic ≤ MAX_AMOUNT }
    ensures ends { ends result
        ≡ health_cat_ends (cents_ends mass ∷ cents_ends accident ∷ cents_ends pandemic ∷ []) }
    ensures encloses { Encloses 1000 result.low result.high (health_cat_figure
        (more (cents_figure mass) (more (cents_figure accident) (more (cents_figure pandemic) none)))) }
    ensures not_negative { pos 0 ≤ℤ result.low }
    ensures at_most_the_sum { result.high ≤ℤ pos (1000 * (mass + accident + pandemic)) }
{
    health_catastrophe(&[cents(mass), cents(accident), cents(pandemic)])
}

/// The same of the charges in grains.
pub fn health_catastrophe(parts: &[Span; 3]) -> Span
    requires lows { NotNegative parts.now }
    requires highs { total_high parts.now ≤ 6_000_000_000_000_000_000 }
    ensures ends { ends result ≡ health_cat_ends (all_ends parts.now) }
    ensures encloses { (figures : Figures) → EncloseAll 1000 (all_ends parts.now) figures
        → Encloses 1000 result.low result.high (health_cat_figure figures) }
    ensures not_negative { pos 0 ≤ℤ result.low }
    ensures at_most_the_sum { result.high ≤ℤ pos (total_high parts.now) }
{
    quad(parts, &THREE)
}

/// The capital requirement for health underwriting risk, in grains, of those for SLT health, NSLT
/// health and health catastrophe risk (Article 144).
pub fn health(slt: Span, nslt: Span, cat: Span) -> Span
    requires slt_not_negative { pos 0 ≤ℤ slt.low }
    requires nslt_not_negative { pos 0 ≤ℤ nslt.low }
    requires cat_not_negative { pos 0 ≤ℤ cat.low }
    requires highs { (slt.high +ℤ nslt.high +ℤ cat.high) ≤ℤ pos 6_000_000_000_000_000_000 }
    ensures ends { ends result ≡ health_ends (ends slt) (ends nslt) (ends cat) }
    ensures encloses { (f g h : Figure) → Encloses 1000 slt.low slt.high f
        → Encloses 1000 nslt.low nslt.high g
        → Encloses 1000 cat.low cat.high h
        → Encloses 1000 result.low result.high (health_figure f g h) }
    ensures not_negative { pos 0 ≤ℤ result.low }
    ensures at_most_the_sum { result.high ≤ℤ (slt.high +ℤ nslt.high +ℤ cat.high) }
{
    quad(&[slt, nslt, cat], &HEALTH)
}
