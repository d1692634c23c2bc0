//! The Basic Solvency Capital Requirement.

ghost use Rattle.std.specs.Prelude.{◌≡◌, ◌+◌, ◌*◌, ◌≤◌, pos, ◌≤ℤ◌, List, unsigned_abs};
ghost use Rattle.scr_num.specs.Figure.{Figure};
ghost use Rattle.scr_num.specs.Enclosure.{Encloses};
ghost use Rattle.scr_num.specs.Rounding.{ends};
ghost use Rattle.scr_num.specs.Sums.{EncloseEach};
ghost use Rattle.scr_agg.specs.Correlated.{NotNegative, total_high, all_ends};
ghost use Rattle.scr_profile.specs.declared.limits.TheConstants.{MAX_AMOUNT};
ghost use Rattle.scr_loss.specs.Bscr.{bscr_figure, diversification_figure, intangible_figure};
ghost use Rattle.scr_loss.specs.BscrEnds.{bscr_ends, diversification_ends, known_diversification_ends, intangible_ends};

use scr_agg::quad;
use scr_num::{Span, add, exact, sub, total};
use scr_profile::BSCR;

/// The Basic Solvency Capital Requirement, in grains, thousandths of a cent, of those for market,
/// default, life, health and non-life risk in grains and of the value of intangible assets in
/// cents: Delegated Regulation (EU) 2015/35, Articles 87 and 203, and Directive 2009/138/EC, Annex
/// IV.
pub fn bscr(parts: &[Span; 5], intangible: u64) -> Span
    requires lows { NotNegative parts.now }
    requires highs { total_high parts.now ≤ 6_000_000_000_000_000_000 }
    requires intangible { intangible ≤ MAX_AMOUNT }
    ensures ends { ends result ≡ bscr_ends (all_ends parts.now) intangible }
    ensures encloses { (figures : List Figure) → EncloseEach 1000 (all_ends parts.now) figures
        → Encloses 1000 result.low result.high (bscr_figure figures intangible) }
    ensures not_negative { pos 0 ≤ℤ result.low }
    ensures at_most_the_sum { result.high ≤ℤ pos (total_high parts.now + 800 * intangible) }
{
    add(quad(parts, &BSCR), intangible_assets(intangible))
}

// The capital requirement for so many cents of intangible assets, in grains.
fn intangible_assets(cents: u64) -> Span
    requires { cents ≤ MAX_AMOUNT }
    ensures low { result.low ≡ pos (800 * cents) }
    ensures high { result.high ≡ pos (800 * cents) }
    ensures ends { ends result ≡ intangible_ends cents }
    ensures encloses { Encloses 1000 result.low result.high (intangible_figure cents) }
{
    exact(i128::from(cents) * 800)
}

/// What the requirements for market, default, life, health and non-life risk come to above the root
/// over them, in grains.
pub fn diversification(parts: &[Span; 5]) -> Span
    requires lows { NotNegative parts.now }
    requires highs { total_high parts.now ≤ 6_000_000_000_000_000_000 }
    ensures ends { ends result ≡ diversification_ends (all_ends parts.now) }
    ensures encloses { (figures : List Figure) → EncloseEach 1000 (all_ends parts.now) figures
        → Encloses 1000 result.low result.high (diversification_figure figures) }
{
    sub(total(parts), quad(parts, &BSCR))
}

/// The same where the Basic Solvency Capital Requirement over these parts is known: the root over
/// them is that requirement without intangible assets, of the value in cents that went into it.
pub fn known_diversification(parts: &[Span; 5], basic: Span, intangible: u64) -> Span
    requires lows { NotNegative parts.now }
    requires highs { total_high parts.now ≤ 6_000_000_000_000_000_000 }
    requires basic_low { unsigned_abs basic.low ≤ 5_000_000_000_000_000_000 }
    requires basic_high { unsigned_abs basic.high ≤ 5_000_000_000_000_000_000 }
    requires intangible { intangible ≤ MAX_AMOUNT }
    ensures ends { ends result
        ≡ known_diversification_ends (all_ends parts.now) (ends basic) intangible }
    ensures same { ends basic ≡ bscr_ends (all_ends parts.now) intangible
        → ends result ≡ diversification_ends (all_ends parts.now) }
    ensures encloses { (figures : List Figure) → EncloseEach 1000 (all_ends parts.now) figures
        → ends basic ≡ bscr_ends (all_ends parts.now) intangible
        → Encloses 1000 result.low result.high (diversification_figure figures) }
{
    let root = sub(basic, intangible_assets(intangible));
    sub(total(parts), root)
}
