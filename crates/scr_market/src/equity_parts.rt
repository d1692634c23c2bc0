//! The parts of the equity risk sub-module, and their root.

ghost use Rattle.std.specs.Prelude.{◌≡◌, ℕ, ◌+◌, ◌*◌, ◌^◌, ◌<◌, ◌≤◌, pos, negsuc, ◌≤ℤ◌, [], ◌∷◌};
ghost use Rattle.scr_num.specs.Figure.{Figure};
ghost use Rattle.scr_num.specs.Rounding.{ends, exact_ends, scale_ends};
ghost use Rattle.scr_num.specs.Amounts.{IsAmount};
ghost use Rattle.scr_num.specs.Enclosure.{Encloses};
ghost use Rattle.scr_agg.specs.Correlated.{NotNegative, total_high};
ghost use Rattle.scr_profile.specs.declared.limits.TheConstants.{MAX_HELD};
ghost use Rattle.scr_market.specs.Equity.{type1_figure, type2_figure, infra_figure};
ghost use Rattle.scr_market.specs.Equity.{infracorp_figure, equity_root_figure};
ghost use Rattle.scr_market.specs.EquityEnds.{type1_ends, type2_ends, infra_ends, infracorp_ends};
ghost use Rattle.scr_market.specs.EquityEnds.{equity_root_ends};

use scr_agg::quad;
use scr_num::{Span, exact, scale};
use scr_profile::EQUITY;

/// The most grains of one part of equity risk.
pub const MAX_EQUITY_PART: u128 = 50_000_000_000_000_000;

/// The most grains of equity risk.
pub const MAX_EQUITY: u128 = 200_000_000_000_000_000;

/// Twenty-two percent, in millionths: the fall in value of strategic equities (Delegated Regulation
/// (EU) 2015/35, Articles 169 and 171).
const STRATEGIC: u128 = 220_000;

/// The capital requirement for equity risk and its four parts, in grains: thousandths of a cent.
#[derive(Clone, Copy)]
pub struct Equity {
    pub type1: Span,
    pub type2: Span,
    /// Equities of qualifying infrastructure.
    pub infra: Span,
    /// Equities of qualifying infrastructure corporates.
    pub infracorp: Span,
    /// All together.
    pub all: Span,
}

/// The capital requirement for type 1 equities and strategic ones of type 1, in grains: Articles
/// 169(1) and 171.
pub fn type1(cents: u64, strategic: u64, sym: i32) -> Span
    requires held { cents ≤ MAX_HELD }
    requires strategic_held { strategic ≤ MAX_HELD }
    requires least { negsuc 99_999 ≤ℤ sym }
    requires most { sym ≤ℤ pos 100_000 }
    ensures ends { ends result ≡ type1_ends cents strategic sym }
    ensures encloses { Encloses 1000 result.low result.high (type1_figure cents strategic sym) }
    ensures size { IsAmount MAX_EQUITY_PART (ends result) }
{
    fall(cents, strategic, unsigned(390_000 + sym))
}

/// The capital requirement for type 2 equities and strategic ones of type 2, in grains: Articles
/// 169(2) and 171.
pub fn type2(cents: u64, strategic: u64, sym: i32) -> Span
    requires held { cents ≤ MAX_HELD }
    requires strategic_held { strategic ≤ MAX_HELD }
    requires least { negsuc 99_999 ≤ℤ sym }
    requires most { sym ≤ℤ pos 100_000 }
    ensures ends { ends result ≡ type2_ends cents strategic sym }
    ensures encloses { Encloses 1000 result.low result.high (type2_figure cents strategic sym) }
    ensures size { IsAmount MAX_EQUITY_PART (ends result) }
{
    fall(cents, strategic, unsigned(490_000 + sym))
}

/// The capital requirement for equities of qualifying infrastructure, in grains: Articles 164a and
/// 169(3).
pub fn infra(cents: u64, sym: i32) -> Span
    requires held { cents ≤ MAX_HELD }
    requires least { negsuc 99_999 ≤ℤ sym }
    requires most { sym ≤ℤ pos 100_000 }
    ensures ends { ends result ≡ infra_ends cents sym }
    ensures encloses { Encloses 1000 result.low result.high (infra_figure cents sym) }
    ensures size { IsAmount MAX_EQUITY_PART (ends result) }
{
    infrastructure_fall(cents, unsigned(30_000_000 + 77 * sym))
}

/// The capital requirement for equities of qualifying infrastructure corporates, in grains:
/// Articles 164b and 169(4).
pub fn infracorp(cents: u64, sym: i32) -> Span
    requires held { cents ≤ MAX_HELD }
    requires least { negsuc 99_999 ≤ℤ sym }
    requires most { sym ≤ℤ pos 100_000 }
    ensures ends { ends result ≡ infracorp_ends cents sym }
    ensures encloses { Encloses 1000 result.low result.high (infracorp_figure cents sym) }
    ensures size { IsAmount MAX_EQUITY_PART (ends result) }
{
    infrastructure_fall(cents, unsigned(36_000_000 + 92 * sym))
}

/// The capital requirement for equity risk, from those for type 1 equities and for all others, in
/// grains: Article 168(4).
pub fn equity_root(type1: Span, others: Span) -> Span
    requires lows { NotNegative (type1 ∷ others ∷ []) }
    requires small { total_high (type1 ∷ others ∷ []) ≤ 6_000_000_000_000_000_000 }
    ensures ends { ends result ≡ equity_root_ends (ends type1) (ends others) }
    ensures encloses { (f g : Figure) → Encloses 1000 type1.low type1.high f
        → Encloses 1000 others.low others.high g
        → Encloses 1000 result.low result.high (equity_root_figure f g) }
    ensures size { IsAmount (total_high (type1 ∷ others ∷ [])) (ends result) }
{
    quad(&[type1, others], &EQUITY)
}

// So many millionths of the cents and the share of the strategic ones.
fn fall(cents: u64, strategic: u64, millionths: u32) -> Span
    requires held { cents ≤ MAX_HELD }
    requires strategic_held { strategic ≤ MAX_HELD }
    requires share { millionths ≤ 600_000 }
    ensures value { ends result ≡ scale_ends (exact_ends (pos (cents * millionths + strategic * STRATEGIC))) 1
        1000 }
{
    let adjusted = u128::from(cents) * u128::from(millionths);
    rounded(adjusted + u128::from(strategic) * STRATEGIC, 1000)
}

// So many hundredths of a millionth of the cents.
fn infrastructure_fall(cents: u64, share: u32) -> Span
    requires held { cents ≤ MAX_HELD }
    requires share { share ≤ 50_000_000 }
    ensures value { ends result ≡ scale_ends (exact_ends (pos (cents * share))) 1 100_000 }
{
    rounded(u128::from(cents) * u128::from(share), 100_000)
}

// A share that is not negative.
fn unsigned(share: i32) -> u32
    requires { pos 0 ≤ℤ share }
    ensures { pos result ≡ share }
{
    share.unsigned_abs()
}

// The quotient, rounded outward.
fn rounded(v: u128, den: u128) -> Span
    requires positive { 0 < den }
    requires fits { v < 2 ^ 126 }
    ensures value { ends result ≡ scale_ends (exact_ends (pos v)) 1 den }
{
    scale(exact(v as i128), 1, den)
}
