//! The root of the market risk module.

ghost use Rattle.std.specs.Prelude.{◌≡◌, ℕ, ◌<◌, ◌≤◌, pos, IsBitSet};
ghost use Rattle.scr_num.specs.Figure.{Figures};
ghost use Rattle.scr_num.specs.Rounding.{ends, quad_ends};
ghost use Rattle.scr_num.specs.Amounts.{IsAmount};
ghost use Rattle.scr_num.specs.Enclosure.{Encloses, EncloseAll};
ghost use Rattle.scr_agg.specs.Correlated.{NotNegative, total_high, all_ends, table_of};
ghost use Rattle.scr_profile.specs.Matrix.{IsCorrelation};
ghost use Rattle.scr_market.specs.Market.{market_figure};
ghost use Rattle.scr_market.specs.MarketEnds.{market_ends};

use scr_agg::quad;
use scr_num::{Span, hull};
use scr_profile::{MARKET_0, MARKET_HALF, Matrix};

/// The capital requirement for market risk in grains, thousandths of a cent, from those for
/// interest rate, equity, property, spread, concentration and currency risk: Delegated Regulation
/// (EU) 2015/35, Article 164. Bit 0 of the mask is set where the rise of interest rates may decide,
/// and bit 1 where their fall may; where both may, the requirement spans both.
pub fn market(parts: &[Span; 6], mask: u8) -> Span
    requires least { 1 ≤ mask }
    requires most { mask ≤ 3 }
    requires lows { NotNegative parts.now }
    requires small { total_high parts.now ≤ 6_000_000_000_000_000_000 }
    ensures ends { ends result ≡ market_ends (all_ends parts.now) mask }
    ensures encloses { (decisive : ℕ) → decisive < 2 → IsBitSet mask decisive → (figures : Figures)
        → EncloseAll 1000 (all_ends parts.now) figures
        → Encloses 1000 result.low result.high (market_figure decisive figures) }
    ensures size { IsAmount (total_high parts.now) (ends result) }
{
    match mask {
        1 => root(parts, &MARKET_0),
        2 => root(parts, &MARKET_HALF),
        _ => hull(root(parts, &MARKET_0), root(parts, &MARKET_HALF)),
    }
}

// The root over the six parts, where they are correlated so.
fn root(parts: &[Span; 6], m: &Matrix) -> Span
    requires correlations { IsCorrelation m.now }
    requires count { m.now.n ≡ 6 }
    requires quarters { m.now.den ≡ pos 4 }
    requires lows { NotNegative parts.now }
    requires small { total_high parts.now ≤ 6_000_000_000_000_000_000 }
    ensures ends { ends result ≡ quad_ends (all_ends parts.now) (table_of m.now) }
    ensures size { IsAmount (total_high parts.now) (ends result) }
{
    quad(parts, m)
}
