//! The market risk module of the standard formula.
#![tactic(auto)]

ghost use Rattle.std.specs.Prelude.{◌≡◌, ◌≤◌, All, pos, negsuc, ◌≤ℤ◌, slice_index};
ghost use Rattle.scr_num.specs.Rounding.{ends};
ghost use Rattle.scr_num.specs.Amounts.{IsAmount};
ghost use Rattle.scr_profile.specs.declared.limits.TheConstants.{MAX_HELD};
ghost use Rattle.scr_market.specs.declared.equity_parts.TheConstants.{MAX_EQUITY, MAX_EQUITY_PART};
ghost use Rattle.scr_market.specs.EquityEnds.{type1_ends, type2_ends, infra_ends, infracorp_ends};
ghost use Rattle.scr_market.specs.EquityEnds.{equity_ends, EncloseEquity};

mod currency_risk;
mod equity_parts;
pub mod laws;
mod market_root;
mod property_risk;
mod spread_risk;

pub use currency_risk::{MAX_CURRENCY, currency};
pub use equity_parts::{
    Equity, MAX_EQUITY, MAX_EQUITY_PART, equity_root, infra, infracorp, type1, type2,
};
pub use market_root::market;
pub use property_risk::{MAX_PROPERTY, property};
use scr_num::add;
pub use spread_risk::{spread, stress};

/// The capital requirement for equity risk and its parts, in grains, thousandths of a cent:
/// Delegated Regulation (EU) 2015/35, Articles 164a, 164b and 168 to 173.
///
/// `sums` are the cents held in type 1 equities and in strategic ones of type 1, in type 2 equities
/// (closed funds among them) and in strategic ones of type 2, and in equities of qualifying
/// infrastructure and of qualifying infrastructure corporates. `sym` is the symmetric adjustment of
/// Article 172 in millionths.
pub fn equity(sums: &[u64; 6], sym: i32) -> Equity
    requires held { All (λ cents. cents ≤ MAX_HELD) sums.now }
    requires least { negsuc 99_999 ≤ℤ sym }
    requires most { sym ≤ℤ pos 100_000 }
    ensures type1 { ends result.type1 ≡ type1_ends (slice_index sums.now 0) (slice_index sums.now 1) sym }
    ensures type2 { ends result.type2 ≡ type2_ends (slice_index sums.now 2) (slice_index sums.now 3) sym }
    ensures infra { ends result.infra ≡ infra_ends (slice_index sums.now 4) sym }
    ensures infracorp { ends result.infracorp ≡ infracorp_ends (slice_index sums.now 5) sym }
    ensures all { ends result.all ≡ equity_ends sums.now sym }
    ensures encloses { EncloseEquity (ends result.type1) (ends result.type2) (ends result.infra)
        (ends result.infracorp)
        (ends result.all) sums.now sym }

    ensures type1_size { IsAmount MAX_EQUITY_PART (ends result.type1) }
    ensures type2_size { IsAmount MAX_EQUITY_PART (ends result.type2) }
    ensures infra_size { IsAmount MAX_EQUITY_PART (ends result.infra) }
    ensures infracorp_size { IsAmount MAX_EQUITY_PART (ends result.infracorp) }
    ensures all_size { IsAmount MAX_EQUITY (ends result.all) }
{
    let type1 = type1(sums[0], sums[1], sym);
    let type2 = type2(sums[2], sums[3], sym);
    let infra = infra(sums[4], sym);
    let infracorp = infracorp(sums[5], sym);
    let others = add(add(type2, infra), infracorp);
    Equity {
        type1,
        type2,
        infra,
        infracorp,
        all: equity_root(type1, others),
    }
}
