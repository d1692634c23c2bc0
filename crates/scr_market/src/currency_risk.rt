//! The currency risk sub-module.

ghost use Rattle.std.specs.Prelude.{◌≡◌, ◌^◌, ◌≤◌, [], ◌∷◌, map, unsigned_abs};
ghost use Rattle.std.specs.List.{AllByRecursion};
ghost use Rattle.scr_num.specs.Fraction.{Fraction};
ghost use Rattle.scr_num.specs.Figure.{Frac};
ghost use Rattle.scr_num.specs.Rounding.{ends};
ghost use Rattle.scr_num.specs.Amounts.{IsAmount};
ghost use Rattle.scr_num.specs.Enclosure.{Encloses};
ghost use Rattle.scr_num.specs.Sums.{EncloseEach};
ghost use Rattle.scr_profile.specs.declared.limits.TheConstants.{MAX_HELD};
ghost use Rattle.scr_market.specs.Currency.{currency_rise_exact, currency_fall_exact};
ghost use Rattle.scr_market.specs.CurrencyEnds.{quarter_ends, currency_rise_ends};
ghost use Rattle.scr_market.specs.CurrencyEnds.{currency_fall_ends};

use scr_num::{Span, exact, max, scale, sub};

/// The most grains of currency risk in one currency.
pub const MAX_CURRENCY: u128 = 262_500_000_000_000_000;

/// The capital requirements where a foreign currency rises and where it falls, in grains,
/// thousandths of a cent, from the cents of assets and the 10^-18 cents of liabilities in that
/// currency: Delegated Regulation (EU) 2015/35, Article 188.
pub fn currency(assets: u64, liabilities: Span) -> [Span; 2]
    requires held { assets ≤ MAX_HELD }
    requires low { unsigned_abs liabilities.low ≤ 10 ^ 33 }
    requires high { unsigned_abs liabilities.high ≤ 10 ^ 33 }
    ensures ends { map ends result
        ≡ currency_rise_ends assets (ends liabilities) ∷ currency_fall_ends assets
        (ends liabilities) ∷ [] }
    ensures encloses { (l : Fraction) → Encloses 1_000_000_000_000_000_000 liabilities.low liabilities.high
        (Frac l)
        → EncloseEach 1000 (map ends result)
        (Frac (currency_rise_exact assets l) ∷ Frac (currency_fall_exact assets l) ∷ []) }
    ensures size { AllByRecursion (IsAmount MAX_CURRENCY) (map ends result) }
{
    let held = exact(1_000_000_000_000_000_000 * i128::from(assets));
    [
        quarter(sub(liabilities, held)),
        quarter(sub(held, liabilities)),
    ]
}

// A quarter of a loss in 10^-18 cents, in grains, and no less than 0.
fn quarter(loss: Span) -> Span
    requires low { unsigned_abs loss.low ≤ 2 ^ 120 }
    requires high { unsigned_abs loss.high ≤ 2 ^ 120 }
    ensures { ends result ≡ quarter_ends (ends loss) }
{
    max(exact(0), scale(loss, 1, 4_000_000_000_000_000))
}
