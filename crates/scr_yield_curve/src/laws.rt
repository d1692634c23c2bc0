//! Laws of rates and discounts, whatever a program does. Each is a function that does nothing, whose contract is the law.

ghost use Rattle.std.specs.Prelude.{◌≡◌, ℕ, ◌≤◌, ℤ, All, List, length};
ghost use Rattle.scr_num.specs.Fraction.{Fraction};
ghost use Rattle.scr_yield_curve.specs.Rate.{rate};
ghost use Rattle.scr_yield_curve.specs.Parts.{IsRateInParts, IsCurveInMillionths, AreRates, rates_in_parts};
ghost use Rattle.scr_yield_curve.specs.DiscountEnds.{discount_ends, table_ends, IsDiscount, EncloseDiscounts, discount_width};
ghost use Rattle.scr_num.specs.Narrow.{IsNarrow};
ghost use Rattle.scr_yield_curve.specs.declared.tilt.Tilt.{Tilt};

use crate::Discounts;

/// The rates of a curve in seven-billionths are exactly those of the rule, one for each of 100 years, and each may be
/// discounted by.
pub fn rates_of_a_curve()
    ensures exact { (rates : List ℤ) (tilt : Tilt) → IsCurveInMillionths rates → AreRates (rates_in_parts rates tilt) (rate rates tilt) }
    ensures in_range { (rates : List ℤ) (tilt : Tilt) → IsCurveInMillionths rates → All IsRateInParts (rates_in_parts rates tilt) }
    ensures count { (rates : List ℤ) (tilt : Tilt) → length (rates_in_parts rates tilt) ≡ 100 }
{}

/// A discount as worked out is from 0 to the most that one is worth, and encloses the exact discount.
pub fn discounts_of_rates()
    ensures size { (rate : ℤ) (years : ℕ) → IsRateInParts rate → years ≤ 100 → IsDiscount (discount_ends rate years) }
    ensures table { (curve : List ℤ) → All IsRateInParts curve → length curve ≤ 100 → All IsDiscount (table_ends curve) }
    ensures encloses { (curve : List ℤ) (rate : ℕ → Fraction) → All IsRateInParts curve → AreRates curve rate
        → EncloseDiscounts rate (table_ends curve) }
{}

/// How far apart the ends of a discount can be, whatever the rate and the maturity: 548 of 10^-18 at most. So a discount
/// is known to fifteen places.
pub fn discounts_spread()
    ensures each { (rate : ℤ) (years : ℕ) → IsRateInParts rate → years ≤ 100 → IsNarrow discount_width (discount_ends rate years) }
    ensures table { (curve : List ℤ) → All IsRateInParts curve → length curve ≤ 100 → All (IsNarrow discount_width) (table_ends curve) }
{}

/// Compiles only where threads may share a `T` and hand it on.
fn shared<T: Send + Sync>() {}

/// Threads may share the discounts of a curve, and hand them on.
pub fn sharing() {
    shared::<Discounts>();
}
