//! The discounts that rates give.

ghost use Rattle.std.specs.Prelude.{◌≡◌, ℕ, ℤ, ◌<◌, ◌≤◌, ◌+◌, ◌*◌, ◌/◌, ◌%◌, pos, ◌+ℤ◌, ◌-ℤ◌, map, slice_index_or, All};
ghost use Rattle.scr_num.specs.Fraction.{Fraction};
ghost use Rattle.scr_num.specs.Rounding.{ends, or_zero, scale_ends};
ghost use Rattle.scr_num.specs.Narrow.{IsNarrow};
ghost use Rattle.scr_num.specs.declared.span.Span.{Span};
ghost use Rattle.scr_yield_curve.specs.Parts.{parts, IsRateInParts, AreRates};
ghost use Rattle.scr_yield_curve.specs.DiscountEnds.{discount_ends, discount_width, table_ends, IsDiscount, EncloseDiscounts, AreAboutPowers};
ghost use Rattle.scr_yield_curve.specs.declared.table.TheConstants.{MAX_DISCOUNT};

use crate::Discounts;
use scr_num::{Span, exact};

/// One, in the unit of a discount.
const ONE: i128 = 1_000_000_000_000_000_000;

/// One, in the unit of a rate.
const PARTS: i64 = 7_000_000_000;

/// The same, to be multiplied by digits of a discount.
const PARTS_IN_ONE: u64 = 7_000_000_000;

/// The digits of a discount are taken in two steps, the last 30 bits in the second.
const STEP: u64 = 1_073_741_824;

/// The discounts of payments after 1 to 100 years, each at the rate of its maturity in seven-billionths. Both ends of
/// a discount start at one and are divided by one plus the rate once a year, the low end rounded down and the high one
/// up each time.
pub fn discounts(curve: &[i64; 100]) -> Discounts
    requires { All IsRateInParts curve.now }
    ensures ends { map ends result.at ≡ table_ends curve.now }
    ensures in_range { All (λ span. IsDiscount (ends span)) result.at }
    ensures powers { (rate : ℕ → Fraction) → AreRates curve.now rate → AreAboutPowers rate (map ends result.at) }
    ensures encloses { (rate : ℕ → Fraction) → AreRates curve.now rate → EncloseDiscounts rate (map ends result.at) }
{
    let mut at = [exact(ONE); 100];
    for i in 0..100 {
        at[i] = discount_after(curve, &at, i);
    }
    Discounts { at }
}

/// The discount of the maturity at a place, where those before are known: one year more than the one
/// before where both have one rate.
fn discount_after(curve: &[i64; 100], before: &[Span; 100], place: usize) -> Span
    requires rates { All IsRateInParts curve.now }
    requires place { place < 100 }
    requires before { (k : ℕ) (d : Span) (e : ℤ) → k < place
        → ends (slice_index_or before.now k d) ≡ discount_ends (slice_index_or curve.now k e) (1 + k) }
    ensures { (e : ℤ) → ends result ≡ discount_ends (slice_index_or curve.now place e) (1 + place) }
{
    if place > 0 && curve[place - 1] == curve[place] {
        return year_later(before[place - 1], curve[place], place);
    }
    discount(curve[place], place + 1)
}

/// The discount of a payment after so many years.
fn discount(rate: i64, years: usize) -> Span
    requires rate_in { IsRateInParts rate }
    requires years_in { years ≤ 100 }
    ensures { ends result ≡ discount_ends rate years }
{
    let mut span = exact(ONE);
    for k in 0..years {
        span = year_later(span, rate, k);
    }
    span
}

/// The discount after one more year than so many.
fn year_later(span: Span, rate: i64, years: usize) -> Span
    requires rate_in { IsRateInParts rate }
    requires years_in { years < 100 }
    requires span { ends span ≡ discount_ends rate years }
    ensures { ends result ≡ discount_ends rate (years + 1) }
{
    lessened(span, growth_of(rate))
}

/// One plus the rate.
fn growth_of(rate: i64) -> u64
    requires { IsRateInParts rate }
    ensures value { result ≡ or_zero (pos parts +ℤ rate) }
    ensures least { 6_930_000_000 ≤ result }
    ensures most { result ≤ 9_800_000_000 }
{
    (PARTS + rate) as u64
}

/// A discount divided by one plus the rate, the low end rounded down and the high one up. Only the low end is divided in full:
/// the high one is more than it by what the rest and the width come to.
fn lessened(span: Span, growth: u64) -> Span
    requires discount { IsDiscount (ends span) }
    requires narrow { IsNarrow discount_width (ends span) }
    requires least { 6_930_000_000 ≤ growth }
    requires most { growth ≤ 9_800_000_000 }
    ensures { ends result ≡ scale_ends (ends span) parts growth }
{
    let (low, rest) = divided(span.low as u64, growth);
    let more = (rest + width(span) * PARTS_IN_ONE).div_ceil(growth);
    Span {
        low: i128::from(low),
        high: i128::from(low + more),
    }
}

/// By how much the ends of a discount are apart.
fn width(span: Span) -> u64
    requires discount { IsDiscount (ends span) }
    requires narrow { IsNarrow discount_width (ends span) }
    ensures value { pos result ≡ span.high -ℤ span.low }
    ensures few { result ≤ 548 }
{
    (span.high - span.low) as u64
}

/// So many parts of a discount divided by one plus the rate, and what is left. In two steps, so that each product fits 64
/// bits, which are divided at once.
fn divided(discount: u64, growth: u64) -> (u64, u64)
    requires small { discount ≤ MAX_DISCOUNT }
    requires least { 6_930_000_000 ≤ growth }
    requires most { growth ≤ 9_800_000_000 }
    ensures quotient { result.0 ≡ discount * parts / growth }
    ensures rest { result.1 ≡ discount * parts % growth }
    ensures less { result.1 < growth }
    ensures size { result.0 ≤ 2_800_000_000_000_000_000 }
{
    let front = discount / STEP * PARTS_IN_ONE;
    let back = front % growth * STEP + discount % STEP * PARTS_IN_ONE;
    (front / growth * STEP + back / growth, back % growth)
}
