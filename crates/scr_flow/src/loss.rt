//! What payments lose.

ghost use Rattle.std.specs.Prelude.{◌≡◌, ℕ, ℤ, ◌*◌, ◌<◌, ◌≤◌, pos, ◌+ℤ◌, ◌-ℤ◌, ◌*ℤ◌, All, map, slice_index_or, sum_by, unsigned_abs};
ghost use Rattle.scr_num.specs.Fraction.{Fraction};
ghost use Rattle.scr_num.specs.Figure.{Frac};
ghost use Rattle.scr_num.specs.Rounding.{ends};
ghost use Rattle.scr_num.specs.Enclosure.{Encloses};
ghost use Rattle.scr_yield_curve.specs.Parts.{AreRates, IsCurveInMillionths, rates_in_parts};
ghost use Rattle.scr_yield_curve.specs.DiscountEnds.{one, IsDiscount, EncloseDiscounts};
ghost use Rattle.scr_flow.specs.Loss.{loss_exact};
ghost use Rattle.scr_yield_curve.specs.declared.tilt.Tilt.TheVariants as tilts;
ghost use Rattle.scr_yield_curve.specs.Falls.{difference};
ghost use Rattle.scr_flow.specs.Sums.{flow_ends};
ghost use Rattle.scr_flow.specs.LossEnds.{loss_ends, scaled_ends};
ghost use Rattle.scr_num.specs.Sizes.{IsWithin};
ghost use Rattle.scr_yield_curve.specs.declared.table.TheConstants.{MAX_DISCOUNT};
ghost use Rattle.scr_profile.specs.declared.limits.TheConstants.{MAX_HELD};

use crate::fallen;
use crate::value::weighted;
use scr_num::{Span, add, exact, scale};
use scr_yield_curve::{Discounts, Falls, Tilt, fall_of, yearly_at};

/// So few cents, and so few 10^-18 between the ends of a unit, that their product fits 64 bits.
const FEW: u64 = 4_294_967_295;

/// More than the product of a unit and so few cents comes to.
const LIFT: i128 = 100_000_000_000_000_000_000_000_000_000_000_000;

/// Its millionth.
const LIFT_SHARE: i128 = 100_000_000_000_000_000_000_000_000_000;

/// What payments after 1 to 100 years lose where the rates `base` become `stressed`, in 10^-18 of their unit: the sum
/// of each payment times the fall of its discount (Delegated Regulation (EU) 2015/35, Article 165). Where the two rates
/// of a maturity are equal its payment adds exactly 0. The absolute payments sum to 10^14 at most, and `from` and `to`
/// enclose the discounts at the two curves.
pub fn unit_loss(
    flows: &[i64; 100],
    base: &[i64; 100],
    from: &Discounts,
    stressed: &[i64; 100],
    to: &Discounts,
) -> Span
    requires small { sum_by unsigned_abs flows.now ≤ 100_000_000_000_000 }
    requires from_in { All (λ span. IsDiscount (ends span)) from.now.at }
    requires to_in { All (λ span. IsDiscount (ends span)) to.now.at }
    requires from_encloses { (rate : ℕ → Fraction) → AreRates base.now rate
        → EncloseDiscounts rate (map ends from.now.at) }
    requires to_encloses { (rate : ℕ → Fraction) → AreRates stressed.now rate
        → EncloseDiscounts rate (map ends to.now.at) }
    ensures ends { ends result
        ≡ loss_ends flows.now base.now (map ends from.now.at) stressed.now (map ends to.now.at) }
    ensures encloses { (before after : ℕ → Fraction) → AreRates base.now before → AreRates stressed.now after
        → Encloses one result.low result.high (Frac (loss_exact flows.now before after)) }
    ensures low_size { unsigned_abs result.low ≤ MAX_DISCOUNT * sum_by unsigned_abs flows.now }
    ensures high_size { unsigned_abs result.high ≤ MAX_DISCOUNT * sum_by unsigned_abs flows.now }
{
    fallen(flows, &Falls::new(base, from, stressed, to))
}

/// The same where the rates of a curve in millionths are stressed by a tilt. The rates are found only of the maturities at
/// which something is paid, so that it costs little where payments are few.
pub fn curve_loss(
    flows: &[i64; 100],
    rates: &[i64],
    from: &Discounts,
    tilt: Tilt,
    to: &Discounts,
) -> Span
    requires small { sum_by unsigned_abs flows.now ≤ 100_000_000_000_000 }
    requires curve { IsCurveInMillionths rates.now }
    requires from_in { All (λ span. IsDiscount (ends span)) from.now.at }
    requires to_in { All (λ span. IsDiscount (ends span)) to.now.at }
    ensures ends { ends result ≡ loss_ends flows.now (rates_in_parts rates.now tilts.Base) (map ends from.now.at)
        (rates_in_parts rates.now tilt) (map ends to.now.at) }
    ensures low_size { unsigned_abs result.low ≤ MAX_DISCOUNT * sum_by unsigned_abs flows.now }
    ensures high_size { unsigned_abs result.high ≤ MAX_DISCOUNT * sum_by unsigned_abs flows.now }
{
    let mut sum = exact(0);
    for i in 0..100 {
        let flow = flows[i];
        let (before, after) = (from.at[i], to.at[i]);
        if flow != 0 {
            sum = add(sum, lost_at(flow, rates, i, before, tilt, after));
        }
    }
    sum
}

/// What is lost of the payment of one maturity.
fn lost_at(flow: i64, rates: &[i64], place: usize, from: Span, tilt: Tilt, to: Span) -> Span
    requires flow_in { unsigned_abs flow ≤ 100_000_000_000_000 }
    requires curve { IsCurveInMillionths rates.now }
    requires place { place < 100 }
    requires from_in { IsDiscount (ends from) }
    requires to_in { IsDiscount (ends to) }
    ensures ends { (d : ℤ) → ends result ≡ flow_ends flow
        (difference (slice_index_or (rates_in_parts rates.now tilts.Base) place d) (ends from)
        (slice_index_or (rates_in_parts rates.now tilt) place d) (ends to)) }
    ensures low_size { unsigned_abs result.low ≤ MAX_DISCOUNT * unsigned_abs flow }
    ensures high_size { unsigned_abs result.high ≤ MAX_DISCOUNT * unsigned_abs flow }
{
    let base = yearly_at(rates, Tilt::Base, place);
    let stressed = yearly_at(rates, tilt, place);
    weighted(flow, fall_of(base, from, stressed, to))
}

/// What so many cents of a unit lose of which 1,000,000 lose `unit`, rounded outward, in 10^-18 cents.
pub fn per_million(unit: Span, cents: u64) -> Span
    requires unit_in { IsWithin 13_700_000_000_000_000_000_000_000 (ends unit) }
    requires held { cents ≤ MAX_HELD }
    ensures ends { ends result ≡ scaled_ends (ends unit) cents }
    ensures size { IsWithin (13_700_000_000_000_000_000 * cents) (ends result) }
{
    let width = width(unit);
    if cents > FEW || width > u128::from(FEW) {
        return by_millions(unit, cents);
    }
    few_per_million(unit.low, width as u64, cents)
}

/// By how much the ends of a unit are apart.
fn width(unit: Span) -> u128
    requires { IsWithin 13_700_000_000_000_000_000_000_000 (ends unit) }
    ensures { pos result ≡ unit.high -ℤ unit.low }
{
    (unit.high - unit.low) as u128
}

/// The same for any cents. The whole millions and the rest are multiplied apart, since the whole product need not fit.
fn by_millions(unit: Span, cents: u64) -> Span
    requires unit_in { IsWithin 13_700_000_000_000_000_000_000_000 (ends unit) }
    requires held { cents ≤ MAX_HELD }
    ensures ends { ends result ≡ scaled_ends (ends unit) cents }
    ensures size { IsWithin (13_700_000_000_000_000_000 * cents) (ends result) }
{
    let millions = scale(unit, u128::from(cents / 1_000_000), 1);
    let rest = scale(unit, u128::from(cents % 1_000_000), 1_000_000);
    add(millions, rest)
}

/// The same of a unit whose ends are `width` apart. Only the low end is divided: the high one is more than it by what the rest
/// and the width come to.
fn few_per_million(low: i128, width: u64, cents: u64) -> Span
    requires low_in { unsigned_abs low ≤ 13_700_000_000_000_000_000_000_000 }
    requires narrow { width ≤ 4_294_967_295 }
    requires few { cents ≤ 4_294_967_295 }
    ensures { ends result ≡ scaled_ends (record { low = low; high = low +ℤ pos width }) cents }
{
    let (floor, rest) = shared(low, cents);
    let more = (rest + width * cents + 999_999) / 1_000_000;
    Span {
        low: floor,
        high: floor + i128::from(more),
    }
}

/// The share of so many cents of a unit, rounded down, and what is left of it. The product is lifted above 0, so that no sign
/// is asked for.
fn shared(unit: i128, cents: u64) -> (i128, u64)
    requires unit_in { unsigned_abs unit ≤ 13_700_000_000_000_000_000_000_000 }
    requires few { cents ≤ 4_294_967_295 }
    ensures share { unit *ℤ pos cents ≡ result.0 *ℤ pos 1_000_000 +ℤ pos result.1 }
    ensures less { result.1 < 1_000_000 }
    ensures size { unsigned_abs result.0 ≤ 100_000_000_000_000_000_000_000_000_000 }
{
    let lifted = lifted(unit, cents);
    (lowered(lifted / 1_000_000), (lifted % 1_000_000) as u64)
}

/// A unit times so many cents, lifted.
fn lifted(unit: i128, cents: u64) -> u128
    requires unit_in { unsigned_abs unit ≤ 13_700_000_000_000_000_000_000_000 }
    requires few { cents ≤ 4_294_967_295 }
    ensures value { pos result ≡ unit *ℤ pos cents +ℤ pos 100_000_000_000_000_000_000_000_000_000_000_000 }
    ensures most { result ≤ 200_000_000_000_000_000_000_000_000_000_000_000 }
{
    (unit * i128::from(cents) + LIFT) as u128
}

/// The millionth of a product that was not lifted.
fn lowered(share: u128) -> i128
    requires { share ≤ 200_000_000_000_000_000_000_000_000_000 }
    ensures { result ≡ pos share -ℤ pos 100_000_000_000_000_000_000_000_000_000 }
{
    share as i128 - LIFT_SHARE
}
