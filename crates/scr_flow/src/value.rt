//! What payments are worth.

ghost use Rattle.std.specs.Prelude.{◌≡◌, ℕ, ◌+◌, ◌*◌, ◌^◌, ◌<◌, ◌≤◌, true, pos, ◌*ℤ◌, ◌≤ℤ◌, All, length, map, slice_index_or, sum_by, unsigned_abs};
ghost use Rattle.scr_num.specs.Fraction.{Fraction};
ghost use Rattle.scr_num.specs.Figure.{Frac};
ghost use Rattle.scr_num.specs.Rounding.{ends, add_ends};
ghost use Rattle.scr_num.specs.Enclosure.{Encloses};
ghost use Rattle.scr_yield_curve.specs.Discount.{present_exact};
ghost use Rattle.scr_yield_curve.specs.DiscountEnds.{one, IsDiscount, EncloseDiscounts};
ghost use Rattle.scr_flow.specs.Sums.{flow_ends, weighted_ends};
ghost use Rattle.scr_flow.specs.LossEnds.{present_ends};
ghost use Rattle.scr_num.specs.Sizes.{IsWithin};
ghost use Rattle.scr_yield_curve.specs.declared.table.TheConstants.{MAX_DISCOUNT};

use scr_num::{Span, add, exact};
use scr_yield_curve::Discounts;

/// The present value of payments after 1 to 100 years, in 10^-18 of their unit: the sum of each times its discount. The
/// absolute payments sum to 10^14 at most.
pub fn present(flows: &[i64; 100], d: &Discounts) -> Span
    requires small { sum_by unsigned_abs flows.now ≤ 100_000_000_000_000 }
    requires in_range { All (λ span. IsDiscount (ends span)) d.now.at }
    ensures ends { ends result ≡ present_ends flows.now (map ends d.now.at) }
    ensures encloses { (rate : ℕ → Fraction) → EncloseDiscounts rate (map ends d.now.at)
        → Encloses one result.low result.high (Frac (present_exact flows.now rate)) }
    ensures low_size { unsigned_abs result.low ≤ MAX_DISCOUNT * sum_by unsigned_abs flows.now }
    ensures high_size { unsigned_abs result.high ≤ MAX_DISCOUNT * sum_by unsigned_abs flows.now }
{
    weighted_sum(flows, &d.at)
}

/// The sum of payments after 1 to 100 years, each times the span of its maturity.
pub(crate) fn weighted_sum(flows: &[i64; 100], spans: &[Span; 100]) -> Span
    requires small { sum_by unsigned_abs flows.now ≤ 100_000_000_000_000 }
    requires in_range { All (λ span. IsWithin MAX_DISCOUNT (ends span)) spans.now }
    ensures ends { ends result ≡ weighted_ends flows.now (map ends spans.now) }
    ensures places { length flows.now ≡ length (map ends spans.now) }
    ensures low_size { unsigned_abs result.low ≤ MAX_DISCOUNT * sum_by unsigned_abs flows.now }
    ensures high_size { unsigned_abs result.high ≤ MAX_DISCOUNT * sum_by unsigned_abs flows.now }
{
    let mut sum = exact(0);
    let mut i = 0;
    while i < 100 {
        let flow = flows[i];
        let span = spans[i];
        if flow == 0 {
            i = passed(flows, i);
        } else {
            sum = add(sum, weighted(flow, span));
            i += 1;
        }
    }
    sum
}

/// Where a walk along the years goes on from one without a payment: ten years later where nothing is paid in any of the ten,
/// else in the next year.
fn passed(flows: &[i64; 100], place: usize) -> usize
    requires place { place < 100 }
    requires none { slice_index_or flows.now place (pos 0) ≡ pos 0 }
    ensures later { place < result }
    ensures most { result ≤ 100 }
    ensures nothing { (k : ℕ) → place ≤ k → k < result → slice_index_or flows.now k (pos 0) ≡ pos 0 }
{
    if place <= 90 && is_nothing_paid(flows, place) {
        return place + 10;
    }
    place + 1
}

/// Nothing is paid in the ten years from one on.
fn is_nothing_paid(flows: &[i64; 100], first: usize) -> bool
    requires { first ≤ 90 }
    ensures { result ≡ true → (k : ℕ) → first ≤ k → k < first + 10 → slice_index_or flows.now k (pos 0) ≡ pos 0 }
{
    for k in first..first + 10 {
        if flows[k] != 0 {
            return false;
        }
    }
    true
}

/// A payment times all numbers of a span, the ends of which a negative payment exchanges.
pub(crate) fn weighted(flow: i64, span: Span) -> Span
    requires flow_in { unsigned_abs flow ≤ 100_000_000_000_000 }
    requires low_in { unsigned_abs span.low ≤ MAX_DISCOUNT }
    requires high_in { unsigned_abs span.high ≤ MAX_DISCOUNT }
    ensures ends { ends result ≡ flow_ends flow (ends span) }
    ensures low_size { unsigned_abs result.low ≤ MAX_DISCOUNT * unsigned_abs flow }
    ensures high_size { unsigned_abs result.high ≤ MAX_DISCOUNT * unsigned_abs flow }
{
    // The ends are exchanged before they are multiplied, so that numbers of either sign are multiplied at once.
    let (first, last) = if flow < 0 {
        (span.high, span.low)
    } else {
        (span.low, span.high)
    };
    Span {
        low: product(flow, first),
        high: product(flow, last),
    }
}

/// A sum with a payment of at least 0 times all numbers of a span. No sign is asked for, and each end is added as soon as it is
/// multiplied.
pub(crate) fn with_promised(sum: Span, flow: i64, span: Span) -> Span
    requires not_negative { pos 0 ≤ℤ flow }
    requires flow_in { unsigned_abs flow ≤ 100_000_000_000_000 }
    requires low_in { unsigned_abs span.low ≤ MAX_DISCOUNT }
    requires high_in { unsigned_abs span.high ≤ MAX_DISCOUNT }
    requires sum_low { unsigned_abs sum.low ≤ 2 ^ 125 }
    requires sum_high { unsigned_abs sum.high ≤ 2 ^ 125 }
    ensures ends { ends result ≡ add_ends (ends sum) (flow_ends flow (ends span)) }
    ensures low_size { unsigned_abs (flow_ends flow (ends span)).low ≤ MAX_DISCOUNT * unsigned_abs flow }
    ensures high_size { unsigned_abs (flow_ends flow (ends span)).high ≤ MAX_DISCOUNT * unsigned_abs flow }
{
    let low = sum.low + product(flow, span.low);
    let high = sum.high + product(flow, span.high);
    Span { low, high }
}

fn product(flow: i64, end: i128) -> i128
    requires flow_in { unsigned_abs flow ≤ 100_000_000_000_000 }
    requires end_in { unsigned_abs end ≤ MAX_DISCOUNT }
    ensures value { result ≡ flow *ℤ end }
    ensures size { unsigned_abs result ≤ MAX_DISCOUNT * unsigned_abs flow }
{
    // Both are numbers of 64 bits, which are multiplied at once.
    i128::from(flow) * i128::from(end as i64)
}
