//! What payments lose by the falls of their discounts.

ghost use Rattle.std.specs.Prelude.{◌≡◌, ◌*◌, ◌^◌, ◌<◌, ◌≤◌, pos, ◌≤ℤ◌, length, slice_index_or, sum_by, unsigned_abs};
ghost use Rattle.scr_num.specs.Rounding.{Ends, ends, add_ends};
ghost use Rattle.scr_yield_curve.specs.declared.table.TheConstants.{MAX_DISCOUNT};
ghost use Rattle.scr_flow.specs.Sums.{flow_ends, weighted_ends};

use crate::value::{weighted_sum, with_promised};
use scr_num::Span;
use scr_yield_curve::Falls;

/// What payments after 1 to 100 years lose: the sum of each times the fall of its discount. The absolute payments sum to 10^14
/// at most.
pub fn fallen(flows: &[i64; 100], falls: &Falls) -> Span
    requires small { sum_by unsigned_abs flows.now ≤ 100_000_000_000_000 }
    ensures ends { ends result ≡ weighted_ends flows.now falls.now }
    ensures low_size { unsigned_abs result.low ≤ MAX_DISCOUNT * sum_by unsigned_abs flows.now }
    ensures high_size { unsigned_abs result.high ≤ MAX_DISCOUNT * sum_by unsigned_abs flows.now }
{
    weighted_sum(flows, falls.spans())
}

/// A sum with what a payment of at least 0 after `place` + 1 years loses.
pub(crate) fn with_lost(sum: Span, falls: &Falls, place: usize, flow: i64) -> Span
    requires place { place < 100 }
    requires not_negative { pos 0 ≤ℤ flow }
    requires flow_in { unsigned_abs flow ≤ 100_000_000_000_000 }
    requires sum_low { unsigned_abs sum.low ≤ 2 ^ 125 }
    requires sum_high { unsigned_abs sum.high ≤ 2 ^ 125 }
    ensures ends { (e : Ends) → ends result ≡ add_ends (ends sum) (flow_ends flow (slice_index_or falls.now place e)) }
    ensures count { length falls.now ≡ 100 }
    ensures low_size { (e : Ends) → unsigned_abs (flow_ends flow (slice_index_or falls.now place e)).low
        ≤ MAX_DISCOUNT * unsigned_abs flow }
    ensures high_size { (e : Ends) → unsigned_abs (flow_ends flow (slice_index_or falls.now place e)).high
        ≤ MAX_DISCOUNT * unsigned_abs flow }
{
    with_promised(sum, flow, falls.spans()[place])
}
