//! Roots over correlated parts.

ghost use Rattle.std.specs.Prelude.{◌≡◌, ℕ, ◌-◌, ◌*◌, ◌^◌, ◌<◌, ◌≤◌, pos, ◌<ℤ◌, ◌≤ℤ◌, length};
ghost use Rattle.std.specs.Prelude.{unsigned_abs};
ghost use Rattle.scr_num.specs.Figure.{Figures, Root};
ghost use Rattle.scr_num.specs.Amounts.{IsAmount};
ghost use Rattle.scr_num.specs.Enclosure.{Encloses, EncloseAll};
ghost use Rattle.scr_num.specs.Rounding.{ends, or_zero, quad_ends};
ghost use Rattle.scr_agg.specs.Correlated.{table_of, CellsWithin, NotNegative, total_high};
ghost use Rattle.scr_agg.specs.Correlated.{all_ends};

use crate::form::{Sign, forms};
use scr_num::{Span, root_of, scale};
use scr_profile::Matrix;

/// The root of the sum, over all pairs of parts, of their correlation times both parts. A product
/// takes the low ends of its parts for the low end of the sum and the high ones for the high end,
/// and the other way round where its correlation is negative; a sum below 0 counts as 0. Both ends
/// of the root are rounded outward to whole numbers.
pub fn quad(parts: &[Span], m: &Matrix) -> Span
    requires size { m.now.n ≤ 16 }
    requires denominator { pos 0 <ℤ m.now.den }
    requires cells { CellsWithin m.now }
    requires count { length parts.now ≡ m.now.n }
    requires lows { NotNegative parts.now }
    requires small { or_zero m.now.den * (total_high parts.now * total_high parts.now) < 2 ^ 127 }
    ensures ends { ends result ≡ quad_ends (all_ends parts.now) (table_of m.now) }
    ensures encloses { (unit : ℕ) → 0 < unit → (figures : Figures)
        → EncloseAll unit (all_ends parts.now) figures
        → Encloses unit result.low result.high (Root figures (table_of m.now)) }
    ensures not_negative { pos 0 ≤ℤ result.low }
    ensures low_size { unsigned_abs result.low < 2 ^ 64 }
    ensures high_size { unsigned_abs result.high ≤ 2 ^ 64 }
    ensures at_most_the_sum { result.high ≤ℤ pos (total_high parts.now) }
    ensures size { IsAmount (total_high parts.now) (ends result) }
{
    let positive = forms(parts, m, Sign::Positive);
    let negative = forms(parts, m, Sign::Negative);
    let low = less(positive.low, negative.high);
    let high = less(positive.high, negative.low);
    root_of(scale(between(low, high), 1, denominator(m)))
}

fn denominator(m: &Matrix) -> u128
    requires { pos 0 <ℤ m.now.den }
    ensures { result ≡ or_zero m.now.den }
{
    u128::from(m.den.unsigned_abs())
}

// The difference, and 0 where it is below 0.
fn less(sum: u128, taken: u128) -> u128
    ensures { result ≡ sum - taken }
{
    sum.saturating_sub(taken)
}

fn between(low: u128, high: u128) -> Span
    requires ordered { low ≤ high }
    requires fits { high < 2 ^ 127 }
    ensures low { result.low ≡ pos low }
    ensures high { result.high ≡ pos high }
{
    Span {
        low: low as i128,
        high: high as i128,
    }
}
