//! Quotients of whole numbers of which the first is at most the second.

ghost use Rattle.std.specs.Prelude.{◌≡◌, ◌^◌, ◌<◌, ◌≤◌, pos, ◌≤ℤ◌};
ghost use Rattle.scr_num.specs.Fraction.{over};
ghost use Rattle.scr_num.specs.Figure.{Frac};
ghost use Rattle.scr_num.specs.Enclosure.{Encloses};
ghost use Rattle.scr_num.specs.Rounding.{ends};
ghost use Rattle.scr_num.specs.Ratio.{ratio_unit, ratio_ends};

use crate::Span;

/// Half of the digits of a ratio: the other half is worked out of what the first leaves, since `num
/// * 10^18` need not fit.
const HALF: u128 = 1_000_000_000;

/// The quotient `num / den` in units of 10^-18: the floor at the low end, the ceiling at the high
/// one.
pub fn ratio(num: u128, den: u128) -> Span
    requires positive { 0 < den }
    requires small { den ≤ 10 ^ 28 }
    requires proper { num ≤ den }
    ensures ends { ends result ≡ ratio_ends num den }
    ensures encloses { (positive : 0 < den)
        → Encloses ratio_unit result.low result.high (Frac (over (pos num) den positive)) }
    ensures not_negative { pos 0 ≤ℤ result.low }
    ensures at_most_one { result.high ≤ℤ pos ratio_unit }
{
    let first = num * HALF;
    let front = first / den * HALF;
    let rest = first % den * HALF;
    between(front + rest / den, front + rest.div_ceil(den))
}

fn between(low: u128, high: u128) -> Span
    requires ordered { low ≤ high }
    requires fits { high < 2 ^ 127 }
    ensures low { result.low ≡ pos low }
    ensures high { result.high ≡ pos high }
{
    Span {
        low: low as i128,
        high: high as i128,
    }
}
