//! Segments of premium and reserve risk.

ghost use Rattle.std.specs.Prelude.{◌≡◌, ◌+◌, ◌*◌, ◌^◌, ◌<◌, ◌≤◌, pos, ◌≤ℤ◌, unsigned_abs};
ghost use Rattle.scr_num.specs.Figure.{Frac};
ghost use Rattle.scr_num.specs.Enclosure.{Encloses};
ghost use Rattle.scr_num.specs.Rounding.{ends, exact_ends, root_ends};
ghost use Rattle.scr_num.specs.Ratio.{ratio_unit, fraction_of, product_ends};
ghost use Rattle.scr_profile.specs.declared.limits.TheConstants.{MAX_AMOUNT};
ghost use Rattle.scr_nonlife.specs.Segment.{total_volume, diversification, segment_figure};
ghost use Rattle.scr_nonlife.specs.SegmentEnds.{diversification_ends, squared_deviation, segment_ends, products_of_a_grain};

use crate::volumes::{premium_volume, reserve_volume, squared_volumes, total_volume};
use scr_num::{Span, add, exact, ratio, root_of, scale};

/// One, in 10^-18.
const ONE: i128 = 1_000_000_000_000_000_000;

/// Of so many millionths of a cent times quarters of 10^-18 one grain is made.
const PRODUCTS_OF_A_GRAIN: u128 = 4_000_000_000_000_000_000_000;

/// The standard deviation of a segment times its volume measure, in grains, thousandths of a cent:
/// Delegated Regulation (EU) 2015/35, Articles 116 and 117.
///
/// `volumes` are the volume measures for premium and for reserve risk of each region, in cents;
/// `premium` and `reserve` are the standard deviations for both, in millionths.
pub fn segment(volumes: &[(u64, u64); 18], premium: u32, reserve: u32) -> Span
    requires volumes { total_volume volumes.now ≤ MAX_AMOUNT }
    requires premium { premium ≤ 1_000_000 }
    requires reserve { reserve ≤ 1_000_000 }
    ensures ends { ends result ≡ segment_ends volumes.now premium reserve }
    ensures encloses { Encloses 1000 result.low result.high
        (segment_figure volumes.now premium reserve) }
    ensures not_negative { pos 0 ≤ℤ result.low }
    ensures at_most_the_volume { result.high ≤ℤ pos (1000 * total_volume volumes.now) }
{
    let premium_part = u128::from(premium) * u128::from(premium_volume(volumes));
    let reserve_part = u128::from(reserve) * u128::from(reserve_volume(volumes));
    let quadruple = add(exact(3 * ONE), diversification(volumes));
    shared(deviation(premium_part, reserve_part), quadruple)
}

/// The geographical diversification of a segment, in 10^-18: the squares of the regional volumes
/// over the square of their sum (Article 116), and 1 where there is no volume.
pub fn diversification(volumes: &[(u64, u64); 18]) -> Span
    requires { total_volume volumes.now ≤ MAX_AMOUNT }
    ensures ends { ends result ≡ diversification_ends volumes.now }
    ensures encloses { Encloses ratio_unit result.low result.high (Frac (fraction_of
        (diversification volumes.now))) }
    ensures not_negative { pos 0 ≤ℤ result.low }
    ensures at_most_one { result.high ≤ℤ pos ratio_unit }
    ensures empty { total_volume volumes.now ≡ 0 → ends result ≡ exact_ends (pos ratio_unit) }
{
    let total = u128::from(total_volume(volumes));
    if total == 0 {
        exact(ONE)
    } else {
        ratio(squared_volumes(volumes), total * total)
    }
}

// The root of the sum of both squares and the product.
fn deviation(premium: u128, reserve: u128) -> Span
    requires { premium + reserve ≤ 10_000_000_000_000_000_000 }
    ensures ends { ends result ≡ root_ends (exact_ends (pos (squared_deviation premium reserve))) }
    ensures not_negative { pos 0 ≤ℤ result.low }
    ensures size { unsigned_abs result.high ≤ 18_446_744_073_709_551_616 }
{
    root_of(natural(premium * premium + premium * reserve + reserve * reserve))
}

fn natural(v: u128) -> Span
    requires { v < 2 ^ 127 }
    ensures ends { ends result ≡ exact_ends (pos v) }
    ensures not_negative { pos 0 ≤ℤ result.low }
{
    exact(v as i128)
}

// All products of a number of each, in grains.
fn shared(root: Span, share: Span) -> Span
    requires root_not_negative { pos 0 ≤ℤ root.low }
    requires share_not_negative { pos 0 ≤ℤ share.low }
    requires root_small { unsigned_abs root.high ≤ 18_446_744_073_709_551_616 }
    requires share_small { unsigned_abs share.high ≤ 4_000_000_000_000_000_000 }
    ensures { ends result ≡ product_ends (ends root) (ends share) products_of_a_grain }
{
    let low = scale(
        exact(root.low),
        share.low.unsigned_abs(),
        PRODUCTS_OF_A_GRAIN,
    );
    let high = scale(
        exact(root.high),
        share.high.unsigned_abs(),
        PRODUCTS_OF_A_GRAIN,
    );
    spanning(low, high)
}

// From the low end of the one to the high end of the other.
fn spanning(low: Span, high: Span) -> Span
    requires { low.low ≤ℤ high.high }
    ensures low { result.low ≡ low.low }
    ensures high { result.high ≡ high.high }
{
    Span {
        low: low.low,
        high: high.high,
    }
}
