//! The coefficients of the variance, as quotients of whole numbers: Delegated Regulation (EU) 2015/35, Article 201.

ghost use Rattle.std.specs.Prelude.{◌≡◌, ◌*◌, ◌^◌, ◌<◌, ◌≤◌};
ghost use Rattle.scr_default.specs.VarianceEnds.{between_num, between_den, within_num, within_den};

use crate::classes::{dispersion, probability};

/// At most a fortieth, with a product of both that leaves room in 128 bits.
#[derive(Clone, Copy)]
pub(crate) struct Coefficient {
    pub num: u128,
    pub den: u128,
    ghost positive: { 0 < den },
    ghost small: { 40 * num ≤ den },
    ghost fits: { den * num < 2 ^ 127 },
}

/// That of the product of the totals of two classes.
pub(crate) fn between(j: usize, k: usize) -> Coefficient
    requires first { j < 6 }
    requires second { k < 6 }
    ensures num { result.num ≡ between_num j k }
    ensures den { result.den ≡ between_den j k }
{
    let (p, q) = (probability(j), probability(k));
    Coefficient {
        num: 4 * dispersion(j) * dispersion(k),
        den: 10_000_000_000 * (500_000 * (p + q) - 4 * p * q),
    }
}

/// That of the sum of squares of one class.
pub(crate) fn within(j: usize) -> Coefficient
    requires { j < 6 }
    ensures num { result.num ≡ within_num j }
    ensures den { result.den ≡ within_den j }
{
    Coefficient {
        num: 3 * dispersion(j),
        den: 100_000 * (500_000 - 2 * probability(j)),
    }
}
