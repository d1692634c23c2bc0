//! Discounts by maturity.

use scr_num::Span;

/// The most that one is worth at any maturity, in 10^-18: the power -100 of 0.99 is below 2.74 (this project's own).
pub const MAX_DISCOUNT: u128 = 2_740_000_000_000_000_000;

/// The discounts of payments after 1 to 100 years, in 10^-18.
#[derive(Clone, Copy, Debug, PartialEq, Eq)]
pub struct Discounts {
    pub at: [Span; 100],
}
