//! The falls of discounts where rates change.

ghost use Rattle.std.specs.Prelude.{◌≡◌, ◌≤◌, All, length, map, unsigned_abs};
ghost use Rattle.scr_num.specs.Rounding.{ends};
ghost use Rattle.scr_num.specs.Sizes.{IsWithin};
ghost use Rattle.scr_yield_curve.specs.DiscountEnds.{IsDiscount};
ghost use Rattle.scr_yield_curve.specs.Falls.{difference, differences};
ghost use Rattle.scr_yield_curve.specs.declared.table.TheConstants.{MAX_DISCOUNT};

use crate::Discounts;
use scr_num::{Span, exact, sub};
use std::marker::Model;

/// By how much the discount of each maturity of 1 to 100 years falls where rates change, in 10^-18. Contracts see the list of
/// the ends.
#[derive(Drop)]
pub struct Falls {
    at: [Span; 100],
}

impl Model for Falls {
    ghost use Rattle.std.specs.Prelude.{All, List, map};
    ghost use Rattle.scr_num.specs.Rounding.{Ends, ends};
    ghost use Rattle.scr_num.specs.Sizes.{IsWithin};
    ghost use Rattle.scr_yield_curve.specs.declared.table.TheConstants.{MAX_DISCOUNT};

    ghost Value = { List Ends };

    ghost view = { λ falls. map ends falls.at };

    ghost invariant = { λ falls. All (λ span. IsWithin MAX_DISCOUNT (ends span)) falls.at };
}

impl Falls {
    /// The falls from the discounts at the rates `base` to those at `stressed`, exactly 0 where the two rates of a maturity are
    /// equal.
    pub fn new(base: &[i64; 100], from: &Discounts, stressed: &[i64; 100], to: &Discounts) -> Falls
        requires from_in { All (λ span. IsDiscount (ends span)) from.now.at }
        requires to_in { All (λ span. IsDiscount (ends span)) to.now.at }
        ensures ends { result ≡ differences base.now (map ends from.now.at) stressed.now (map ends to.now.at) }
        ensures count { length result ≡ 100 }
    {
        let mut at = [exact(0); 100];
        for i in 0..100 {
            at[i] = fall_of(base[i], from.at[i], stressed[i], to.at[i]);
        }
        Falls { at }
    }

    /// The fall of each maturity of 1 to 100 years, none of them larger than the most that one is worth.
    pub fn spans(&self) -> &[Span; 100]
        ensures ends { map ends result.now ≡ self.now }
        ensures in_range { All (λ span. IsWithin MAX_DISCOUNT (ends span)) result.now }
    {
        &self.at
    }
}

/// By how much the discount of one maturity falls, exactly 0 where its two rates are equal.
pub fn fall_of(base: i64, from: Span, stressed: i64, to: Span) -> Span
    requires from_in { IsDiscount (ends from) }
    requires to_in { IsDiscount (ends to) }
    ensures ends { ends result ≡ difference base (ends from) stressed (ends to) }
    ensures low_size { unsigned_abs result.low ≤ MAX_DISCOUNT }
    ensures high_size { unsigned_abs result.high ≤ MAX_DISCOUNT }
{
    if base == stressed {
        exact(0)
    } else {
        sub(from, to)
    }
}
