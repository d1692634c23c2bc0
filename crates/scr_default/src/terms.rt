//! The variance of the loss distribution of the type 1 exposures.

ghost use Rattle.std.specs.Prelude.{◌≡◌, ℕ, ◌*◌, ◌^◌, ◌<◌, ◌≤◌, pos, slice_index};
ghost use Rattle.scr_num.specs.Figure.{Frac};
ghost use Rattle.scr_num.specs.Enclosure.{Encloses};
ghost use Rattle.scr_num.specs.Rounding.{ends, exact_ends, scale_ends};
ghost use Rattle.scr_default.specs.LossesEnds.{totals_in, squares_in};
ghost use Rattle.scr_default.specs.Variance.{variance_exact};
ghost use Rattle.scr_default.specs.VarianceEnds.{between_term_ends, within_term_ends, sum_of_class_ends, between_ends, within_ends, variance_ends};
ghost use Rattle.scr_num.specs.Amounts.{IsAmount};
ghost use Rattle.scr_default.specs.declared.TheConstants.{MAX_LOSS};

use crate::numbers::number;
use crate::quotients::{Coefficient, between, within};
use scr_num::{Span, add, scale};

/// The variance in square grains: Delegated Regulation (EU) 2015/35, Article 201.
///
/// `totals` are the losses given default of the counterparties of each class of probability, in grains, and `squares`
/// the sums of their squared losses.
pub fn variance(totals: &[u64; 6], squares: &[u128; 6]) -> Span
    requires totals { (k : ℕ) → k < 6 → slice_index totals.now k ≤ MAX_LOSS }
    requires squares { (k : ℕ) → k < 6
        → slice_index squares.now k ≤ slice_index totals.now k * slice_index totals.now k }
    ensures ends { ends result ≡ variance_ends totals.now squares.now }
    ensures encloses { Encloses 1_000_000 result.low result.high
        (Frac (variance_exact (totals_in totals.now) (squares_in squares.now))) }
    ensures size { IsAmount (105 * 10 ^ 30) (ends result) }
{
    add(between_classes(totals), within_classes(squares))
}

// Over all ordered pairs of classes.
fn between_classes(totals: &[u64; 6]) -> Span
    requires { (k : ℕ) → k < 6 → slice_index totals.now k ≤ MAX_LOSS }
    ensures { ends result ≡ between_ends totals.now }
{
    let mut sum = number(0);
    for j in 0..6 {
        sum = add(sum, row(totals, j));
    }
    sum
}

// Over the pairs with one class.
fn row(totals: &[u64; 6], j: usize) -> Span
    requires class { j < 6 }
    requires totals { (k : ℕ) → k < 6 → slice_index totals.now k ≤ MAX_LOSS }
    ensures { ends result ≡ sum_of_class_ends (between_term_ends totals.now j) }
{
    let mut sum = number(0);
    for k in 0..6 {
        let product = u128::from(totals[j]) * u128::from(totals[k]);
        sum = add(sum, term(product, between(j, k)));
    }
    sum
}

// Over the classes.
fn within_classes(squares: &[u128; 6]) -> Span
    requires { (k : ℕ) → k < 6 → slice_index squares.now k ≤ MAX_LOSS * MAX_LOSS }
    ensures { ends result ≡ within_ends squares.now }
{
    let mut sum = number(0);
    for j in 0..6 {
        sum = add(sum, term(squares[j], within(j)));
    }
    sum
}

// The product with a coefficient. The number's quotient by the denominator is multiplied exactly, and only the product
// with the remainder is rounded: the same ends, while every number fits.
fn term(x: u128, by: Coefficient) -> Span
    requires { x ≤ MAX_LOSS * MAX_LOSS }
    ensures { ends result ≡ scale_ends (exact_ends (pos x)) by.num by.den }
{
    let whole = number(by.num * (x / by.den));
    add(whole, scale(number(x % by.den), by.num, by.den))
}
