//! Sums over the cells of a matrix of correlation coefficients, in whole numbers of at least 0.

ghost use Rattle.std.specs.Prelude.{◌≡◌, ◌^◌, ◌<◌, ◌≤◌, pos, ◌<ℤ◌, ◌≤ℤ◌, length};
ghost use Rattle.scr_agg.specs.Correlated.{NotNegative, total_high};
ghost use Rattle.scr_agg.specs.Forms.{end_of, weight_of, row_of, form_of};

use scr_num::Span;
use scr_profile::Matrix;

/// Which end of each part.
#[derive(Clone, Copy)]
pub(crate) enum Side {
    Low,
    High,
}

/// Which cells of a matrix: those of at least 0, or those below.
#[derive(Clone, Copy)]
pub(crate) enum Sign {
    Positive,
    Negative,
}

/// A sum over the low ends of the parts, and the same over the high ones.
#[derive(Clone, Copy)]
pub(crate) struct Sums {
    pub low: u128,
    pub high: u128,
}

/// The sums, over the cells of that sign, of the cell's magnitude times the ends of both its parts.
pub(crate) fn forms(parts: &[Span], m: &Matrix, sign: Sign) -> Sums
    requires count { length parts.now ≤ 16 }
    requires lows { NotNegative parts.now }
    requires highs { total_high parts.now < 2 ^ 64 }
    requires low_fits { form_of Side.Low sign m.now.cells parts.now < 2 ^ 127 }
    requires high_fits { form_of Side.High sign m.now.cells parts.now < 2 ^ 127 }
    ensures low { result.low ≡ form_of Side.Low sign m.now.cells parts.now }
    ensures high { result.high ≡ form_of Side.High sign m.now.cells parts.now }
{
    let mut low = 0;
    let mut high = 0;
    for i in 0..parts.len() {
        let part = parts[i];
        let x = end(part, Side::High);
        if x != 0 {
            let row = row(&m.cells[i], parts, sign);
            low += row.low * end(part, Side::Low);
            high += row.high * x;
        }
    }
    Sums { low, high }
}

// The same along one row, for each one of its own part.
fn row(cells: &[i16; 16], parts: &[Span], sign: Sign) -> Sums
    requires count { length parts.now ≤ 16 }
    requires lows { NotNegative parts.now }
    requires highs { total_high parts.now < 2 ^ 64 }
    ensures low { result.low ≡ row_of Side.Low sign 1 cells.now parts.now }
    ensures high { result.high ≡ row_of Side.High sign 1 cells.now parts.now }
{
    let mut low = 0;
    let mut high = 0;
    for j in 0..parts.len() {
        let weight = weight(cells[j], sign);
        if weight != 0 {
            let part = parts[j];
            low += weight * end(part, Side::Low);
            high += weight * end(part, Side::High);
        }
    }
    Sums { low, high }
}

// The magnitude of a cell of that sign, and 0 of another.
fn weight(cell: i16, sign: Sign) -> u128
    ensures value { result ≡ weight_of sign cell }
    ensures bound { result < 2 ^ 16 }
{
    let counts = match sign {
        Sign::Positive => cell > 0,
        Sign::Negative => cell < 0,
    };
    if counts {
        u128::from(cell.unsigned_abs())
    } else {
        0
    }
}

// An end that fits a word, so that a product with it is one multiplication of words.
fn end(part: Span, side: Side) -> u128
    requires not_negative { pos 0 ≤ℤ part.low }
    requires small { part.high <ℤ pos (2 ^ 64) }
    ensures value { result ≡ end_of side part }
    ensures bound { result < 2 ^ 64 }
{
    let end = match side {
        Side::Low => part.low as u64,
        Side::High => part.high as u64,
    };
    u128::from(end)
}
