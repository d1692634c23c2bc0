//! A matrix of correlation coefficients.

/// A matrix of correlation coefficients: `n` rows and columns of whole numbers over the denominator
/// `den`. The other places of `cells` are 0.
#[derive(Clone, Copy, Debug, PartialEq, Eq)]
pub struct Matrix {
    pub n: usize,
    pub den: i32,
    pub cells: [[i16; 16]; 16],
}
