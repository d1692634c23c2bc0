//! The bounds of an amount.

/// A lower and an upper bound, in hundredths of what is told: mostly cents.
#[derive(Clone, Copy)]
pub struct Bounds {
    pub low: i128,
    pub high: i128,
}
