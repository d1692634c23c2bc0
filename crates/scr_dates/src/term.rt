//! How far a payment lies ahead.

/// How far a payment lies ahead of the reference date, in whole years begun.
#[derive(Clone, Copy, Debug, PartialEq, Eq)]
pub enum Maturity {
    /// On or before the reference date.
    Past,
    /// The years, from 1 to 100.
    Years(u8),
    /// The years where they are more than 100.
    TooFar(u16),
}
