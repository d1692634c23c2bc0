//! The two sets of segments of premium and reserve risk.

/// A set of segments of premium and reserve risk.
#[derive(Clone, Copy, Debug, PartialEq, Eq)]
pub enum Set {
    /// The twelve segments of non-life.
    Nl,
    /// The four segments of health that is not similar to life.
    Nslt,
}
