//! The faults of a factor file.

use crate::Key;
use thiserror::Error;

/// Why a factor file is refused.
#[derive(Clone, Copy, Debug, PartialEq, Eq, Error)]
pub enum FactorFault {
    /// The bytes are not UTF-8, or no TOML.
    #[error("not TOML")]
    NotToml,
    /// The first key that gives cause is not there.
    #[error("a key is missing")]
    Missing(Key),
    /// The first key that gives cause has a value that is not of its form.
    #[error("a key has a bad value")]
    BadValue(Key),
    /// The first pair of segments, by their numbers from 1 in the order of the rows, whose two
    /// correlations differ.
    #[error("the correlations are not symmetric")]
    NotSymmetric(u8, u8),
    /// No memory was left.
    #[error("out of memory")]
    NoMemory,
}
