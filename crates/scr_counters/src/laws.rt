//! What holds of the tallies, whatever a program does.

use crate::{DayTally, NameTally};

/// Compiles only where threads may share a `T` and hand it on.
fn shared<T: Send + Sync>() {}

/// Threads may share a tally, and hand it on.
pub fn sharing() {
    shared::<DayTally>();
    shared::<NameTally>();
}
