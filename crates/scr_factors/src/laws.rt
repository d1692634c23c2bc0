//! What threads may share.

use crate::Factors;

/// Compiles only where threads may share a `T` and hand it on.
fn shared<T: Send + Sync>() {}

/// Threads may share the numbers of a factor file, and hand them on.
pub fn sharing() {
    shared::<Factors>();
}
