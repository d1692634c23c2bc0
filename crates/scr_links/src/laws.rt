//! Laws of the types, for proofs above to cite.

use crate::{EdgeId, Links};

fn shared<T: Send + Sync>() {}

/// An arena of edges and the ids of its edges may be shared between threads and sent to them.
pub fn sharing() {
    shared::<Links>();
    shared::<EdgeId>();
}
