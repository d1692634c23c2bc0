//! What holds of the graph, whatever a program does.

use crate::{FundGraph, GraphFault, KeptComponents};

/// Compiles only where threads may share a `T` and hand it on.
fn shared<T: Send + Sync>() {}

/// Threads may share a graph, a refusal and what was kept, and hand them on.
pub fn sharing() {
    shared::<FundGraph>();
    shared::<GraphFault>();
    shared::<KeptComponents>();
}
