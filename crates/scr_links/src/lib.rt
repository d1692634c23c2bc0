//! An arena of edges, each from a source to a dependant, which is computed from it. An edge is in its source's list and in its
//! dependant's, both doubly linked. So it joins and leaves both by a constant number of writes, however many edges there are.
#![tactic(auto)]

mod chains;
pub mod laws;
mod links;
mod list_ends;
mod seats;
mod walk;

pub use links::{EdgeId, Links};
pub use walk::Walk;
