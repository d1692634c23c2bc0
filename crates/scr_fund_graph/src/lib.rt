//! Which funds hold which, by name.
#![tactic(auto)]

mod fault;
mod graph;
mod kept;
pub mod laws;

pub use fault::GraphFault;
pub use graph::FundGraph;
pub use kept::KeptComponents;
