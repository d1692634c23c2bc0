//! Roots over correlated parts, amounts net of absorption, and the choice among scenarios.
#![tactic(auto)]

mod absorbed;
mod choice;
mod correlated;
mod form;
pub mod laws;
mod scenario;

pub use absorbed::net;
pub use choice::pick;
pub use correlated::quad;
pub use scenario::{Picked, Scenario};
