//! The life and the health underwriting risk modules of the standard formula.
#![tactic(auto)]

mod health_risks;
pub mod laws;
mod life_risks;
mod uncorrelated;

pub use health_risks::{health, health_cat, health_catastrophe, nslt, slt};
pub use life_risks::{life, loss};
