//! The Basic Solvency Capital Requirement, operational risk, the adjustments for loss absorption,
//! and the Solvency Capital Requirement.
#![tactic(auto)]

mod adjustments;
mod basic;
mod charges;
pub mod laws;
mod nil;
mod operational_risk;

pub use adjustments::{adj_dt, adj_tp, scr};
pub use basic::{bscr, diversification, known_diversification};
pub use charges::Operational;
pub use operational_risk::{cap, op, operational, prem, prov};
