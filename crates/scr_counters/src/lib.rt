//! Counts that are kept beside tables, so that a record costs some look-ups.
#![tactic(auto)]

mod blocks;
mod counts;
mod days;
pub mod laws;
mod names;

pub use days::DayTally;
pub use names::NameTally;
