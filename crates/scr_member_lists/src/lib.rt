//! Member lists: the names over which each large sum runs, each at a position. For each row they say which lists hold it.
#![tactic(auto)]

pub mod laws;
mod owners;
mod roster;
mod seating;
mod seats;

pub use owners::Owners;
pub use seating::Seating;
pub use seats::{Bench, NOWHERE, SEATS, Seats};
