//! What is due as a round: from which of the others that are due each is reckoned, and which are
//! reckoned from it.
#![tactic(auto)]

pub mod laws;
mod round;

pub use round::{Round, Slot, round_of};
