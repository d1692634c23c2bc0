//! Rows of different lengths in one list of items, so that making a row needs no allocation of its own.
#![tactic(auto)]

mod bins;
mod rows;

pub use bins::Bins;
pub use rows::Rows;
