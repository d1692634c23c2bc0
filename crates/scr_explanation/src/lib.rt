//! The account of a figure: its bounds and how it comes about, and under it those of its sources, of their sources and so
//! on, in words and amounts that a person reads.
#![tactic(auto)]

mod account;
mod bounds;
mod figure;
mod moves;
mod shown;
mod taken;
mod texts;

pub use account::{Extent, push_account};
pub use moves::{CellBounds, cell_bounds, push_moves};
