//! Reachability along edges between numbers: the numbers that a change reaches, and the ranks in which they can be computed. Which
//! figures have these numbers, and how each is computed, is not known here.
#![tactic(auto)]

mod climbs;
pub mod laws;
mod linking;
mod marks;
mod ranks;
mod relinking;

pub use climbs::mark_reached;
pub use linking::{link, linked_sources};
pub use marks::Marked;
pub use ranks::{Due, by_rank, put};
pub use relinking::relink;
