//! The engine: a book with all its figures.
#![tactic(auto)]

mod added;
mod basis;
mod edits;
mod engine;
mod figures;
mod first;
mod first_links;
mod first_parts;
mod first_totals;
mod graph;
mod groups;
mod journal;
pub mod laws;
mod left;
mod making;
mod opening;
mod order;
mod passes;
mod reckoning;
mod refusal;
mod renewed;
mod row_spans;
mod single;
mod starts;
mod sums;
mod together;
mod tops;

pub use engine::Engine;
pub use refusal::Refusal;
pub use scr_block_graph::{Block, Level, Point, Sum};
