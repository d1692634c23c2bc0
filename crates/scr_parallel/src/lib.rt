//! Computation by several workers. The figures of an edit that are due form a round, which the workers compute on a board. The
//! figures of rows are cut into pieces, and each worker draws the next piece until none is left.
#![tactic(auto)]

mod drawing;
mod due_graph;
mod hands;
mod piece_graph;
mod pieces;
mod plan;
mod reckoning;
mod rows;

pub use drawing::reckon_rows;
pub use plan::Plan;
pub use reckoning::spans_by;
pub use rows::{Part, Piece, RowPlan, Sort};
