//! The cells of the report, and the block that is printed of a book.
#![tactic(auto)]

mod block;
mod bounds;
mod cells;
pub mod laws;
mod lines;
mod printing;
mod table;

pub use block::{cell, print_block, requirement_line};
pub use bounds::{rounded_down, rounded_up};
pub use cells::Cell;
pub use lines::Lines;
pub use printing::close_mark;
pub use table::{CELL_COUNT, cell_name, cell_node};
