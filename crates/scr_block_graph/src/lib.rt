//! The large sums and the Blocks under them. The crate gives the members of each sum, the Blocks between them and the sum's
//! reader, and the sources of every point. The figures of a balance sheet stay as they were; a Block is none of them.
#![tactic(auto)]

mod graph;
mod later;
pub mod laws;
mod levels;
pub mod numbers;
mod point;
mod sum;
mod touched;
mod turns;

pub use graph::{is_live_in, source, sums_of};
pub use levels::block_level;
pub use numbers::{block_number, sum_at, sum_place};
pub use point::{Block, Point};
pub use scr_sum_tree::Level;
pub use sum::{Sum, first_sum, second_sum};
pub use touched::touched_in;
