//! The plan of computation of a book: the figures of its balance sheet and the blocks under its large sums. It gives the sources
//! and the rule of each, and the nodes that a record touches. The module `laws` says which nodes a record reaches: the figures that
//! it reaches in the balance sheet's graph, and the Blocks over a figure or list that changes.
#![tactic(auto)]

mod evaluation;
pub mod laws;
mod one_source;
mod touching;

pub use evaluation::evaluate;
pub use one_source::source;
pub use scr_discounts::{
    // With its calls `new` and `push`.
    Curves,
};
pub use scr_block_graph::{Block, Level, Point as Node, Sum};
pub use scr_nodes::{
    Alternatives, Biometric, Direction, Equities, Measure, Node as Figure, OfCurrency, OfFund,
    OfGroup, OfLiability, OfSecurity, Risk, Whole,
};
pub use scr_rules::curves;
pub use touching::touched;
