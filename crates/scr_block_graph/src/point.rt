//! Points: the figures and Blocks as nodes of one graph.

use crate::Sum;
use scr_nodes::Node;
use scr_sum_tree::Level;

/// A Block: a partial sum over at most 32 neighbours.
#[derive(Clone, Copy)]
pub struct Block {
    /// The large sum above it.
    pub sum: Sum,
    pub level: Level,
    /// Its index on its level, from 0.
    pub index: u32,
}

/// A figure of the balance sheet, or a Block under a large sum.
#[derive(Clone, Copy)]
pub enum Point {
    Figure(Node),
    Block(Block),
}
