//! The places of a node.

use scr_num::Span;

/// From what a node's rule takes one of its inputs: a figure that is known, or a node of the round.
#[derive(Clone, Copy)]
pub enum Place {
    Fixed(Span),
    Node(u32),
}
