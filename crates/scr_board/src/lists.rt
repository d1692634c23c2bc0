//! The plain data of a round. No value of these types is made: they stand in proofs alone.

use std::collections::LinkedList;

/// A round as plain lists, by the numbers of its nodes: the sources and the dependants of each
/// node, the nodes without a source, and the four words of each node's figure.
pub struct Round {
    pub sources: LinkedList<LinkedList<u32>>,
    pub dependants: LinkedList<LinkedList<u32>>,
    pub starts: LinkedList<u32>,
    pub words: LinkedList<LinkedList<u64>>,
}

/// A node in a hand, and how many words of its figure are stored.
pub struct Held {
    pub node: u32,
    pub stored: u64,
}

/// A delivery to the dependant at a place of a node's list.
pub struct Delivery {
    pub node: u32,
    pub place: u32,
}

/// What a pass has done: the nodes in its hand, those that it put, the deliveries that it made, its
/// share of all workers, and whether it saw the ticket at its end.
pub struct Progress {
    pub hand: LinkedList<Held>,
    pub put: LinkedList<u32>,
    pub delivered: LinkedList<Delivery>,
    pub share: u64,
    pub marked: bool,
}
