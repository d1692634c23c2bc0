//! What a seat at the board knows, for the proofs alone.

use crate::lists::{Progress, Round};
use std::collections::LinkedList;

/// What a pass has done, the round that it works on and the number of workers; before the first
/// load of the board, the words that the board begins with. No value of it is made.
pub struct View {
    pub progress: Progress,
    pub round: Round,
    pub workers: u64,
    pub opening: LinkedList<u64>,
}
