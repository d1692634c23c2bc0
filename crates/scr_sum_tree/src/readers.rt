//! The reader of a member or Block: the Block or whole sum that adds it up.
ghost use Rattle.std.specs.Prelude.{◌≡◌};
ghost use Rattle.scr_sum_tree.specs.Readers as spec;

use crate::blocks::{Level, WIDTH, parts};

/// The reader of a member or Block.
#[derive(Clone, Copy, PartialEq, Eq)]
pub enum Reader {
    /// The whole sum over the list.
    Whole,
    /// The Block of this level and index, from 0.
    Block(Level, usize),
}

/// The reader of the member at `place` of `count`: the whole sum if `count` is at most 32, else the Block that spans it.
pub fn reader_of_member(count: usize, place: usize) -> Reader
    ensures { result ≡ spec.reader_of_member count place }
{
    if count <= WIDTH {
        Reader::Whole
    } else {
        Reader::Block(Level::First, place / WIDTH)
    }
}

/// The reader of a Block of a list of `count` members. So at most two Blocks lie between a member and the whole sum.
pub fn reader_of_block(count: usize, level: Level, index: usize) -> Reader
    ensures { result ≡ spec.reader_of_block count level index }
{
    match level {
        Level::First if parts(count) > WIDTH => Reader::Block(Level::Second, index / WIDTH),
        _ => Reader::Whole,
    }
}
