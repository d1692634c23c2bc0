//! Blocks: how a sum over a long list is made of sums over at most 32 neighbours each, on two levels. The length of a list says
//! which Blocks it has, what each adds up, and what reads it. The crate also says which Blocks change with a member. It does not
//! know what the members are.
#![tactic(auto)]

mod blocks;
mod changes;
pub mod laws;
mod readers;
#[cfg(test)]
mod tests;

pub use blocks::{Level, block_of, blocks_at, is_block, part, parts, places, top_count};
pub use changes::{came, coming, leaving, went};
pub use readers::{Reader, reader_of_block, reader_of_member};
