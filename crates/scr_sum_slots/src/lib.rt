//! Slots for the parts of long lists, and the first ids of members beside the lists. A part is 32 neighbouring members, or 32
//! neighbouring parts of the first level. It keeps its slot while it exists. A list is known here by its number alone.
#![tactic(auto)]

mod filling;
mod firsts;
mod following;
pub mod laws;
mod numbers;
mod part_numbers;
mod parts;
mod slot_lists;

pub use firsts::Firsts;
pub use parts::{Part, Parts};
pub use scr_sum_tree::Level;
