//! An index of the member lists: first ids of the members beside each list, and a slot for each part of it. It is built once, and
//! then follows each record and its undo.
#![tactic(auto)]

mod following;
pub mod laws;
mod lists;
mod making;
mod naming;
mod parting;
mod standing;

pub use lists::Lists;
pub use making::lists_of;
pub use naming::list_of;
pub use standing::{Move, Stood, move_of, stood_of};
