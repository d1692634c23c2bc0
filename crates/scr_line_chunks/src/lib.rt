//! A file as passages of whole lines, each of which can be given back once it was read.
#![tactic(auto)]

mod filling;
pub mod laws;
mod lines;
mod passages;
mod reading;

pub use lines::{lines_behind, passed_behind};
pub use passages::Passages;
pub use reading::read_passages;
