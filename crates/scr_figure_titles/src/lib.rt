//! What the figures of a balance sheet are called, for those who read them: the row and the words of each, the
//! articles that it is by, its unit, and in words how it comes from its sources.
#![tactic(auto)]

mod articles;
mod naming;
mod step;
mod titles;
mod unit;
mod words;

pub use naming::push_title;
pub use step::Step;
pub use titles::{article, step_of, unit_of};
pub use unit::Unit;
