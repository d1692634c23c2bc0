//! The board: several workers compute the figures of a round together, on a table of atomic words. The module `laws` has the law of
//! a round: each step of a worker is one event, and every state that a run of events leads to is sound. Nodes are plain numbers.
#![tactic(auto)]

mod board;
mod calls;
mod closing;
mod graph;
pub mod laws;
mod lists;
mod making;
mod places;
mod rule;
mod steps;
mod views;
mod words;
mod worker;

pub use board::{Board, Pass};
pub use graph::Graph;
pub use lists::{Delivery, Held, Progress, Round};
pub use places::Place;
pub use worker::{work, work_one};
