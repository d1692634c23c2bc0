//! What a run owes: a plan of the files that it reads and of the text that it writes, and laws over
//! all plans.
#![tactic(auto)]

pub mod laws;
