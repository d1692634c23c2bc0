//! The exact figures of a balance sheet, as the articles give them before anything is rounded, and the laws that the worked
//! figures enclose them.
#![tactic(auto)]

pub mod laws;
