//! How far apart the bounds of the figures of a book can be, and how near the alternatives of a
//! choice are that they leave open.
#![tactic(auto)]

pub mod laws;
mod scale;
mod widths;

pub use widths::stated_width;
