//! A drawing of the requirement: modules and sub-modules as bars, gross and net, with names and amounts, in SVG.
#![tactic(auto)]

mod drawing;
mod elements;
mod rows;

pub use drawing::push_drawing;
