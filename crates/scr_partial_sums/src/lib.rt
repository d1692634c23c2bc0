//! A table of figures by id, and partial sums over a member list: blocks of 32 neighbours, stored between the members and their
//! sum. Which list it is, and what the figures mean, is not known here.
#![tactic(auto)]

mod adding;
mod cell;
mod end;
mod figure;
mod figures;
mod kept;
mod writing;

pub use adding::{add_figures, add_members};
pub use cell::Mark;
pub use figure::{Figure, is_nothing};
pub use figures::Figures;
pub use writing::Subtotals;
