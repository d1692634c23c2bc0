//! The figures of a balance sheet as the nodes of a graph: which there are, what each reads of the
//! sheet itself, and from which other figures it is reckoned, one by one or as a list. How it is
//! reckoned is no matter of this crate, nor are numbers of figures (`scr_figure_ids`).
#![tactic(auto)]

pub mod laws;
mod lists;
pub mod live;
mod node;
mod nth;
mod nth_words;
mod one_source;
pub mod rows;
pub mod selections;
pub mod single_numbers;
mod table;
pub mod words;

pub use lists::{push_selected, sources};
pub use live::is_live;
pub use node::{
    Adjustment, Alternatives, Biometric, Direction, Equities, Measure, Node, OfCurrency, OfFund,
    OfGroup, OfLiability, OfSecurity, Operational, Risk, Whole,
};
pub use nth::Nth;
pub use nth_words::nth_word;
pub use one_source::source;
pub use table::{first_of, second_of};
