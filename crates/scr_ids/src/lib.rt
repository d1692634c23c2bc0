//! Ids for the rows of tables. Each row has a range of ids, as long as its table asks. It keeps the range while it exists,
//! wherever it moves in its table. What a row is, and what each id of a range stands for, is not known here.
#![tactic(auto)]

pub mod laws;
mod places;
mod roll;
mod table;

pub use places::{Place, Places};
pub use table::Table;
