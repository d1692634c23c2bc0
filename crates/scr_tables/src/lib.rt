//! Names, and tables of rows that each stand under a name of their own.
#![tactic(auto)]

mod earliest;
mod name;
mod past;
mod room;
mod series;
mod table;

pub use name::Name;
pub use past::{Copied, Past};
pub use room::Room;
pub use series::{Names, Series};
pub use table::{Row, Rows};
