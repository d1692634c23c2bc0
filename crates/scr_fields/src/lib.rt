//! How numbers, days, names, keys and the words of closed lists are spelled in a field.
#![tactic(auto)]

mod dates;
pub mod forms;
mod keys;
pub mod laws;
mod numbers;
mod words;

pub use dates::push_day;
pub use keys::push_absorb_key;
pub use numbers::{leading_number, push_number, read_number};
pub use words::{Word, class, value};
