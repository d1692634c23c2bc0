//! The book and the script of edits that are generated from a number, and the summary that is printed of them. By the module
//! `acceptance` no record of them is refused, whatever the number.
#![tactic(auto)]

pub mod acceptance;
mod days;
mod draws;
mod funds;
pub mod laws;
mod liabilities;
mod making;
mod market;
mod names;
mod records;
mod securities;
mod summary;
mod volumes;

pub use making::{FUNDS, LIABILITIES, Made, SECURITIES, make};
pub use summary::{push_book_line, push_counts, push_edits_line, push_last_line};
