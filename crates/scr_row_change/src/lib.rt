//! What a record exchanges: one row of one table, or single numbers; and what the row before and
//! the row after tell to those who read it.
#![tactic(auto)]

mod change;
mod changes;
pub mod comparisons;
pub mod debts;
pub mod laws;
pub mod readings;

pub use change::Change;
pub use changes::change_of;
