//! Which figures of a balance sheet a record touches: those whose own data or sources it changes,
//! and those that it makes or takes away.
#![tactic(auto)]

mod candidates;
mod comparisons;
mod component;
mod curves;
mod debts;
mod funds;
mod groups;
mod liabilities;
mod lookups;
mod payments;
mod reference_dates;
mod securities;
mod single_numbers;
mod weighed;

pub use candidates::touched;
