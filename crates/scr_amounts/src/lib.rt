//! Amounts in hundredths of a currency's unit: their bounds, and how one is printed.
#![tactic(auto)]

mod amount;
mod bounds;

pub use amount::push_amount;
pub use bounds::Bounds;
