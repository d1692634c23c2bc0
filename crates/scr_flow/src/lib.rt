//! Payments by maturity, and what they are worth now: their present value, and what they lose where interest rates
//! change.
#![tactic(auto)]

mod due;
mod falls;
pub mod laws;
mod loss;
mod value;
mod walk;

pub use due::{bucket, bucket_by};
pub use falls::fallen;
pub use loss::{curve_loss, per_million, unit_loss};
pub use value::present;
pub use walk::both_losses;
