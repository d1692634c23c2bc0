//! Risk-free interest rates by maturity under the stresses of the interest rate sub-module, the discounts that they give,
//! and the falls of these.
#![tactic(auto)]

mod discount;
mod falls;
pub mod laws;
mod rate;
mod table;
mod tilt;

pub use discount::discounts;
pub use falls::{Falls, fall_of};
pub use rate::{stressed, yearly, yearly_at};
pub use table::{Discounts, MAX_DISCOUNT};
pub use tilt::Tilt;
