//! The discounts of all currencies of a balance sheet and their falls where rates change, kept so that no figure reckons them
//! again.
#![tactic(auto)]

mod discounting;
mod falling;
mod kept;
mod known;

pub use discounting::curves_of;
pub use falling::{rates_after, rates_of};
pub use kept::Curves;
pub use known::{CurrencyFalls, Rates};
