//! Days of the civil calendar from 1900 to 2200, years from a reference date to a payment, and lists of payments. The anniversaries
//! of a reference date are kept, so that the years to a payment are found without the calendar.
#![tactic(auto)]

mod day;
mod kept_years;
mod payments;
mod term;
mod years;

pub use day::{Day, parse_day};
pub use kept_years::Years;
pub use payments::Flows;
pub use term::Maturity;
pub use years::maturity;
