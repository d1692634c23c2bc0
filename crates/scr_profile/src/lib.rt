//! The profile of the standard formula: its tables, the limits of a book, and the closed words that
//! several crates share.
#![tactic(auto)]

mod correlations;
mod default_class;
mod group_kind;
pub mod laws;
mod limits;
mod matrix;
mod operational;
mod segment;
mod set;
mod tables;

pub use correlations::{
    BSCR, DEFAULT, EQUITY, HEALTH, LIFE, MARKET_0, MARKET_HALF, NONLIFE, NSLT, SLT,
};
pub use default_class::DefaultClass;
pub use group_kind::GroupKind;
pub use limits::{
    MAX_AMOUNT, MAX_COMPONENTS, MAX_CURRENCIES, MAX_DURATION, MAX_EXPOSURES, MAX_FLOWS,
    MAX_FUND_COMPONENTS, MAX_FUNDS, MAX_GROUPS, MAX_HELD, MAX_LIABILITIES, MAX_LIABILITY_FLOWS,
    MAX_PROMISED, MAX_RATE, MAX_RATES, MAX_SECURITIES, MAX_SYM, MAX_TAX, MAX_WEIGHT, MAX_YEARS,
    MIN_RATE, MIN_WEIGHT,
};
pub use matrix::Matrix;
pub use operational::OpInput;
pub use segment::Segment;
pub use set::Set;
pub use tables::{CT, G, INTEREST_DOWN, INTEREST_UP, PD};
