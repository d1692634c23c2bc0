//! The factor file, and the tables of the standard formula.
#![tactic(auto)]

mod fault;
mod forms;
mod key;
pub mod laws;
mod read;
mod segments;
mod values;

pub use fault::FactorFault;
pub use key::Key;
pub use read::read_factors;
pub use scr_profile::{
    BSCR, CT, DEFAULT, EQUITY, G, HEALTH, INTEREST_DOWN, INTEREST_UP, LIFE, MARKET_0, MARKET_HALF,
    Matrix, NONLIFE, NSLT, PD, SLT, Set,
};
pub use values::Factors;
