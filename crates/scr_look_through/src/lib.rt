//! What is held of every fund and security, directly and through funds, in one pass over the funds.
#![tactic(auto)]

mod amounts;
pub mod laws;

pub use amounts::totals;
