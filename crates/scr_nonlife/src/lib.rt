//! The non-life underwriting risk module of the standard formula, and the premium and reserve risk
//! of health that is not similar to life.
#![tactic(auto)]

mod catastrophes;
pub mod laws;
mod module;
mod segments;
mod volumes;

pub use catastrophes::{NlCat, cat, cat_all, manmade, nat};
pub use module::{nonlife, premium_reserve};
pub use segments::{diversification, segment};
