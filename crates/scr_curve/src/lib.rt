//! The stresses of a curve of risk-free interest rates and the discounts that it gives, as a caller meets them: handed on from
//! `scr_yield_curve`.
#![tactic(auto)]

pub use scr_yield_curve::{Discounts, Tilt, discounts, stressed};
