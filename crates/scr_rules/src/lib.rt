//! The reckoning of a balance sheet's figures: the rule of each, what each comes to as it is worked out, and the code that
//! evaluates one.
#![tactic(auto)]

mod all_losses;
mod by_weight;
mod default_rules;
mod discounting;
mod evaluation;
mod held;
mod known;
pub mod laws;
mod liability_rows;
mod life_rules;
mod loss_rules;
mod market_rules;
mod nonlife_rules;
mod paid;
mod rules;
mod security_rows;
mod spans;

pub use all_losses::{GroupLosses, group_loss, group_losses};
pub use discounting::{curves, rates, rates_after};
pub use evaluation::{evaluate, evaluate_by, evaluate_with};
pub use liability_rows::{Estimate, liability_estimate, liability_loss};
pub use market_rules::{concentration_scale, concentration_square, foreign_by_sums};
pub use scr_discounts::{CurrencyFalls, Curves, Rates};
pub use scr_nodes::{
    Alternatives, Biometric, Direction, Equities, Measure, Node, OfCurrency, OfFund, OfGroup,
    OfLiability, OfSecurity, Risk, Whole,
};
pub use security_rows::{SecurityLosses, bond_spread, security_losses};
