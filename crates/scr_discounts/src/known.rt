//! What is kept of the reference date and of all rates, so that no figure finds it again.

use crate::Curves;
use scr_dates::Years;
use scr_yield_curve::Falls;

/// The falls of a currency's discounts where its rates rise and where they fall (Delegated Regulation (EU) 2015/35, Articles
/// 166 and 167).
#[derive(Drop)]
pub struct CurrencyFalls {
    pub up: Falls,
    pub down: Falls,
}

/// The discounts of all currencies with their falls, and the anniversaries of the reference date.
#[derive(Drop)]
pub struct Rates {
    pub curves: Curves,
    pub years: Years,
    pub falls: Vec<CurrencyFalls>,
}
