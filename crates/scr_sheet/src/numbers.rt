//! The numbers of a balance sheet that stand in no row.

use crate::Name;
use scr_dates::Day;

/// The single numbers, the reference date and the reporting currency. Amounts are in cents, `sym` and `tax` in
/// millionths.
#[derive(Clone, Copy)]
pub struct Numbers {
    pub asof: Day,
    pub currency: Name,
    /// By absorption key, without those of the currencies.
    pub absorb: [u64; 25],
    /// The premium and the reserve volume of each segment of non-life in each region.
    pub nl: [[(u64, u64); 18]; 12],
    /// The same of health that is not similar to life.
    pub nslt: [[(u64, u64); 18]; 4],
    /// The catastrophe charges of non-life.
    pub cat: [u64; 13],
    /// The catastrophe charges of health: mass accident, accident concentration, pandemic.
    pub health_cat: [u64; 3],
    /// The lapse charges of non-life and of health that is not similar to life.
    pub lapse: [u64; 2],
    /// Type 2 exposures: due for more than three months, and others (Article 202).
    pub due: [u64; 2],
    /// Technical provisions: life, unit-linked life, non-life (Article 204).
    pub provisions: [i64; 3],
    /// Earned premiums (Article 204): life, unit-linked, the same of the year before, non-life, the same of the year
    /// before, and last the expenses of unit-linked business.
    pub earned: [u64; 7],
    /// The symmetric adjustment (Article 172).
    pub sym: i32,
    /// The rate of the adjustment for deferred taxes (Article 207), and its cap.
    pub tax: u32,
    pub cap: u64,
    /// Future discretionary benefits (Article 206).
    pub fdb: u64,
    /// The value of intangible assets (Article 203).
    pub intangible: u64,
}
