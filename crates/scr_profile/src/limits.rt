//! The limits of a book (this project's own). Amounts are in cents.

/// The least rate of a curve, in millionths.
pub const MIN_RATE: i64 = -10_000;

/// The greatest rate of a curve, in millionths.
pub const MAX_RATE: i64 = 200_000;

/// The most rates of a curve.
pub const MAX_RATES: u32 = 100;

/// The greatest modified duration, in thousandths of a year.
pub const MAX_DURATION: i64 = 100_000;

/// The most payments of a security, or of a liability under one projection.
pub const MAX_FLOWS: u32 = 1_200;

/// The most that a security promises, per 1,000,000 of its value.
pub const MAX_PROMISED: u64 = 5_000_000;

/// The greatest handed-in charge or amount, the greatest sum of a set's volumes, and the greatest
/// sum of the exposures of banks and reinsurers.
pub const MAX_AMOUNT: u64 = 10_000_000_000_000;

/// The greatest symmetric adjustment, up or down, in millionths.
pub const MAX_SYM: i64 = 100_000;

/// The greatest rate of tax, in millionths.
pub const MAX_TAX: i64 = 1_000_000;

/// The most cents that are held directly, all securities together.
pub const MAX_HELD: u64 = 50_000_000_000_000;

/// The most cents that all liabilities pay or receive under one projection.
pub const MAX_LIABILITY_FLOWS: u64 = 50_000_000_000_000;

/// The most years from the reference date to a payment.
pub const MAX_YEARS: u32 = 100;

/// The most currencies.
pub const MAX_CURRENCIES: u32 = 32;

/// The most securities.
pub const MAX_SECURITIES: u32 = 20_000;

/// The most funds.
pub const MAX_FUNDS: u32 = 2_000;

/// The most components of all funds together.
pub const MAX_COMPONENTS: u32 = 100_000;

/// The most components of one fund.
pub const MAX_FUND_COMPONENTS: u32 = 1_000;

/// The least weight of a component.
pub const MIN_WEIGHT: i64 = 1;

/// The greatest weight of a component.
pub const MAX_WEIGHT: i64 = 1_000_000_000;

/// The most liabilities.
pub const MAX_LIABILITIES: u32 = 2_000;

/// The most groups.
pub const MAX_GROUPS: u32 = 10_000;

/// The most banks and reinsurers together.
pub const MAX_EXPOSURES: u32 = 10_000;
