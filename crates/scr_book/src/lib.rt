//! The book: an insurer's balance sheet as it is kept, and the records that change it.
#![tactic(auto)]

mod book;
mod checks;
mod days;
mod due;
pub mod laws;
mod ledger;
mod parts;
mod pasts;
mod puts;
mod ranges;
mod recent;
mod rolls;
mod sums;
mod undo;
mod users;

pub use book::Book;
pub use checks::check;
pub use scr_sheet::{
    AbsorbKey, BalanceSheet, Bank, CatKey, Class, Components, Curve, Edit, Fault, Flows, Fund,
    Group, GroupKind, Liability, LiabilityFlows, LiabilityKind, MAX_AMOUNT, MAX_COMPONENTS,
    MAX_CURRENCIES, MAX_DURATION, MAX_EXPOSURES, MAX_FLOWS, MAX_FUND_COMPONENTS, MAX_FUNDS,
    MAX_GROUPS, MAX_HELD, MAX_LIABILITIES, MAX_LIABILITY_FLOWS, MAX_PROMISED, MAX_RATE, MAX_RATES,
    MAX_SECURITIES, MAX_SYM, MAX_TAX, MAX_WEIGHT, MAX_YEARS, MIN_RATE, MIN_WEIGHT, Name, Names,
    Numbers, OpInput, Position, Projection, Quantity, Rates, Rein, Roll, Security, Stake, Table,
    User,
};
pub use undo::Undo;
