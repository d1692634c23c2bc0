//! An insurer's balance sheet: its rows and numbers, the records that change it, and what each record makes of it.
#![tactic(auto)]

mod boxed;
mod checks;
mod copies;
mod earlier;
mod edit;
mod fault;
mod fields;
mod keys;
mod kinds;
pub mod laws;
mod numbers;
mod opening;
mod roll;
mod row_names;
mod rows;
mod sheet;
mod users;
mod writes;

pub use boxed::BoxedNumbers;
pub use checks::{check_kinds, check_lists, check_names, check_uses};
pub use earlier::Earlier;
pub use edit::Edit;
pub use fault::{Fault, Quantity, User};
pub use fields::{above, fields_outside, first_of};
pub use keys::{AbsorbKey, CatKey, PROJECTIONS, Projection, Table};
pub use numbers::Numbers;
pub use roll::{
    Roll, has_class, has_flows, has_group, is_closed, is_held_in, is_member, is_of_group,
    is_owed_in, is_paying, is_paying_in, row_name,
};
pub use rows::{
    Bank, Class, Components, Curve, Fund, Group, Liability, LiabilityFlows, LiabilityKind,
    Position, Rates, Rein, Security, Stake,
};
pub use scr_dates::Flows;
pub use scr_profile::{
    GroupKind, MAX_AMOUNT, MAX_COMPONENTS, MAX_CURRENCIES, MAX_DURATION, MAX_EXPOSURES, MAX_FLOWS,
    MAX_FUND_COMPONENTS, MAX_FUNDS, MAX_GROUPS, MAX_HELD, MAX_LIABILITIES, MAX_LIABILITY_FLOWS,
    MAX_PROMISED, MAX_RATE, MAX_RATES, MAX_SECURITIES, MAX_SYM, MAX_TAX, MAX_WEIGHT, MAX_YEARS,
    MIN_RATE, MIN_WEIGHT, OpInput,
};
pub use scr_tables::{Copied, Name, Names, Past, Row, Rows};
pub use sheet::BalanceSheet;
pub use writes::natural;
