//! What a record exchanges.

use scr_dates::Day;
use scr_sheet::{Bank, BoxedNumbers, Curve, Group, Liability, Name, Position, Rein, Stake};

/// One row of one table, under its name, with the row that takes its place, if one does; or the
/// reference date with the reporting currency; or the other single numbers.
#[derive(Drop)]
pub enum Change {
    /// A security, with what is held of it.
    Security(Name, Option<Position>),
    /// A fund, with what is held of it.
    Fund(Name, Option<Stake>),
    /// A group of counterparties.
    Group(Name, Option<Group>),
    /// A bank that holds cash.
    Bank(Name, Option<Bank>),
    /// A reinsurance arrangement.
    Rein(Name, Option<Rein>),
    /// A liability.
    Liability(Name, Option<Liability>),
    /// The rates of a currency, with what is absorbed of its changes.
    Curve(Name, Option<Curve>),
    /// The reference date and the reporting currency.
    Asof(Day, Name),
    /// The other single numbers.
    Numbers(BoxedNumbers),
}
