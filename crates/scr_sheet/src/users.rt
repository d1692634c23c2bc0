//! What uses a row that a record would drop.
ghost use Rattle.std.specs.Prelude.{◌≡◌};
ghost use Rattle.std.specs.Option.{option_map};
ghost use Rattle.scr_tables.specs.Names.{first_in_order};
ghost use Rattle.scr_sheet.specs.Users.{has_component, holder_of, names_of_group, names_in_currency, absorption_of, user_of};

use crate::{AbsorbKey, BalanceSheet, Name, Stake, Table, User};

/// What uses the row of this name in this table, if there is anything: the reporting currency, then a hold, then an
/// absorption, then the rows in the byte order of their names.
pub(crate) fn user_of(sheet: &BalanceSheet, table: Table, name: &Name) -> Option<User>
    ensures { result ≡ user_of table name.now sheet.now }
{
    match table {
        Table::Group => first_row(first_of_group(sheet, name)),
        Table::Security | Table::Fund => holder_of(sheet, name),
        Table::Curve => user_of_currency(sheet, name),
        Table::Liability | Table::Bank | Table::Rein => None,
    }
}

fn first_row(name: Option<Name>) -> Option<User>
    ensures { result ≡ option_map (λ name. User.Row name) name }
{
    Some(User::Row(name?))
}

// What uses a security or a fund: a hold, and then the first in byte order of the funds that have it as a component.
fn holder_of(sheet: &BalanceSheet, name: &Name) -> Option<User>
    ensures { result ≡ holder_of name.now sheet.now }
{
    if sheet.security_hold(name) != 0 || sheet.fund_hold(name) != 0 {
        return Some(User::Hold);
    }
    first_row(sheet.funds.earliest(None, |s| has_component(name, s)))
}

fn has_component(name: &Name, stake: &Stake) -> bool
    ensures { result ≡ has_component name.now stake.now }
{
    stake
        .fund
        .components
        .as_slice()
        .iter()
        .any(|c| *name == c.0)
}

// The reporting currency, the absorptions of a currency, `down` before `up`, and then the rows in it.
fn user_of_currency(sheet: &BalanceSheet, currency: &Name) -> Option<User>
    ensures { result ≡ user_of (Table.Curve) currency.now sheet.now }
{
    if *currency == sheet.numbers.currency {
        return Some(User::Asof);
    }
    if let Some(user) = absorption_of(sheet, currency) {
        return Some(user);
    }
    first_row(first_in_currency(sheet, currency))
}

fn absorption_of(sheet: &BalanceSheet, currency: &Name) -> Option<User>
    ensures { result ≡ absorption_of currency.now sheet.now }
{
    let curve = sheet.curves.get(currency)?;
    if curve.absorb_down != 0 {
        return Some(User::Absorb(AbsorbKey::CurrencyDown(*currency)));
    }
    if curve.absorb_up != 0 {
        return Some(User::Absorb(AbsorbKey::CurrencyUp(*currency)));
    }
    None
}

// The first in byte order of the securities, banks and reinsurers of a group.
fn first_of_group(sheet: &BalanceSheet, group: &Name) -> Option<Name>
    ensures { result ≡ first_in_order (names_of_group group.now sheet.now) }
{
    let securities = sheet.securities.earliest(None, |p| match p.security.group {
        Some(own) => *group == own,
        None => false,
    });
    let banks = sheet.banks.earliest(securities, |b| *group == b.group);
    sheet.reinsurers.earliest(banks, |r| *group == r.group)
}

// The first in byte order of the securities and liabilities in a currency.
fn first_in_currency(sheet: &BalanceSheet, currency: &Name) -> Option<Name>
    ensures { result ≡ first_in_order (names_in_currency currency.now sheet.now) }
{
    let securities = sheet
        .securities
        .earliest(None, |p| *currency == p.security.currency);
    sheet
        .liabilities
        .earliest(securities, |l| *currency == l.currency)
}
