//! The balance sheet after a record, read from the one before and the record's change, without a copy: rows by name, members, and
//! readers of sums.
ghost use Rattle.std.specs.Prelude.{◌≡◌, if◌then◌else◌};
ghost use Rattle.std.specs.Option.{option_copied};
ghost use Rattle.scr_tables.specs.Names.{same_name};
ghost use Rattle.scr_tables.specs.Tables.{row_of};
ghost use Rattle.scr_sheet.specs.BalanceSheet.{curve_name, group_name, liability_name, position_of, stake_of};
ghost use Rattle.scr_sheet.specs.Members.{has_liability, has_security, is_member};
ghost use Rattle.scr_sheet.specs.Validity.{Valid};
ghost use Rattle.scr_row_change.specs.Changes.{IsNamed, after};
ghost use Rattle.scr_block_graph.specs.Graph.{reads};
ghost use Rattle.scr_block_graph.specs.Sums.{roll_of};

use crate::Sum;
use scr_nodes::live::has_stress;
use scr_nodes::rows::is_stressed;
use scr_row_change::Change;
use scr_sheet::{
    BalanceSheet, Class, Curve, Group, Liability, Name, Position, Row, Rows, Stake, Table,
    has_class, has_group, is_closed, is_held_in, is_of_group, is_owed_in, is_paying_in,
};

/// The row of a name, after the row of `own` was replaced by `new` or removed.
fn row_after<'a, R: Row>(
    rows: &'a Rows<R>,
    own: &Name,
    new: &'a Option<R>,
    name: &Name,
) -> Option<&'a R>
    ensures { option_copied result ≡ (if same_name name.now own.now then new.now else row_of R.name_of name.now rows.now) }
{
    if name == own {
        new.as_ref()
    } else {
        rows.get(name)
    }
}

fn position_after<'a>(
    sheet: &'a BalanceSheet,
    change: &'a Change,
    name: &Name,
) -> Option<&'a Position>
    requires valid { Valid sheet.now }
    requires named { IsNamed change.now }
    ensures { option_copied result ≡ position_of name.now (after change.now sheet.now).securities }
{
    match change {
        Change::Security(own, new) => row_after(&sheet.securities, own, new, name),
        _ => sheet.securities.get(name),
    }
}

fn stake_after<'a>(sheet: &'a BalanceSheet, change: &'a Change, name: &Name) -> Option<&'a Stake>
    requires valid { Valid sheet.now }
    requires named { IsNamed change.now }
    ensures { option_copied result ≡ stake_of name.now (after change.now sheet.now).funds }
{
    match change {
        Change::Fund(own, new) => row_after(&sheet.funds, own, new, name),
        _ => sheet.funds.get(name),
    }
}

fn liability_after<'a>(
    sheet: &'a BalanceSheet,
    change: &'a Change,
    name: &Name,
) -> Option<&'a Liability>
    requires valid { Valid sheet.now }
    requires named { IsNamed change.now }
    ensures { option_copied result ≡ row_of liability_name name.now (after change.now sheet.now).liabilities }
{
    match change {
        Change::Liability(own, new) => row_after(&sheet.liabilities, own, new, name),
        _ => sheet.liabilities.get(name),
    }
}

fn group_after<'a>(sheet: &'a BalanceSheet, change: &'a Change, name: &Name) -> Option<&'a Group>
    requires valid { Valid sheet.now }
    requires named { IsNamed change.now }
    ensures { option_copied result ≡ row_of group_name name.now (after change.now sheet.now).groups }
{
    match change {
        Change::Group(own, new) => row_after(&sheet.groups, own, new, name),
        _ => sheet.groups.get(name),
    }
}

fn curve_after<'a>(
    sheet: &'a BalanceSheet,
    change: &'a Change,
    currency: &Name,
) -> Option<&'a Curve>
    requires valid { Valid sheet.now }
    requires named { IsNamed change.now }
    ensures { option_copied result ≡ row_of curve_name currency.now (after change.now sheet.now).curves }
{
    match change {
        Change::Curve(own, new) => row_after(&sheet.curves, own, new, currency),
        _ => sheet.curves.get(currency),
    }
}

fn reporting_after<'a>(sheet: &'a BalanceSheet, change: &'a Change) -> &'a Name
    ensures { result.now ≡ (after change.now sheet.now).numbers.currency }
{
    match change {
        Change::Asof(_, currency) => currency,
        _ => &sheet.numbers.currency,
    }
}

/// Whether the security is a member of the sum.
fn takes_security(sum: &Sum, position: &Position) -> bool
    ensures { result ≡ has_security (roll_of sum.now) position.now }
{
    match sum {
        Sum::Class(class) => has_class(*class, position),
        Sum::Spreads => has_class(Class::Bond, position),
        Sum::Grouped => has_group(position),
        Sum::Group(name) => is_of_group(name, position),
        Sum::Assets(currency) => is_held_in(currency, position),
        Sum::Rates(currency, _) => is_paying_in(currency, position),
        _ => false,
    }
}

/// Whether the liability is a member of the sum.
fn takes_liability(sum: &Sum, liability: &Liability) -> bool
    ensures { result ≡ has_liability (roll_of sum.now) liability.now }
{
    match sum {
        Sum::Costs(currency, _) | Sum::Presents(currency) => is_owed_in(currency, liability),
        Sum::Losses(biometric, projection) => is_stressed(*biometric, *projection, liability),
        _ => false,
    }
}

/// Whether the row of a name is a member of the sum's list after the change.
pub(crate) fn is_member_after(sheet: &BalanceSheet, change: &Change, sum: &Sum, name: &Name) -> bool
    requires valid { Valid sheet.now }
    requires named { IsNamed change.now }
    ensures { result ≡ is_member (roll_of sum.now) name.now (after change.now sheet.now) }
{
    match sum.roll().table() {
        Table::Security => match position_after(sheet, change, name) {
            Some(position) => takes_security(sum, position),
            None => false,
        },
        Table::Fund => match stake_after(sheet, change, name) {
            Some(stake) => is_closed(stake),
            None => false,
        },
        Table::Liability => match liability_after(sheet, change, name) {
            Some(liability) => takes_liability(sum, liability),
            None => false,
        },
        Table::Group => group_after(sheet, change, name).is_some(),
        Table::Bank | Table::Rein | Table::Curve => false,
    }
}

/// Whether a figure that is computed from the sum exists after the change.
pub(crate) fn reads_after(sheet: &BalanceSheet, change: &Change, sum: &Sum) -> bool
    requires valid { Valid sheet.now }
    requires named { IsNamed change.now }
    ensures { result ≡ reads (after change.now sheet.now) sum.now }
{
    match sum {
        Sum::Group(name) => group_after(sheet, change, name).is_some(),
        Sum::Rates(currency, _) | Sum::Costs(currency, _) => {
            curve_after(sheet, change, currency).is_some()
        }
        Sum::Assets(currency) | Sum::Presents(currency) => {
            match curve_after(sheet, change, currency) {
                Some(curve) => *reporting_after(sheet, change) != curve.currency,
                None => false,
            }
        }
        Sum::Losses(biometric, projection) => has_stress(*biometric, *projection),
        Sum::Class(_) | Sum::Closed | Sum::Spreads | Sum::Grouped | Sum::Squares => true,
    }
}
