//! The effect of a record on the rows that have ids.
ghost use Rattle.std.specs.Prelude.{◌≡◌, map};
ghost use Rattle.scr_figure_ids.specs.Records.{drop_step, gone_step, made_step, place_in, step_of};

use crate::steps::Step;
use scr_ids::Table;
use scr_sheet::{BalanceSheet, Edit, Name, Row, Rows};

/// The step of the record on the sheet, which accepts it: a row is appended or removed, or each stays.
pub fn step_of(sheet: &BalanceSheet, edit: &Edit) -> Step
    ensures { result ≡ step_of edit.now sheet.now }
{
    match edit {
        Edit::Curve { currency, .. } => made_step(Table::Currency, sheet.curves.contains(currency)),
        Edit::Group { name, .. } => made_step(Table::Group, sheet.groups.contains(name)),
        Edit::Security { name, .. } => made_step(Table::Security, sheet.securities.contains(name)),
        Edit::Fund { name, .. } => made_step(Table::Fund, sheet.funds.contains(name)),
        Edit::Liability { name, .. } => {
            made_step(Table::Liability, sheet.liabilities.contains(name))
        }
        Edit::Remove { table, name } => drop_step(sheet, *table, name),
        _ => Step::Stays,
    }
}

/// The step of making a row: it replaces the row of its name, or is appended.
fn made_step(table: Table, there: bool) -> Step
    ensures { result ≡ made_step table there }
{
    if there {
        Step::Stays
    } else {
        Step::Comes(table)
    }
}

/// The step of removing the row of a name; none for banks and reinsurers, which have no ids.
fn drop_step(sheet: &BalanceSheet, table: scr_sheet::Table, name: &Name) -> Step
    ensures { result ≡ drop_step table name.now sheet.now }
{
    match table {
        scr_sheet::Table::Group => gone_step(Table::Group, place_of(&sheet.groups, name)),
        scr_sheet::Table::Security => gone_step(Table::Security, place_of(&sheet.securities, name)),
        scr_sheet::Table::Fund => gone_step(Table::Fund, place_of(&sheet.funds, name)),
        scr_sheet::Table::Liability => {
            gone_step(Table::Liability, place_of(&sheet.liabilities, name))
        }
        scr_sheet::Table::Curve => gone_step(Table::Currency, place_of(&sheet.curves, name)),
        scr_sheet::Table::Bank | scr_sheet::Table::Rein => Step::Stays,
    }
}

fn gone_step(table: Table, row: Option<usize>) -> Step
    ensures { result ≡ gone_step table row }
{
    match row {
        Some(k) => Step::Goes(table, k),
        None => Step::Stays,
    }
}

/// The index of the row of a name; `None` if there is none.
pub(crate) fn place_of<R: Row>(rows: &Rows<R>, name: &Name) -> Option<usize>
    ensures { result ≡ place_in name.now (map R.name_of rows.now) }
{
    // Brings the invariant into sight: no two rows share a name.
    let _len = rows.len();
    rows.place(name)
}
