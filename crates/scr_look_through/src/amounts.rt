//! The totals of all funds and securities.
ghost use Rattle.std.specs.Prelude.{◌≡◌, map, slice_get, Some, false, Contains, IfOk};
ghost use Rattle.scr_tables.specs.Tables.{has_row};
ghost use Rattle.scr_funds.specs.ByNumber.{weighted_rows};
ghost use Rattle.scr_sheet.specs.BalanceSheet.{stake_name, position_name, held_of};
ghost use Rattle.scr_sheet.specs.Totals.{total_of};
ghost use Rattle.scr_sheet.specs.Validity.{Valid, IsHeld};
ghost use Rattle.scr_look_through.specs.ByNumber.{names_by_number, number_of, row_by_number, rows_by_number};

use scr_sheet::{BalanceSheet, Stake};
use scr_tables::Name;
use std::alloc::{AllocError as NoMemory, Global};

/// What is held of each fund and then of each security, directly and through funds, in cents (Article 84 of Delegated
/// Regulation (EU) 2015/35). Only want of memory keeps it back. The cost is in proportion to the funds, the securities and
/// the components.
pub fn totals(alloc: Global, sheet: &BalanceSheet) -> Result<Vec<u64>, NoMemory>
    requires { Valid sheet.now }
    ensures { IfOk result (λ found. found.items ≡ map (total_of sheet.now) (names_by_number sheet.now)) }
{
    let held = held_by_number(alloc, sheet)?;
    let rows = rows(alloc, sheet)?;
    scr_funds::totals(alloc, &held, &rows)
}

/// What is held directly of each fund, and then of each security.
fn held_by_number(alloc: Global, sheet: &BalanceSheet) -> Result<Vec<u64>, NoMemory>
    requires { Valid sheet.now }
    ensures { IfOk result (λ held. held.items ≡ map (held_of sheet.now) (names_by_number sheet.now)) }
{
    let numbers = sheet.funds.len().saturating_add(sheet.securities.len());
    let mut held = Vec::with_capacity(alloc, numbers)?;
    for k in 0..sheet.funds.len() {
        held.push(sheet.funds.at(k).held)?;
    }
    for k in 0..sheet.securities.len() {
        held.push(sheet.securities.at(k).held)?;
    }
    Ok(held)
}

/// The components of each fund by their numbers.
fn rows(alloc: Global, sheet: &BalanceSheet) -> Result<Vec<Vec<(u32, u64)>>, NoMemory>
    requires { Valid sheet.now }
    ensures { IfOk result (λ rows. weighted_rows rows.items ≡ rows_by_number sheet.now) }
{
    let mut rows = Vec::new(alloc);
    for k in 0..sheet.funds.len() {
        rows.push(row(alloc, sheet, sheet.funds.at(k))?)?;
    }
    Ok(rows)
}

/// The components of a fund by their numbers, with their weights.
fn row(alloc: Global, sheet: &BalanceSheet, stake: &Stake) -> Result<Vec<(u32, u64)>, NoMemory>
    requires valid { Valid sheet.now }
    requires listed { Contains sheet.now.funds stake.now }
    ensures { IfOk result (λ row. row.items ≡ row_by_number sheet.now stake.now) }
{
    let mut row = Vec::new(alloc);
    for (name, weight) in stake.fund.components.as_slice() {
        row.push((number(sheet, name), weight.unsigned_abs()))?;
    }
    Ok(row)
}

/// The number of a security or a fund.
fn number(sheet: &BalanceSheet, name: &Name) -> u32
    requires valid { Valid sheet.now }
    requires held { IsHeld sheet.now name.now }
    ensures { result ≡ number_of sheet.now name.now }
{
    let place = match sheet.funds.place(name) {
        Some(k) => k,
        None => sheet.funds.len() + security_place(sheet, name),
    };
    place as u32
}

/// The place of a security.
fn security_place(sheet: &BalanceSheet, name: &Name) -> usize
    requires held { IsHeld sheet.now name.now }
    requires no_fund { has_row stake_name name.now sheet.now.funds ≡ false }
    ensures place { slice_get (map position_name sheet.now.securities) result ≡ Some name.now }
{
    match sheet.securities.place(name) {
        Some(k) => k,
        None => unreachable!(),
    }
}
