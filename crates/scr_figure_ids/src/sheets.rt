//! Ids for all rows of a balance sheet.
ghost use Rattle.std.specs.Prelude.{◌≡◌, ◌+◌, IfOk, OnOk};
ghost use Rattle.scr_figure_ids.specs.Numbers.{IsNumbered};
ghost use Rattle.scr_ids.specs.Moves.{IsSameBut};
ghost use Rattle.scr_ids.specs.Ranges.{count};

use scr_ids::{Places, Table};
use scr_sheet::BalanceSheet;
use std::alloc::{AllocError as NoMemory, Global};

/// Room in any book for this many ranges beyond its rows: the whole sheet, and parts of lists.
const PARTS: usize = 256;

/// Ids for all rows, table by table in row order; securities and liabilities, the most numerous, come last. `NoMemory` if they
/// don't fit.
pub fn places_of(alloc: Global, sheet: &BalanceSheet) -> Result<Places, NoMemory>
    ensures { IfOk result (IsNumbered sheet.now) }
{
    let mut places = Places::with_room(alloc, expected(sheet))?;
    fill(&mut places, Table::Fund, sheet.funds.len())?;
    fill(&mut places, Table::Currency, sheet.curves.len())?;
    fill(&mut places, Table::Group, sheet.groups.len())?;
    fill(&mut places, Table::Security, sheet.securities.len())?;
    fill(&mut places, Table::Liability, sheet.liabilities.len())?;
    Ok(places)
}

/// The number of ranges with room at first: one for each row, and for parts of lists an eighth of that and some more.
fn expected(sheet: &BalanceSheet) -> usize {
    let rows = sheet
        .funds
        .len()
        .saturating_add(sheet.curves.len())
        .saturating_add(sheet.groups.len())
        .saturating_add(sheet.securities.len())
        .saturating_add(sheet.liabilities.len());
    rows.saturating_add(rows / 8 + PARTS)
}

/// Appends `rows` rows to a table.
fn fill(places: &mut Places, table: Table, rows: usize) -> Result<(), NoMemory>
    ensures others { IsSameBut table places.old places.new }
    ensures ok { OnOk result (count places.new table ≡ count places.old table + rows) }
{
    for _ in 0..rows {
        places.come(table)?;
    }
    Ok(())
}
