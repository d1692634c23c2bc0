//! Laws of the cells, whatever a program does. Each is a function that does nothing, whose contract
//! is the law.
ghost use Rattle.std.specs.Prelude.{◌≡◌, true, length};
ghost use Rattle.std.specs.List.{AllByRecursion};
ghost use Rattle.scr_factors.specs.Values.{FactorValues, IsInForm};
ghost use Rattle.scr_sheet.specs.declared.sheet.BalanceSheet.{BalanceSheet};
ghost use Rattle.scr_sheet.specs.Validity.{Valid};
ghost use Rattle.scr_nodes.specs.Live.{is_live};
ghost use Rattle.scr_exact.specs.Exact.{unit_of};
ghost use Rattle.scr_cells.specs.Certified.{Certified, IsBounded};
ghost use Rattle.scr_cells.specs.Table.{market_cells, table};
ghost use Rattle.scr_cells.specs.declared.table.TheConstants.{CELL_COUNT};

/// The table has so many cells. The figure of each is one of every balance sheet, and it is in
/// grains, thousandths of a cent.
pub fn figures()
    ensures count { length table ≡ CELL_COUNT }
    ensures live { (sheet : BalanceSheet)
        → AllByRecursion (λ cell. is_live sheet cell.node ≡ true) table }
    ensures grains { AllByRecursion (λ cell. unit_of cell.node ≡ 1000) table }
{}

/// For factors in form and every valid balance sheet the printed bounds of each cell enclose its
/// exact figure, and those of market risk do so whatever the factors.
pub fn enclosure()
    ensures certified { (factors : FactorValues) → IsInForm factors → (sheet : BalanceSheet)
        → Valid sheet → Certified factors sheet }
    ensures market { (factors : FactorValues) (sheet : BalanceSheet) → Valid sheet
        → AllByRecursion (λ cell. IsBounded factors sheet cell.node) market_cells }
{}
