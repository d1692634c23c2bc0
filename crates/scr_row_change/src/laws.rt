//! Laws of what records exchange, whatever a program does. Each is a function that does nothing,
//! whose contract is the law.
ghost use Rattle.std.specs.Prelude.{◌≡◌};
ghost use Rattle.scr_sheet.specs.Records.{applied};
ghost use Rattle.scr_sheet.specs.Validity.{Valid};
ghost use Rattle.scr_sheet.specs.declared.edit.Edit.{Edit};
ghost use Rattle.scr_sheet.specs.declared.sheet.BalanceSheet.{BalanceSheet};
ghost use Rattle.scr_row_change.specs.Changes.{after, change_of, IsNamed};

/// A record makes of a valid balance sheet what the one exchange makes of it that the record is; a
/// row that is put in has the name under which it is put in.
pub fn records()
    ensures made { (edit : Edit) (sheet : BalanceSheet) → Valid sheet
        → after (change_of edit sheet) sheet ≡ applied edit sheet }
    ensures named { (edit : Edit) (sheet : BalanceSheet) → IsNamed (change_of edit sheet) }
{}
