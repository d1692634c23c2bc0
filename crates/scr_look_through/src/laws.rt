//! What the totals come to, whatever a program does.
ghost use Rattle.std.specs.Prelude.{◌≡◌, ◌+◌, ◌≤◌, sum};
ghost use Rattle.scr_sheet.specs.BalanceSheet.{held_total};
ghost use Rattle.scr_sheet.specs.declared.sheet.BalanceSheet.{BalanceSheet};
ghost use Rattle.scr_sheet.specs.Totals.{closed_total};
ghost use Rattle.scr_sheet.specs.Validity.{Valid};
ghost use Rattle.scr_profile.specs.declared.limits.TheConstants.{MAX_HELD};
ghost use Rattle.scr_look_through.specs.Amounts.{amounts_of};

/// No cent is lost, and none is counted twice: the totals of the securities and of the closed funds are all that is held
/// directly.
pub fn all_seen()
    ensures whole { (sheet : BalanceSheet) → Valid sheet
        → sum (amounts_of sheet) + closed_total sheet ≡ held_total sheet }
    ensures within { (sheet : BalanceSheet) → Valid sheet → sum (amounts_of sheet) + closed_total sheet ≤ MAX_HELD }
{}
