//! What a made book and its script are to the balance sheet that they are applied to.
ghost use Rattle.std.specs.Prelude.{◌≤◌, ℕ, length};
ghost use Rattle.scr_made.specs.Made.{book_text, made_book, made_script, script_text};
ghost use Rattle.scr_sheet.specs.BalanceSheet.{opening};
ghost use Rattle.scr_made.specs.Accepted.{AreAccepted, sheet_after};

/// Each record of a made book has no fault on the sheet that the records before it leave, and each
/// record of its script none on what the book and the records before it leave.
pub fn without_fault()
    ensures book { (number : ℕ) → AreAccepted (made_book number) opening }
    ensures script { (number : ℕ) → AreAccepted (made_script number)
        (sheet_after (made_book number) opening) }
{}

/// Both texts are within the 64 MiB of a file.
pub fn within_a_file()
    ensures book { (number : ℕ) → length (book_text number) ≤ 67_108_864 }
    ensures script { (number : ℕ) → length (script_text number) ≤ 67_108_864 }
{
    crate::laws::read_as_made()
}
