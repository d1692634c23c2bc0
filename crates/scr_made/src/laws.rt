//! What the made texts say when they are read.
ghost use Rattle.std.specs.Prelude.{◌≡◌, ℕ, map, Ok};
ghost use Rattle.std.specs.List.{AllByRecursion, enumerate_from};
ghost use Rattle.scr_sheet.specs.Forms.{Formed};
ghost use Rattle.scr_csv.specs.Lines.{records};
ghost use Rattle.scr_csv.specs.RecordTexts.{edit_text};
ghost use Rattle.scr_made.specs.Made.{made_book, made_script, book_text, script_text};
ghost use Rattle.scr_made.specs.ReadBack.{edits_read};

/// Each made record has its form and stands on a line of its own, from line 1 on, and the texts
/// are read as the records that were made.
pub fn read_as_made()
    ensures book_formed { (number : ℕ) → AllByRecursion Formed (made_book number) }
    ensures script_formed { (number : ℕ) → AllByRecursion Formed (made_script number) }
    ensures book_lines { (number : ℕ) → records (book_text number)
        ≡ enumerate_from 1 (map edit_text (made_book number)) }
    ensures script_lines { (number : ℕ) → records (script_text number)
        ≡ enumerate_from 1 (map edit_text (made_script number)) }
    ensures book_read { (number : ℕ) → edits_read (book_text number) ≡ map Ok (made_book number) }
    ensures script_read { (number : ℕ) → edits_read (script_text number)
        ≡ map Ok (made_script number) }
{}
