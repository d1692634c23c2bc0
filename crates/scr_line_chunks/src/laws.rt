//! What the records of passages are.
ghost use Rattle.std.specs.Prelude.{◌≡◌, ◌+◌, ◌++◌, ℕ, List};
ghost use Rattle.scr_csv.specs.Lines.{records};
ghost use Rattle.scr_line_chunks.specs.Passages.{IsWhole, ended_lines, records_behind};

/// The records of a file are those of its passages, one after another, whose lines are numbered on.
/// A byte order mark stands in the first.
pub fn records_in_passages()
    ensures all { (bytes : List ℕ) → records_behind 0 bytes ≡ records bytes }
    ensures passages { (passed : ℕ) (passage rest : List ℕ) → IsWhole passage
        → records_behind passed (passage ++ rest) ≡ records_behind passed passage
        ++ records_behind (passed + ended_lines passage) rest }
{}
