//! What the verbs come to, and what a fault in a field means.
ghost use Rattle.std.specs.Prelude.{◌≡◌, ◌↔◌, ℕ, List, Some, None, Ok, Err, true};
ghost use Rattle.std.specs.List.{list_all};
ghost use Rattle.scr_sheet.specs.declared.edit.Edit.{Edit};
ghost use Rattle.scr_sheet.specs.declared.sheet.BalanceSheet.{BalanceSheet};
ghost use Rattle.scr_sheet.specs.Faults.{fault_of, list_fault};
ghost use Rattle.scr_sheet.specs.Forms.{Formed};
ghost use Rattle.scr_fields.specs.Words.{value_of};
ghost use Rattle.scr_csv.specs.RecordTexts.{edit_text};
ghost use Rattle.scr_csv.specs.Kept.{kept};
ghost use Rattle.scr_csv.specs.LineFields.{line_fields, is_printed};
ghost use Rattle.scr_csv.specs.Records.{edit_of_line};
ghost use Rattle.scr_csv.specs.Refusals.{IsAtFault};
ghost use Rattle.scr_csv.specs.Verbs.{verb_word, all_verbs};
ghost use Rattle.scr_csv.specs.declared.fault.LineFault.TheVariants.{Syntax};
ghost use Rattle.scr_csv.specs.declared.verb.Verb.{Verb};

/// The word of each verb is read as that verb, so none is left out and no two share a word.
pub fn verbs()
    ensures { (verb : Verb) → value_of verb_word all_verbs (verb_word verb) ≡ Some verb }
{}

/// A line of bytes from a blank to `~` is refused for a field where that field is at fault, and
/// nowhere else. The fields before it begin a record, so each has its form; it is missing, or no
/// record begins with them and it. So a line is refused for one field at most.
pub fn faults_of_fields()
    ensures { (text : List ℕ) (k : ℕ) → list_all is_printed text ≡ true
        → (edit_of_line text ≡ Err (Syntax k)) ↔ IsAtFault k (line_fields text) }
{}

/// A record that is written is read as the same record.
pub fn written_records()
    ensures { (edit : Edit) → Formed edit → edit_of_line (edit_text edit) ≡ Ok edit }
{}

/// A record of which a list is cut behind the first member that is one too many has the same first fault as the whole record, on
/// every balance sheet; and a record whose list has no fault is not cut.
pub fn kept_records()
    ensures faults { (edit : Edit) (sheet : BalanceSheet) → fault_of (kept edit) sheet ≡ fault_of edit sheet }
    ensures whole { (edit : Edit) → list_fault edit ≡ None → kept edit ≡ edit }
{}
