//! What the definitions of the report come to, whatever a program does.
ghost use Rattle.std.specs.Prelude.{◌≡◌, ◌⊎◌, ℕ, List, Ok, Err, length};
ghost use Rattle.std.specs.List.{AllByRecursion};
ghost use Rattle.scr_csv.specs.Lines.{records};
ghost use Rattle.scr_factors.specs.Values.{FactorValues, IsInForm};
ghost use Rattle.scr_sheet.specs.declared.sheet.BalanceSheet.{BalanceSheet};
ghost use Rattle.scr_sheet.specs.Validity.{Valid};
ghost use Rattle.scr_cells.specs.Block.{block_text, requirement_line};
ghost use Rattle.scr_cells.specs.Certified.{Certified, IsBounded};
ghost use Rattle.scr_cells.specs.Table.{market_cells};
ghost use Rattle.scr_io.specs.Content.{Content, Holds};
ghost use Rattle.scr_obligations.specs.Outcome.{Calls, outcome};
ghost use Rattle.scr_obligations.specs.Outcome.Outcome.{Ends, Tells};
ghost use Rattle.scr_obligations.specs.Plan.Plan.{Tell};
ghost use Rattle.scr_run.specs.BookFile.{sheet_of};
ghost use Rattle.scr_run.specs.Plans.{Names, book_plan, ended_status, made_plan, report_plan};
ghost use Rattle.scr_run.specs.Readings.{book_in, edits_in, factors_in};
ghost use Rattle.scr_run.specs.Report.{answers, any_refused, printed, report_text};
ghost use Rattle.scr_made.specs.Made.{made_book, script_text};
ghost use Rattle.scr_sheet.specs.BalanceSheet.{opening};
ghost use Rattle.scr_made.specs.Accepted.{sheet_after};
ghost use Rattle.scr_run.specs.Summary.{accepted, summary_text};
ghost use Rattle.scr_run.specs.declared.status.Status.{Status};
ghost use Rattle.scr_run.specs.declared.status.Status.TheVariants as statuses;

/// Every balance sheet from which a block is printed is valid: that of a book file, and what each
/// accepted record of its edits leaves. The values of every factor file that is read are in form.
/// So the printed bounds of each cell of the report enclose its exact figure and are no further
/// apart than its stated width, unless it is close, whatever of the report was written; those of
/// market risk enclose it whatever the values.
pub fn enclosure()
    ensures valid { (book edits : List ℕ) (sheet : BalanceSheet) → sheet_of book ≡ Ok sheet
        → AllByRecursion Valid (printed sheet (answers (records edits) sheet)) }
    ensures in_form { (factors : List ℕ) (values : FactorValues) → factors_in factors ≡ Ok values
        → IsInForm values }
    ensures printed { (values : FactorValues) (book edits : List ℕ) (sheet : BalanceSheet)
        → IsInForm values → sheet_of book ≡ Ok sheet
        → AllByRecursion (Certified values) (printed sheet (answers (records edits) sheet)) }
    ensures certified { (values : FactorValues) (sheet : BalanceSheet) → IsInForm values
        → Valid sheet → Certified values sheet }
    ensures market { (values : FactorValues) (sheet : BalanceSheet) → Valid sheet
        → AllByRecursion (λ cell. IsBounded values sheet cell.node) market_cells }
{}

/// Where the plan of the words leads by the contents of the files: the first file that ends the run
/// decides, and where none does, the report is written.
pub fn outcomes()
    ensures report { (names : Names) (content : List ℕ → Content) (factors book edits : List ℕ)
        (values : FactorValues) (sheet : BalanceSheet) (script : List ℕ)
        → content names.factors ≡ Holds factors → factors_in factors ≡ Ok values
        → content names.book ≡ Holds book → book_in book ≡ Ok sheet
        → content names.edits ≡ Holds edits → edits_in edits ≡ Ok script
        → outcome (report_plan names) content ≡ Tells
        (ended_status (any_refused (answers (records script) sheet)))
        (report_text (block_text values) script sheet) }
    ensures factors { (names : Names) (content : List ℕ → Content) (factors : List ℕ) (due : Status)
        → content names.factors ≡ Holds factors → factors_in factors ≡ Err due
        → outcome (report_plan names) content ≡ Ends due }
    ensures book { (names : Names) (content : List ℕ → Content) (factors book : List ℕ)
        (values : FactorValues) (due : Status)
        → content names.factors ≡ Holds factors → factors_in factors ≡ Ok values
        → content names.book ≡ Holds book → book_in book ≡ Err due
        → outcome (report_plan names) content ≡ Ends due }
    ensures edits { (names : Names) (content : List ℕ → Content) (factors book edits : List ℕ)
        (values : FactorValues) (sheet : BalanceSheet) (due : Status)
        → content names.factors ≡ Holds factors → factors_in factors ≡ Ok values
        → content names.book ≡ Holds book → book_in book ≡ Ok sheet
        → content names.edits ≡ Holds edits → edits_in edits ≡ Err due
        → outcome (report_plan names) content ≡ Ends due }
{}

/// Where the plan of a made book leads: once the factor file has no fault, the summary is written and
/// the run is done, since no record of the book or of its script is refused and both texts are within
/// the limit of a file. So each status that is called for is `Done`, or one that a factor file calls
/// for, and the counts of the summary are 20 of 20.
pub fn made_outcomes()
    ensures plan { (number : ℕ) (values : FactorValues) → book_plan number values ≡ Tell statuses.Done
        (summary_text (requirement_line values) number (script_text number)
        (sheet_after (made_book number) opening)) }
    ensures summary { (name : List ℕ) (number : ℕ) (content : List ℕ → Content) (factors : List ℕ)
        (values : FactorValues)
        → content name ≡ Holds factors → factors_in factors ≡ Ok values
        → outcome (made_plan name number) content ≡ Tells statuses.Done
        (summary_text (requirement_line values) number (script_text number)
        (sheet_after (made_book number) opening)) }
    ensures factors { (name : List ℕ) (number : ℕ) (content : List ℕ → Content) (factors : List ℕ)
        (due : Status)
        → content name ≡ Holds factors → factors_in factors ≡ Err due
        → outcome (made_plan name number) content ≡ Ends due }
    ensures called { (name : List ℕ) (number : ℕ) (content : List ℕ → Content) (status : Status)
        → Calls (made_plan name number) content status
        → (status ≡ statuses.Done) ⊎ ((factors : List ℕ) × (factors_in factors ≡ Err status)) }
    ensures count { (number : ℕ) → (length (records (script_text number)) ≡ 20)
        × (accepted (answers (records (script_text number)) (sheet_after (made_book number) opening))
        ≡ 20) }
{
    scr_made::laws::read_as_made();
    scr_made::acceptance::without_fault();
    scr_made::acceptance::within_a_file()
}
