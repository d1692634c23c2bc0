//! What the definitions of the balance sheet come to, whatever a program does.
ghost use Rattle.std.specs.Prelude.{◌≡◌, ◌↔◌, ℕ, ℤ, false, ◌+◌, ◌*◌, ◌<◌, ◌≤◌, [], List, Some, None, length, slice_get, sum_by, take};
ghost use Rattle.scr_sheet.specs.BalanceSheet.{opening, held_of, held_total, components_of};
ghost use Rattle.scr_sheet.specs.declared.sheet.BalanceSheet.{BalanceSheet};
ghost use Rattle.scr_sheet.specs.Records.{applied, with_fund};
ghost use Rattle.scr_tables.specs.Names.{same_name};
ghost use Rattle.scr_sheet.specs.Members.{is_member, edit_name};
ghost use Rattle.scr_sheet.specs.declared.roll.Roll.{Roll};
ghost use Rattle.scr_sheet.specs.Faults.{components_fault, fault_of, list_fault, unknown_name, wrong_kind};
ghost use Rattle.scr_sheet.specs.Forms.{Formed};
ghost use Rattle.scr_sheet.specs.FundLists.{AreOfOneFund};
ghost use Rattle.scr_sheet.specs.Validity.{Valid, IsHeld};
ghost use Rattle.scr_sheet.specs.Totals.{total_of, parts_of_funds, securities_total, closed_total};
ghost use Rattle.scr_funds.specs.Chains.{IsFirstShortest};
ghost use Rattle.scr_sheet.specs.declared.edit.Edit.{Edit};
ghost use Rattle.scr_sheet.specs.declared.edit.Edit.TheVariants as edits;
ghost use Rattle.scr_sheet.specs.declared.fault.Fault.{Fault};
ghost use Rattle.scr_sheet.specs.declared.fault.Fault.TheVariants as faults;
ghost use Rattle.scr_profile.specs.declared.limits.TheConstants.{MAX_FUND_COMPONENTS};
ghost use Rattle.scr_sheet.specs.declared.rows.Position.{Position};
ghost use Rattle.scr_sheet.specs.declared.rows.Stake.{Stake};

use crate::{BalanceSheet, Earlier, Edit, Fault, Numbers};

/// Compiles only where threads may share a `T` and hand it on.
fn shared<T: Send + Sync>() {}

/// Threads may share a balance sheet, its numbers, a record, a fault and what a record changed, and hand them on.
pub fn sharing() {
    shared::<BalanceSheet>();
    shared::<Numbers>();
    shared::<Edit>();
    shared::<Fault>();
    shared::<Earlier>();
}

/// The opening balance sheet is valid, and a record that has its form and no fault leads from a valid balance
/// sheet to a valid one.
pub fn validity()
    ensures opening { Valid opening }
    ensures applied { (edit : Edit) (sheet : BalanceSheet) → Formed edit → Valid sheet → fault_of edit sheet ≡ None → Valid (applied edit sheet) }
{}

/// The fault of a record is never want of memory, whatever the balance sheet: a refusal that tells a fault tells one of the
/// record.
pub fn fault_kinds()
    ensures { (edit : Edit) (sheet : BalanceSheet) → ¬ (fault_of edit sheet ≡ Some faults.NoMemory) }
{}

/// What is held under the name of a security or a fund is what its row says, and over all securities and funds it sums
/// to all that is held directly.
pub fn holds()
    ensures row { (sheet : BalanceSheet) (k : ℕ) (p : Position) → Valid sheet → slice_get sheet.securities k ≡ Some p → held_of sheet p.security.name ≡ p.held }
    ensures fund { (sheet : BalanceSheet) (k : ℕ) (s : Stake) → Valid sheet → slice_get sheet.funds k ≡ Some s → held_of sheet s.fund.name ≡ s.held }
    ensures sum { (sheet : BalanceSheet) → Valid sheet
        → sum_by (λ p. held_of sheet p.security.name) sheet.securities + sum_by (λ s. held_of sheet s.fund.name) sheet.funds ≡ held_total sheet }
{}

/// The list of a fund's record has no fault exactly where no component comes twice and there are 1,000 at most; and a fault
/// tells the field of the first component with which that is no longer so.
pub fn fund_lists()
    ensures none { (components : List (List ℕ × ℤ)) → (components_fault 2 MAX_FUND_COMPONENTS [] components ≡ None) ↔ AreOfOneFund components }
    ensures first { (components : List (List ℕ × ℤ)) (fault : Fault) → components_fault 2 MAX_FUND_COMPONENTS [] components ≡ Some fault
        → (place : ℕ) × (fault ≡ faults.Syntax (2 + 2 * place)) × (place < length components) × AreOfOneFund (take place components) × (¬ AreOfOneFund (take (place + 1) components)) }
{}

/// Where no earlier fault stands, a record of a fund is refused for a cycle exactly where the fund would hold itself, and
/// the path that is told is the first of the shortest chains by which it would.
pub fn cycles()
    ensures { (name : List ℕ) (components : List (List ℕ × ℤ)) (sheet : BalanceSheet)
        → list_fault (edits.Fund name components) ≡ None
        → unknown_name (edits.Fund name components) sheet ≡ None
        → wrong_kind (edits.Fund name components) sheet ≡ None
        → (path : List (List ℕ))
        → (fault_of (edits.Fund name components) sheet ≡ Some (faults.Cycle path))
        ↔ IsFirstShortest (components_of (with_fund name components sheet.funds)) name name path }
{}

/// In a valid balance sheet the total of each name is what is held of it directly and its parts in all funds, and no total
/// is above all that is held. The totals of the securities and of the closed funds, at which all chains of components end,
/// sum to all that is held: looking through loses no cent and makes none.
pub fn totals()
    ensures equation { (sheet : BalanceSheet) → Valid sheet
        → (name : List ℕ) → total_of sheet name ≡ held_of sheet name + parts_of_funds sheet name }
    ensures within { (sheet : BalanceSheet) → Valid sheet
        → (name : List ℕ) → IsHeld sheet name → total_of sheet name ≤ held_total sheet }
    ensures whole { (sheet : BalanceSheet) → Valid sheet
        → securities_total sheet + closed_total sheet ≡ held_total sheet }
{}

/// A record changes whether a row is a member of a roll for no name but its own.
pub fn membership()
    ensures { (edit : Edit) (sheet : BalanceSheet) (roll : Roll) (name : List ℕ) → same_name (edit_name edit) name ≡ false
        → is_member roll name (applied edit sheet) ≡ is_member roll name sheet }
{}
