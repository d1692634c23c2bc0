//! Laws of the ids of figures, for proofs above to cite.
ghost use Rattle.std.specs.Prelude.{◌≡◌, ◌<◌, ℕ, true, Contains};
ghost use Rattle.scr_ids.specs.Moves.{IsSameBut};
ghost use Rattle.scr_ids.specs.Ranges.{IsApart, IsAt, Numbered};
ghost use Rattle.scr_sheet.specs.Records.{applied};
ghost use Rattle.scr_sheet.specs.Validity.{Valid};
ghost use Rattle.scr_sheet.specs.declared.edit.Edit.{Edit};
ghost use Rattle.scr_sheet.specs.declared.sheet.BalanceSheet.{BalanceSheet};
ghost use Rattle.scr_ids.specs.declared.table.Table.TheVariants as tables;
ghost use Rattle.scr_nodes.specs.Levels.{level};
ghost use Rattle.scr_nodes.specs.Live.{is_live};
ghost use Rattle.scr_nodes.specs.Numbers.{number_of_whole};
ghost use Rattle.scr_nodes.specs.Sources.{sources_of};
ghost use Rattle.scr_nodes.specs.declared.node.Node.{Node};
ghost use Rattle.scr_nodes.specs.declared.node.Node.TheVariants as nodes;
ghost use Rattle.scr_nodes.specs.declared.node.Whole.{Whole};
ghost use Rattle.scr_figure_ids.specs.Families.{table_of, whole_family};
ghost use Rattle.scr_figure_ids.specs.Numbers.{IsNumbered, StandsAt};
ghost use Rattle.scr_figure_ids.specs.Order.{turn_of};
ghost use Rattle.scr_figure_ids.specs.Records.{step_of};
ghost use Rattle.scr_figure_ids.specs.Steps.{CanTake, CanTakeBack, Takes, TakesBack};

/// Each figure that a balance sheet has, has exactly one id, and no other figure has it.
pub fn numbers()
    ensures live { (sheet : BalanceSheet) (places : Numbered) → IsNumbered sheet places → (node : Node)
        → is_live sheet node ≡ true → (number : ℕ) × StandsAt sheet places node number }
    ensures only { (sheet : BalanceSheet) (places : Numbered) → Valid sheet → (n m : ℕ) (node : Node)
        → StandsAt sheet places node n → StandsAt sheet places node m → n ≡ m }
    ensures exact { (sheet : BalanceSheet) (places : Numbered) → IsApart places → (number : ℕ) (a b : Node)
        → StandsAt sheet places a number → StandsAt sheet places b number → a ≡ b }
{}

/// If the ids take the step of a record, the new sheet is numbered. A figure that both sheets have keeps its id.
pub fn records()
    ensures can { (edit : Edit) (sheet : BalanceSheet) (places : Numbered) → IsNumbered sheet places
        → CanTake (step_of edit sheet) places }
    ensures numbered { (edit : Edit) (sheet : BalanceSheet) (before now : Numbered) → IsNumbered sheet before
        → Takes (step_of edit sheet) before now → IsNumbered (applied edit sheet) now }
    ensures keeps { (edit : Edit) (sheet : BalanceSheet) (before now : Numbered) → Valid sheet → Valid (applied edit sheet)
        → Takes (step_of edit sheet) before now → (node : Node) (n m : ℕ)
        → StandsAt sheet before node n → StandsAt (applied edit sheet) now node m → n ≡ m }
{}

/// The step of a record can be undone, and then each figure has its old id.
pub fn taken_back()
    ensures can { (edit : Edit) (sheet : BalanceSheet) (before now : Numbered) → IsNumbered sheet before
        → Takes (step_of edit sheet) before now → CanTakeBack (step_of edit sheet) now }
    ensures numbered { (edit : Edit) (sheet : BalanceSheet) (before between now : Numbered) → IsNumbered sheet before
        → Takes (step_of edit sheet) before between → TakesBack (step_of edit sheet) between now → IsNumbered sheet now }
    ensures kept { (edit : Edit) (sheet : BalanceSheet) (before between now : Numbered) → IsNumbered sheet before
        → Takes (step_of edit sheet) before between → TakesBack (step_of edit sheet) between now → (node : Node) (number : ℕ)
        → StandsAt sheet before node number → StandsAt sheet now node number }
{}

/// Each figure keeps its id while parts of member lists are added. No id is both a figure's and a part's.
pub fn parts()
    ensures numbered { (sheet : BalanceSheet) (before now : Numbered) → IsSameBut tables.Part before now
        → IsNumbered sheet before → IsNumbered sheet now }
    ensures kept { (sheet : BalanceSheet) (before now : Numbered) → IsSameBut tables.Part before now → (node : Node) (number : ℕ)
        → StandsAt sheet before node number → StandsAt sheet now node number }
    ensures apart { (sheet : BalanceSheet) (places : Numbered) → IsApart places → (node : Node) (number : ℕ)
        → StandsAt sheet places node number → (k j : ℕ) → IsAt places tables.Part k j number → ⊥ }
{}

/// Every source of a figure at level 0 is the total of a fund.
pub fn lowest_level()
    ensures { (sheet : BalanceSheet) (node source : Node) → level node ≡ 0 → Contains (sources_of sheet node) source
        → table_of source ≡ tables.Fund }
{}

/// The family of a figure of the whole sheet is its index in the list of these figures.
pub fn families()
    ensures { (sheet : BalanceSheet) (what : Whole) → is_live sheet (nodes.Whole what) ≡ true
        → whole_family what ≡ number_of_whole what }
{}

/// A source of a whole-sheet figure that is itself one comes before it: the assets first, all others by family.
pub fn whole_order()
    ensures { (sheet : BalanceSheet) (what source : Whole) → Valid sheet → is_live sheet (nodes.Whole what) ≡ true
        → Contains (sources_of sheet (nodes.Whole what)) (nodes.Whole source) → turn_of source < turn_of what }
{}
