//! Laws of the graph of figures, whatever a program does. Each is a function that does nothing,
//! whose contract is the law.
ghost use Rattle.std.specs.Prelude.{◌≡◌, ◌↔◌, ◌<◌, ◌⊎◌, ℕ, true, Contains, List, Some, map, slice_get, take};
ghost use Rattle.scr_factors.specs.Values.{FactorValues};
ghost use Rattle.scr_sheet.specs.declared.sheet.BalanceSheet.{BalanceSheet};
ghost use Rattle.scr_sheet.specs.Validity.{Valid};
ghost use Rattle.scr_nodes.specs.declared.node.Node.{Node};
ghost use Rattle.scr_nodes.specs.declared.node.Node.TheVariants as nodes;
ghost use Rattle.scr_nodes.specs.declared.node.Whole.{Whole};
ghost use Rattle.scr_nodes.specs.Changed.{IsChanged};
ghost use Rattle.scr_nodes.specs.Levels.{level};
ghost use Rattle.scr_nodes.specs.Live.{is_live};
ghost use Rattle.scr_nodes.specs.LiveNodes.{HasNoRepeats, live_nodes, rest_nodes, total_nodes};
ghost use Rattle.scr_nodes.specs.Numbers.{number_of_whole, whole_nodes};
ghost use Rattle.scr_nodes.specs.Reckoned.{reckoned};
ghost use Rattle.scr_nodes.specs.Sources.{sources_of};

use crate::Node;

/// The sources of a figure of a valid balance sheet are figures of it, and no figure is a source of
/// another twice.
pub fn sources()
    ensures live { (sheet : BalanceSheet) (node source : Node) → Valid sheet
        → is_live sheet node ≡ true
        → Contains (sources_of sheet node) source → is_live sheet source ≡ true }
    ensures once { (sheet : BalanceSheet) (node : Node) → Valid sheet
        → HasNoRepeats (sources_of sheet node) }
{}

/// The list of all figures of a valid balance sheet has each of them and no others.
pub fn live_lists()
    ensures live { (sheet : BalanceSheet) (node : Node) → Valid sheet
        → Contains (live_nodes sheet) node ↔ (is_live sheet node ≡ true) }
{}

/// The figures of a valid balance sheet are the totals of its funds and securities and the figures
/// of a list, each of which stands there once, and after all of its sources but totals.
pub fn rest_lists()
    ensures listed { (sheet : BalanceSheet) (node : Node) → Valid sheet → is_live sheet node ≡ true
        → Contains (total_nodes sheet) node ⊎ Contains (rest_nodes sheet) node }
    ensures live { (sheet : BalanceSheet) (node : Node) → Valid sheet
        → Contains (rest_nodes sheet) node → is_live sheet node ≡ true }
    ensures once { (sheet : BalanceSheet) → Valid sheet → HasNoRepeats (rest_nodes sheet) }
    ensures after_sources { (sheet : BalanceSheet) (k : ℕ) (node source : Node) → Valid sheet
        → slice_get (rest_nodes sheet) k ≡ Some node → Contains (sources_of sheet node) source
        → Contains (total_nodes sheet) source ⊎ Contains (take k (rest_nodes sheet)) source }
{}

/// Each source of a figure stands at a lower level than it, whatever the balance sheet; those of a
/// figure at level 0 stand there too (totals of funds, whose sources are totals of the funds that hold
/// them).
pub fn levels()
    ensures lower { (sheet : BalanceSheet) (node source : Node) → 0 < level node
        → Contains (sources_of sheet node) source → level source < level node }
    ensures none { (sheet : BalanceSheet) (node source : Node) → level node ≡ 0
        → Contains (sources_of sheet node) source → level source ≡ 0 }
{}

/// Each figure of the whole sheet stands in their list at its number. So no two have one number.
pub fn numbers()
    ensures { (sheet : BalanceSheet) (what : Whole) → is_live sheet (nodes.Whole what) ≡ true
        → slice_get whole_nodes (number_of_whole what) ≡ Some (nodes.Whole what) }
{}

/// Figures that are reckoned from those of their sources by plain recursion obey its equation, for
/// every valid balance sheet and every kind of figure, and nothing else does.
pub fn recursion<F>()
    ensures equation { (none : F) (rule : Node → List F → F) (sheet : BalanceSheet) (node : Node)
        → Valid sheet
        → reckoned none rule sheet node ≡ rule node
        (map (reckoned none rule sheet) (sources_of sheet node)) }
    ensures only { (none : F) (rule : Node → List F → F) (sheet : BalanceSheet) → Valid sheet
        → (found : Node → F) → ((node : Node)
        → found node ≡ rule node (map found (sources_of sheet node)))
        → (node : Node) → found node ≡ reckoned none rule sheet node }
{}

/// From a balance sheet to itself no figure changes; and what changes from one to another changes from that one back, whatever the
/// factors.
pub fn changes()
    ensures none { (factors : FactorValues) (sheet : BalanceSheet) (node : Node) → ¬ IsChanged factors sheet sheet node }
    ensures back { (factors : FactorValues) (before after : BalanceSheet) (node : Node)
        → IsChanged factors before after node → IsChanged factors after before node }
{}

fn shared<T: Send + Sync>(_: &T) {}

/// A node may be handed to another thread, and be read by several.
pub fn threads(node: &Node) {
    shared(node);
}
