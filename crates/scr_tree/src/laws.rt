//! What holds of the engine's type, and of figures and blocks, whatever a program does. Each law is a function that does nothing.
ghost use Rattle.std.specs.Prelude.{◌≡◌, ◌||◌, map};
ghost use Rattle.std.specs.List.{list_any};
ghost use Rattle.scr_num.specs.Sums.{sum_ends};
ghost use Rattle.scr_factors.specs.Values.{FactorValues};
ghost use Rattle.scr_sheet.specs.Validity.{Valid};
ghost use Rattle.scr_rules.specs.Close.{close_under};
ghost use Rattle.scr_rules.specs.Discounts.{own_discounts};
ghost use Rattle.scr_rules.specs.Rules.{rule};
ghost use Rattle.scr_rules.specs.Worked.{worked};
ghost use Rattle.scr_block_graph.specs.Changed.{own_in};
ghost use Rattle.scr_block_graph.specs.Graph.{AreRolls, Rolled, sources_in, worth_in};
ghost use Rattle.scr_block_graph.specs.declared.point.Point.{Point};
ghost use Rattle.scr_tree.specs.Opening.{opens_at};

use crate::Engine;

fn shared<T: Send + Sync>() {}

/// An engine may be handed to another thread, and be read by several at once.
pub fn sharing() {
    shared::<Engine>();
}

/// What a figure or a block of a book is worth is its rule on what its sources are worth: the worked figures obey their equation in the
/// graph with blocks, too. And it rests on an open choice exactly where it is one or where one of its sources does.
pub fn equations()
    ensures worth { (factors : FactorValues) (book : Rolled) → Valid book.sheet → AreRolls book → (point : Point)
        → worth_in sum_ends (worked factors book.sheet) book point ≡ rule (own_in factors book point) (own_discounts (own_in factors book point))
        (map (worth_in sum_ends (worked factors book.sheet) book) (sources_in book point)) }
    ensures close { (factors : FactorValues) (book : Rolled) → Valid book.sheet → AreRolls book → (point : Point)
        → worth_in (list_any (λ b. b)) (close_under factors book.sheet) book point
        ≡ (opens_at factors book.sheet point || list_any (λ b. b) (map (worth_in (list_any (λ b. b)) (close_under factors book.sheet) book) (sources_in book point))) }
{}
