//! Laws of what a record reaches in the graph of a book, for proofs above to cite.
ghost use Rattle.std.specs.Prelude.{◌≡◌, ◌↔◌, ◌⊎◌, ◌+◌, ℕ, true, Contains, Some};
ghost use Rattle.scr_factors.specs.Values.{FactorValues};
ghost use Rattle.scr_sheet.specs.Records.{applied};
ghost use Rattle.scr_sheet.specs.declared.edit.Edit.{Edit};
ghost use Rattle.scr_sheet.specs.declared.sheet.BalanceSheet.{BalanceSheet};
ghost use Rattle.scr_nodes.specs.Live.{is_live};
ghost use Rattle.scr_nodes.specs.declared.node.Node.{Node};
ghost use Rattle.scr_reachability.specs.Leading.{IsCountOf};
ghost use Rattle.scr_block_graph.specs.Graph.{AreRolls, Rolled, is_live_in, sources_in};
ghost use Rattle.scr_block_graph.specs.Sums.{first_sum, second_sum};
ghost use Rattle.scr_block_graph.specs.Touched.{IsTouchedIn, applied_in};
ghost use Rattle.scr_block_graph.specs.declared.point.Block.{Block};
ghost use Rattle.scr_block_graph.specs.declared.point.Point.{Point};
ghost use Rattle.scr_block_graph.specs.declared.point.Point.TheVariants as points;
ghost use Rattle.scr_plan.specs.Ways.{AreKept, IsBlockReached, IsFigureReached, IsPointReached};

/// If the lists of a book have exactly its balance sheet's members, each once, so do they after a record.
pub fn lists()
    ensures { (edit : Edit) (book : Rolled) → AreRolls book → AreRolls (applied_in edit book) }
{}

/// A record reaches a figure in the book's graph exactly if it does in the balance sheet's, whatever the factors.
pub fn figures()
    ensures { (factors : FactorValues) (edit : Edit) (book : Rolled) → AreKept edit book → (node : Node)
        → IsPointReached factors book edit (points.Figure node) ↔ IsFigureReached factors book.sheet edit node }
{}

/// A record reaches a node exactly if it exists after the record, and is touched or has a reached source.
pub fn sources()
    ensures { (factors : FactorValues) (edit : Edit) (book : Rolled) → AreKept edit book → (point : Point)
        → IsPointReached factors book edit point
        ↔ ((is_live_in (applied_in edit book) point ≡ true)
        × (IsTouchedIn factors book edit point
        ⊎ ((source : Point) × Contains (sources_in (applied_in edit book) point) source × IsPointReached factors book edit source))) }
{}

/// A record reaches a Block exactly if the Block exists after it and one of two things holds. It touches the Block or a Block
/// below, or it reaches the figure of a member that the Block spans.
pub fn blocks()
    ensures { (factors : FactorValues) (edit : Edit) (book : Rolled) → AreKept edit book → (block : Block)
        → IsPointReached factors book edit (points.Block block) ↔ IsBlockReached factors book edit block }
{}

/// If a record reaches a Block, it reaches each figure computed from the Block's sum that exists after the record.
pub fn readers()
    ensures { (factors : FactorValues) (edit : Edit) (book : Rolled) → AreKept edit book → (block : Block) (node : Node)
        → IsPointReached factors book edit (points.Block block)
        → (first_sum node ≡ Some block.sum) ⊎ (second_sum node ≡ Some block.sum) → is_live (applied edit book.sheet) node ≡ true
        → IsFigureReached factors book.sheet edit node }
{}

/// The reached nodes of the book are as numerous as its reached figures and reached Blocks together. In either graph the number is
/// unique.
pub fn counts()
    ensures together { (factors : FactorValues) (edit : Edit) (book : Rolled) → AreKept edit book → (figures blocks : ℕ)
        → IsCountOf (IsFigureReached factors book.sheet edit) figures
        → IsCountOf (IsBlockReached factors book edit) blocks
        → IsCountOf (IsPointReached factors book edit) (figures + blocks) }
    ensures one_of_points { (factors : FactorValues) (edit : Edit) (book : Rolled) (count other : ℕ)
        → IsCountOf (IsPointReached factors book edit) count → IsCountOf (IsPointReached factors book edit) other → count ≡ other }
    ensures one_of_figures { (factors : FactorValues) (edit : Edit) (sheet : BalanceSheet) (count other : ℕ)
        → IsCountOf (IsFigureReached factors sheet edit) count → IsCountOf (IsFigureReached factors sheet edit) other → count ≡ other }
{}
