//! Laws of the large sums and the Blocks under them, for proofs above to cite.
ghost use Rattle.std.specs.Prelude.{◌≡◌, ◌↔◌, ◌⊎◌, ◌<◌, ◌≤◌, ◌*◌, ◌++◌, ◌||◌, false, true, Bool, Contains, IsTrue, List, Option, is_some, length, map};
ghost use Rattle.std.specs.List.{list_any};
ghost use Rattle.scr_num.specs.Rounding.{Ends};
ghost use Rattle.scr_num.specs.Sums.{sum_ends};
ghost use Rattle.scr_factors.specs.Values.{FactorValues};
ghost use Rattle.scr_sum_tree.specs.Blocks.{HasEachOnce, is_block};
ghost use Rattle.scr_sum_tree.specs.ChangedBlocks.{IsChangedBlock};
ghost use Rattle.scr_sum_tree.specs.Readers.{AreApart};
ghost use Rattle.scr_nodes.specs.Changed.{IsChanged, IsSame};
ghost use Rattle.scr_nodes.specs.Live.{is_live};
ghost use Rattle.scr_nodes.specs.Sources.{sources_of};
ghost use Rattle.scr_nodes.specs.declared.node.Node.{Node};
ghost use Rattle.scr_sheet.specs.Records.{applied};
ghost use Rattle.scr_sheet.specs.Validity.{Valid};
ghost use Rattle.scr_sheet.specs.declared.edit.Edit.{Edit};
ghost use Rattle.scr_sheet.specs.declared.sheet.BalanceSheet.{BalanceSheet};
ghost use Rattle.scr_block_graph.specs.Graph.{AreRolls, Rolled, block_point, is_live_in, listed, member_point, reads, roll_in, sources_in, tops_of, worth_in};
ghost use Rattle.scr_block_graph.specs.Changed.{IsChangedIn, IsSameIn};
ghost use Rattle.scr_block_graph.specs.Levels.{level_in};
ghost use Rattle.scr_block_graph.specs.Touched.{IsGainedOrLost, IsTouchedIn, applied_in};
ghost use Rattle.scr_block_graph.specs.Reading.{IsSummed, ReadsBlock, ReadsMember};
ghost use Rattle.scr_block_graph.specs.Sums.{first_sum, second_sum};
ghost use Rattle.scr_block_graph.specs.declared.point.Block.{Block};
ghost use Rattle.scr_block_graph.specs.declared.point.Point.{Point};
ghost use Rattle.scr_block_graph.specs.declared.point.Point.TheVariants as points;
ghost use Rattle.scr_block_graph.specs.declared.sum.Sum.{Sum};

/// A figure that is computed from large sums has no other sources: the figures of the first sum, then of the second if there is
/// one.
pub fn summed()
    ensures { (sheet : BalanceSheet) (node : Node) → is_some (first_sum node) ≡ true
        → sources_of sheet node ≡ listed sheet (first_sum node) ++ listed sheet (second_sum node) }
{}

/// A Block is worth the sum of its sources, whatever figures are worth; for ends, and for whether one of several holds.
pub fn blocks()
    ensures ends { (worth : Node → Ends) (book : Rolled) (block : Block) → is_live_in book (points.Block block) ≡ true
        → worth_in sum_ends worth book (points.Block block)
        ≡ sum_ends (map (worth_in sum_ends worth book) (sources_in book (points.Block block))) }
    ensures any { (holds : Node → Bool) (book : Rolled) (block : Block) → is_live_in book (points.Block block) ≡ true
        → worth_in (list_any (λ b. b)) holds book (points.Block block)
        ≡ list_any (λ b. b) (map (worth_in (list_any (λ b. b)) holds book) (sources_in book (points.Block block))) }
{}

/// The points at the top of a sum are worth the sum of its members' figures. It holds whatever order the list has and however it
/// came about.
pub fn tops()
    ensures ends { (worth : Node → Ends) (book : Rolled) → Valid book.sheet → AreRolls book → (sum : Option Sum)
        → sum_ends (map (worth_in sum_ends worth book) (tops_of book sum)) ≡ sum_ends (map worth (listed book.sheet sum)) }
    ensures any { (holds : Node → Bool) (book : Rolled) → Valid book.sheet → AreRolls book → (sum : Option Sum)
        → list_any (λ b. b) (map (worth_in (list_any (λ b. b)) holds book) (tops_of book sum))
        ≡ list_any (λ b. b) (map holds (listed book.sheet sum)) }
{}

/// A figure that is computed from sums sees equal sums in both graphs, the book's and the balance sheet's. It holds for ends, and
/// for whether one of several holds. So a rule that takes sums alone gives one result (`scr_rules::laws::sums`).
pub fn figures()
    ensures ends { (worth : Node → Ends) (book : Rolled) → Valid book.sheet → AreRolls book → (node : Node)
        → is_some (first_sum node) ≡ true
        → sum_ends (map (worth_in sum_ends worth book) (sources_in book (points.Figure node))) ≡ sum_ends (map worth (sources_of book.sheet node)) }
    ensures any { (holds : Node → Bool) (book : Rolled) → Valid book.sheet → AreRolls book → (node : Node)
        → is_some (first_sum node) ≡ true
        → list_any (λ b. b) (map (worth_in (list_any (λ b. b)) holds book) (sources_in book (points.Figure node)))
        ≡ list_any (λ b. b) (map holds (sources_of book.sheet node)) }
{}

/// Every source of a point that the book has exists in the book, and no source occurs twice.
pub fn sources()
    ensures live { (book : Rolled) (point source : Point) → Valid book.sheet → AreRolls book → is_live_in book point ≡ true
        → Contains (sources_in book point) source → is_live_in book source ≡ true }
    ensures once { (book : Rolled) (point : Point) → Valid book.sheet → AreRolls book → HasEachOnce (sources_in book point) }
{}

/// Each source of a point above level 0 has a lower level, whatever the book.
pub fn levels()
    ensures { (book : Rolled) (point source : Point) → 0 < level_in point → Contains (sources_in book point) source
        → level_in source < level_in point }
{}

/// The figures of a sum's members and its Blocks are distinct points. So the laws of Blocks hold of them (`scr_sum_tree::laws`).
pub fn apart()
    ensures { (sum : Sum) → AreApart (member_point sum) (block_point sum) }
{}

/// A member or a Block under a sum is a source of its reader. Points computed from sums have no other sources
/// (`scr_sum_tree::laws::readers`). So the dependants of a member follow from its position in its list.
pub fn readers()
    ensures { (book : Rolled) → AreRolls book → (point source : Point) → IsSummed point → is_live_in book point ≡ true
        → Contains (sources_in book point) source ↔ ((sum : Sum) × (ReadsMember book sum point source ⊎ ReadsBlock book sum point source)) }
{}

/// Which points change from one book to another. If the sum is read in both, a Block changes exactly as a Block of the member
/// list. If it is read in one alone, each of its Blocks there changes. A figure computed from sums, in both books or neither,
/// stays exactly if the points at their tops do.
pub fn changes()
    ensures block { (factors : FactorValues) (before after : Rolled) (block : Block)
        → reads before.sheet block.sum ≡ true → reads after.sheet block.sum ≡ true
        → IsChangedIn factors before after (points.Block block)
        ↔ IsChangedBlock (member_point block.sum) (block_point block.sum) (roll_in before block.sum) (roll_in after block.sum) block.level
        block.index }
    ensures ends { (factors : FactorValues) (before after : Rolled) (block : Block)
        → reads before.sheet block.sum ≡ true → reads after.sheet block.sum ≡ false
        → IsChangedIn factors before after (points.Block block)
        ↔ (is_block (length (roll_in before block.sum)) block.level block.index ≡ true) }
    ensures begins { (factors : FactorValues) (before after : Rolled) (block : Block)
        → reads before.sheet block.sum ≡ false → reads after.sheet block.sum ≡ true
        → IsChangedIn factors before after (points.Block block)
        ↔ (is_block (length (roll_in after block.sum)) block.level block.index ≡ true) }
    ensures figure { (factors : FactorValues) (before after : Rolled) (node : Node) → is_some (first_sum node) ≡ true
        → is_live before.sheet node ≡ is_live after.sheet node
        → IsSameIn factors before after (points.Figure node)
        ↔ ((tops_of before (first_sum node) ≡ tops_of after (first_sum node)) × (tops_of before (second_sum node) ≡ tops_of after (second_sum node))) }
{}

/// A point that a record does not touch has equal own data and sources before and after it. It holds if it does for the figures of
/// the balance sheet (`scr_touched::touched`).
pub fn untouched()
    ensures { (factors : FactorValues) (edit : Edit) (book : Rolled) → Valid book.sheet → Valid (applied edit book.sheet) → AreRolls book
        → ((node : Node) → (IsChanged factors book.sheet (applied edit book.sheet) node → ⊥)
        → IsTrue (is_live book.sheet node || is_live (applied edit book.sheet) node) → IsSame factors book.sheet (applied edit book.sheet) node)
        → (point : Point) → (IsTouchedIn factors book edit point → ⊥)
        → IsTrue (is_live_in book point || is_live_in (applied_in edit book) point) → IsSameIn factors book (applied_in edit book) point }
{}

/// A record touches at most four Blocks for each edge of the balance sheet's graph that it makes or ends.
pub fn few()
    ensures { (factors : FactorValues) (edit : Edit) (book : Rolled) → Valid book.sheet → Valid (applied edit book.sheet)
        → AreRolls book → AreRolls (applied_in edit book)
        → (blocks : List Block) → HasEachOnce blocks
        → ((block : Block) → Contains blocks block → IsTouchedIn factors book edit (points.Block block))
        → (pairs : List (Node × Node))
        → ((node source : Node) → IsGainedOrLost book.sheet (applied edit book.sheet) node source → Contains pairs (node, source))
        → length blocks ≤ 4 * length pairs }
{}
