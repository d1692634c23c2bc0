//! The topological level of a Block in the graph of a book.
ghost use Rattle.std.specs.Prelude.{◌≡◌, ◌≤◌};
ghost use Rattle.scr_nodes.specs.Levels.{level as level_of};
ghost use Rattle.scr_block_graph.specs.Levels.{level_in};
ghost use Rattle.scr_block_graph.specs.Sums.{reader_of};
ghost use Rattle.scr_block_graph.specs.declared.point.Point.TheVariants as points;

use crate::{Block, Sum};
use scr_sum_tree::Level;

/// The level of a Block, above its sources and below its reader. A figure's level is three times its level in the balance sheet
/// (`scr_figure_ids::level`). That leaves room for two levels of Blocks.
pub fn block_level(block: &Block) -> u32
    ensures { result ≡ level_in (points.Block block.now) }
{
    let above = 3 * reader_level(&block.sum);
    match block.level {
        Level::First => above - 2,
        Level::Second => above - 1,
    }
}

/// The level, among the figures of a balance sheet, of the figures that are computed from the sum.
fn reader_level(sum: &Sum) -> u32
    ensures level { result ≡ level_of (reader_of sum.now) }
    ensures some { 1 ≤ result }
    ensures few { result ≤ 4 }
{
    match sum {
        Sum::Losses(_, _) => 1,
        Sum::Class(_) | Sum::Closed | Sum::Grouped | Sum::Group(_) => 2,
        Sum::Assets(_) | Sum::Presents(_) => 2,
        Sum::Spreads | Sum::Rates(_, _) | Sum::Costs(_, _) => 3,
        Sum::Squares => 4,
    }
}
