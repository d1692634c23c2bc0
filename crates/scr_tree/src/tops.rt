//! Figures that add up others without a list of their numbers: Blocks, and figures by the large sums that they are reckoned from.
ghost use Rattle.std.specs.Prelude.{◌≡◌, ◌+◌, ◌≤◌, ◌^◌, true, IfSome, Some, length, map};
ghost use Rattle.scr_sum_tree.specs.Blocks.{blocks_at};
ghost use Rattle.scr_sum_tree.specs.declared.blocks.Level.TheVariants as levels;
ghost use Rattle.scr_nodes.specs.Live.{is_live};
ghost use Rattle.scr_num.specs.Sizes.{AreTogether};
ghost use Rattle.scr_block_graph.specs.Books.{rolled_of};
ghost use Rattle.scr_block_graph.specs.Graph.{is_live_in, reads, roll_in, tops_of};
ghost use Rattle.scr_block_graph.specs.Sums.{first_sum};
ghost use Rattle.scr_block_graph.specs.declared.point.Point.TheVariants as points;
ghost use Rattle.scr_tree.specs.Adding.{AreKnownAt, IsAddedUp, blocks_among, worked_of};
ghost use Rattle.scr_tree.specs.Figures.{worth_of};
ghost use Rattle.scr_tree.specs.Order.{undone};
ghost use Rattle.scr_tree.specs.Renewed.{AreSumsOn};
ghost use Rattle.scr_tree.specs.Ready.{IsBasis, IsReadyOn, StandsOn, reckoning_on};

use crate::added::added_up;
use crate::basis::Basis;
use crate::figures::{Figure, Figures, nothing};
use crate::graph::member_family;
use crate::renewed::Rewritten;
use crate::sums::{blocks_of, by_sums};
use scr_block_graph::{Block, Sum, second_sum};
use scr_io::Steps;
use scr_nodes::Node;
use scr_partial_sums::add_figures;
use scr_sum_tree::{Level, blocks_at, places};
use std::ops::Range;
use std::sync::ledger::Ledger;

/// The figure of a Block at a number, from those that it adds up.
pub(crate) fn block_up(basis: Basis<'_>, table: Rewritten<'_>, number: u32, block: &Block) -> Figure
    requires basis { IsBasis basis }
    requires ready { IsReadyOn basis table.figures.now number }
    requires at { StandsOn basis (points.Block block.now) number }
    requires live { is_live_in (rolled_of basis.inputs.book.now) (points.Block block.now) ≡ true }
    requires sums { basis.summed ≡ true → AreSumsOn basis (undone table.former.now table.figures.now) }
    ensures { worth_of result ≡ (reckoning_on basis.entry).worth (points.Block block.now) }
{
    match block.level {
        Level::First => added_up(basis, table, number, block),
        Level::Second => second_level_up(basis, table.figures, number, block),
    }
}

/// The figure of a Block of the second level at a number, from those of the first that it adds up.
fn second_level_up(basis: Basis<'_>, figures: &Figures, number: u32, block: &Block) -> Figure
    requires basis { IsBasis basis }
    requires ready { IsReadyOn basis figures.now number }
    requires at { StandsOn basis (points.Block block.now) number }
    requires live { is_live_in (rolled_of basis.inputs.book.now) (points.Block block.now) ≡ true }
    requires second { block.now.level ≡ levels.Second }
    ensures { worth_of result ≡ (reckoning_on basis.entry).worth (points.Block block.now) }
{
    basis.inputs.factors.known();
    let members = basis.lists.members(basis.inputs.book, block.sum.roll());
    let count = members.len();
    let firsts = blocks_at(count, Level::First);
    let among = places(firsts, Level::First, block.index as usize);
    add_blocks(basis, figures, &block.sum, count, Level::First, among)
}

/// What the Blocks of a level come to together that are among these, of a sum over so many members, where they are known.
fn add_blocks(
    basis: Basis<'_>,
    figures: &Figures,
    sum: &Sum,
    count: usize,
    level: Level,
    among: Range<usize>,
) -> Figure
    requires basis { IsBasis basis }
    requires count { count ≡ length (roll_in (rolled_of basis.inputs.book.now) sum.now) }
    requires there { among.end ≤ blocks_at count level }
    requires known { AreKnownAt basis figures.now (blocks_among sum.now level among.start among.end) }
    requires together { AreTogether (2 ^ 124) (map (worked_of basis) (blocks_among sum.now level among.start among.end)) }
    ensures { IsAddedUp basis.entry (blocks_among sum.now level among.start among.end) result }
{
    match blocks_of(basis.numbers(), sum) {
        Some(blocks) => blocks.add_blocks(figures, count, level, among.start, among.end),
        None => nothing(),
    }
}

/// The figure of a node that is reckoned from this sum, or from this and a second one. It counts as one step.
pub(crate) fn summed_up<L: Ledger>(
    basis: Basis<'_>,
    figures: &Figures,
    number: u32,
    node: &Node,
    first: &Sum,
    steps: &mut Steps<L>,
) -> Figure
    requires basis { IsBasis basis }
    requires live { is_live basis.inputs.book.now.sheet node.now ≡ true }
    requires first { first_sum node.now ≡ Some first.now }
    requires ready { IsReadyOn basis figures.now number }
    requires at { StandsOn basis (points.Figure node.now) number }
    ensures figure { worth_of result ≡ (reckoning_on basis.entry).worth (points.Figure node.now) }
    ensures step { steps.new ≡ steps.old + 1 }
{
    let held = top(basis, figures, first);
    let owed = top_if_any(basis, figures, &second_sum(node));
    let span = by_sums(basis.inputs, node, held.span, owed.span, steps);
    Figure {
        span,
        close: held.close | owed.close,
    }
}

/// The top of a sum that need not be there.
fn top_if_any(basis: Basis<'_>, figures: &Figures, sum: &Option<Sum>) -> Figure
    requires basis { IsBasis basis }
    requires reads { IfSome sum.now (λ sum. reads basis.inputs.book.now.sheet sum ≡ true) }
    requires known { AreKnownAt basis figures.now (tops_of (rolled_of basis.inputs.book.now) sum.now) }
    ensures { IsAddedUp basis.entry (tops_of (rolled_of basis.entry.inputs.book.now) sum.now) result }
{
    match sum {
        Some(sum) => top(basis, figures, sum),
        None => nothing(),
    }
}

/// What is left of a sum at the top of its Blocks, as one figure: what the sum comes to.
fn top(basis: Basis<'_>, figures: &Figures, sum: &Sum) -> Figure
    requires basis { IsBasis basis }
    requires reads { reads basis.inputs.book.now.sheet sum.now ≡ true }
    requires known { AreKnownAt basis figures.now (tops_of (rolled_of basis.inputs.book.now) (Some sum.now)) }
    ensures { IsAddedUp basis.entry (tops_of (rolled_of basis.entry.inputs.book.now) (Some sum.now)) result }
{
    basis.inputs.factors.known();
    let members = basis.lists.members(basis.inputs.book, sum.roll());
    let count = members.len();
    let firsts = blocks_at(count, Level::First);
    let seconds = blocks_at(count, Level::Second);
    if firsts == 0 {
        add_figures(figures, members, member_family(sum))
    } else if seconds == 0 {
        add_blocks(basis, figures, sum, count, Level::First, 0..firsts)
    } else {
        add_blocks(basis, figures, sum, count, Level::Second, 0..seconds)
    }
}
