//! One figure, reckoned from those of its sources.
ghost use Rattle.std.specs.Prelude.{◌≡◌, ◌+◌, true, Some, None, IfOk, OnOk, is_some};
ghost use Rattle.scr_nodes.specs.declared.node.Node.TheVariants as nodes;
ghost use Rattle.scr_block_graph.specs.Books.{rolled_of};
ghost use Rattle.scr_block_graph.specs.Graph.{sources_in};
ghost use Rattle.scr_block_graph.specs.Sums.{first_sum};
ghost use Rattle.scr_block_graph.specs.declared.point.Block.{Block as TheBlock};
ghost use Rattle.scr_block_graph.specs.declared.point.Point.TheVariants as points;
ghost use Rattle.scr_tree.specs.Figures.{AreSpansOf};
ghost use Rattle.scr_tree.specs.Order.{undone};
ghost use Rattle.scr_tree.specs.Renewed.{AreSumsOn};
ghost use Rattle.scr_tree.specs.Ready.{IsBasis, IsReadyOn, IsRightOn, StandsOn, reckoning_on};

use crate::basis::Basis;
use crate::figures::{Figure, Figures, is_open_choice, read, read_linked};
use crate::graph::is_beside;
use crate::reckoning::Scratch;
use crate::renewed::Rewritten;
use crate::sums::plain_of;
use crate::tops::{block_up, summed_up};
use scr_block_graph::first_sum;
use scr_figure_ids::{node_at, whole_at};
use scr_ids::Table;
use scr_io::{Gate, Steps};
use scr_nodes::{Measure, Node, Whole};
use std::alloc::AllocError as NoMemory;
use std::sync::ledger::Ledger;

/// The figure at a number, reckoned from those of its sources.
pub(crate) fn figure_at<G: Gate, L: Ledger>(
    basis: Basis<'_>,
    table: Rewritten<'_>,
    number: u32,
    scratch: &mut Scratch,
    gate: &G,
    steps: &mut Steps<L>,
) -> Result<Figure, NoMemory>
    requires basis { IsBasis basis }
    requires ready { IsReadyOn basis table.figures.now number }
    requires sums { basis.summed ≡ true → AreSumsOn basis (undone table.former.now table.figures.now) }
    ensures figure { IfOk result (IsRightOn basis.entry number) }
    ensures step { OnOk result (steps.new ≡ steps.old + 1) }
{
    gate.pass(number);
    // Most figures that an edit reaches are of the whole sheet. Their numbers are their families: they are told without a search.
    if number < Table::Whole.stride() {
        let what = whole_at(number);
        if !is_summed(what) {
            return figure_of_whole(basis, table.figures, number, what, scratch, steps);
        }
    }
    match node_at(basis.places, basis.inputs.book.sheet(), number) {
        Some(node) => figure_of_node(basis, table.figures, number, &node, scratch, steps),
        None => Ok(figure_of_block(basis, table, number, steps)),
    }
}

/// The figure of the whole sheet is reckoned from a large sum.
fn is_summed(what: Whole) -> bool
    ensures { result ≡ is_some (first_sum (nodes.Whole what)) }
{
    match what {
        Whole::ClassSum(_) | Whole::Spread | Whole::Assets | Whole::Concentration => true,
        Whole::BioScenario(_, _, Measure::Gross) => true,
        _ => false,
    }
}

/// The figure of the whole sheet that has the number, which is reckoned from no large sum.
fn figure_of_whole<L: Ledger>(
    basis: Basis<'_>,
    figures: &Figures,
    number: u32,
    what: Whole,
    scratch: &mut Scratch,
    steps: &mut Steps<L>,
) -> Result<Figure, NoMemory>
    requires basis { IsBasis basis }
    requires ready { IsReadyOn basis figures.now number }
    requires at { StandsOn basis (points.Figure (nodes.Whole what)) number }
    requires plain { first_sum (nodes.Whole what) ≡ None }
    ensures figure { IfOk result (IsRightOn basis.entry number) }
    ensures step { OnOk result (steps.new ≡ steps.old + 1) }
{
    read_linked(figures, basis.links, number, &mut scratch.below)?;
    let node = Node::Whole(what);
    let below = &scratch.below;
    let span = plain_of(basis.inputs, &node, below.spans.as_slice(), steps);
    Ok(Figure {
        span,
        close: is_open_choice(&node, span) | below.close,
    })
}

/// The figure of the Block that has the number.
fn figure_of_block<L: Ledger>(
    basis: Basis<'_>,
    table: Rewritten<'_>,
    number: u32,
    steps: &mut Steps<L>,
) -> Figure
    requires basis { IsBasis basis }
    requires ready { IsReadyOn basis table.figures.now number }
    requires sums { basis.summed ≡ true → AreSumsOn basis (undone table.former.now table.figures.now) }
    requires block { (block : TheBlock) × StandsOn basis (points.Block block) number }
    ensures figure { IsRightOn basis.entry number result }
    ensures step { steps.new ≡ steps.old + 1 }
{
    let Some(block) = basis.numbers().block_at(number) else {
        unreachable!();
    };
    steps.tick();
    block_up(basis, table, number, &block)
}

/// The figure of the node that has the number.
fn figure_of_node<L: Ledger>(
    basis: Basis<'_>,
    figures: &Figures,
    number: u32,
    node: &Node,
    scratch: &mut Scratch,
    steps: &mut Steps<L>,
) -> Result<Figure, NoMemory>
    requires basis { IsBasis basis }
    requires ready { IsReadyOn basis figures.now number }
    requires at { StandsOn basis (points.Figure node.now) number }
    ensures figure { IfOk result (IsRightOn basis.entry number) }
    ensures step { OnOk result (steps.new ≡ steps.old + 1) }
{
    if let Some(first) = first_sum(node) {
        return Ok(summed_up(basis, figures, number, node, &first, steps));
    }
    read_plain(basis, figures, number, node, scratch)?;
    let below = &scratch.below;
    let span = plain_of(basis.inputs, node, below.spans.as_slice(), steps);
    Ok(Figure {
        span,
        close: is_open_choice(node, span) | below.close,
    })
}

/// Reads what a figure is reckoned from that is reckoned from no large sum.
fn read_plain(
    basis: Basis<'_>,
    figures: &Figures,
    number: u32,
    node: &Node,
    scratch: &mut Scratch,
) -> Result<(), NoMemory>
    requires basis { IsBasis basis }
    requires ready { IsReadyOn basis figures.now number }
    requires at { StandsOn basis (points.Figure node.now) number }
    requires plain { first_sum node.now ≡ None }
    ensures { OnOk result (AreSpansOf (reckoning_on basis.entry) (sources_in (rolled_of basis.entry.inputs.book.now) (points.Figure node.now)) scratch.new.below) }
{
    scratch.sources.clear();
    if !is_beside(node) {
        basis.graph().push_linked(&mut scratch.sources, number)?;
        return read(figures, scratch.sources.as_slice(), &mut scratch.below);
    }
    basis
        .graph()
        .push_beside(&mut scratch.sources, number, node)?;
    read(figures, scratch.sources.as_slice(), &mut scratch.below)
}
