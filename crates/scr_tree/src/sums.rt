//! What large sums come to: over their members with all Blocks written, and by the rule of the figure that is reckoned from them.
ghost use Rattle.std.specs.Prelude.{◌≡◌, ◌+◌, ◌≤◌, IfSome, IsNone, None, Some, is_some, length, map, true};
ghost use Rattle.scr_sum_tree.specs.Blocks.{blocks_at};
ghost use Rattle.scr_sum_tree.specs.declared.blocks.Level.TheVariants as levels;
ghost use Rattle.scr_num.specs.Rounding.{ends};
ghost use Rattle.scr_num.specs.Sums.{sum_ends};
ghost use Rattle.scr_factors.specs.Values.{IsInForm};
ghost use Rattle.scr_sheet.specs.Validity.{Valid};
ghost use Rattle.scr_nodes.specs.Live.{is_live};
ghost use Rattle.scr_rules.specs.Worked.{worked};
ghost use Rattle.scr_block_graph.specs.Books.{rolled_of};
ghost use Rattle.scr_block_graph.specs.Graph.{is_live_in, reads, roll_in, sources_in, worth_in};
ghost use Rattle.scr_block_graph.specs.Sums.{first_sum, second_sum};
ghost use Rattle.scr_partial_sums.specs.Written.{AreNumbered};
ghost use Rattle.scr_block_graph.specs.declared.point.Point.TheVariants as points;
ghost use Rattle.scr_book.specs.Rolls.{AreRollsOf};
ghost use Rattle.scr_tree.specs.Inputs.{AreOfBook};
ghost use Rattle.scr_tree.specs.Points.{AreNumbersOf};
ghost use Rattle.scr_tree.specs.Summed.{AreBlocksOn, AreMembersOn, AreOwnBlocks, KeepsOffBlocksOn, foreign_of, sum_on, summed_in};

use crate::figures::{Figures, Inputs};
use crate::graph::{Numbers, member_family};
use scr_block_graph::{Point, Sum, first_sum, sum_place};
use scr_io::{Gate, Steps};
use scr_nodes::{Direction, Measure, Node, OfCurrency};
use scr_num::{Span, total};
use scr_partial_sums::{Subtotals, add_members};
use scr_rules::{evaluate_by, foreign_by_sums};
use scr_sum_tree::{Level, blocks_at, top_count};
use std::sync::ledger::Ledger;

/// The Blocks of a sum by number, where its list may fall into Blocks.
pub(crate) fn blocks_of<'a>(numbers: Numbers<'a>, sum: &Sum) -> Option<Subtotals<'a>>
    requires numbers { AreNumbersOf numbers.book.now numbers.places.now numbers.lists.now }
    requires valid { Valid numbers.book.now.sheet }
    ensures there { IfSome result (λ blocks. AreOwnBlocks numbers.entry sum.now blocks) }
    ensures absent { IsNone result → blocks_at (length (roll_in (rolled_of numbers.entry.book.now) sum.now)) levels.First ≡ 0 }
{
    let parts = numbers.lists.parts();
    // Each slot is one part's, and each number one row's.
    let _slots = parts.len();
    let _size = numbers.places.len();
    let found = sum_place(numbers.book, sum)?;
    Some(Subtotals {
        parts,
        places: numbers.places,
        list: found.0,
        own: found.1,
    })
}

/// Writes all Blocks under a sum. The gate is passed before each.
pub(crate) fn put_blocks<G: Gate>(numbers: Numbers<'_>, figures: &mut Figures, sum: &Sum, gate: &G)
    requires numbers { AreNumbersOf numbers.book.now numbers.places.now numbers.lists.now }
    requires valid { Valid numbers.book.now.sheet }
    requires reads { reads numbers.book.now.sheet sum.now ≡ true }
    requires count { numbers.places.now.size ≤ length figures.old }
    requires members { AreMembersOn numbers sum.now figures.old }
    ensures blocks { AreBlocksOn numbers.entry sum.now figures.old figures.new }
    ensures others { KeepsOffBlocksOn numbers.entry sum.now figures.old figures.new }
{
    let firsts = numbers.lists.members(numbers.book, sum.roll());
    let count = blocks_at(firsts.len(), Level::First);
    // Most lists are too short for Blocks.
    if count == 0 {
        return;
    }
    pass_blocks(numbers, sum, gate);
    match blocks_of(numbers, sum) {
        Some(blocks) => blocks.put_all(figures, firsts, member_family(sum)),
        None => (),
    }
}

/// Passes the gate before each Block under a sum.
pub(crate) fn pass_blocks<G: Gate>(numbers: Numbers<'_>, sum: &Sum, gate: &G)
    requires numbers { AreNumbersOf numbers.book.now numbers.places.now numbers.lists.now }
    requires valid { Valid numbers.book.now.sheet }
{
    let members = numbers.lists.members(numbers.book, sum.roll());
    let count = members.len();
    match blocks_of(numbers, sum) {
        Some(blocks) => {
            pass_level(&blocks, count, Level::First, gate);
            pass_level(&blocks, count, Level::Second, gate);
        }
        None => (),
    }
}

fn pass_level<G: Gate>(blocks: &Subtotals<'_>, count: usize, level: Level, gate: &G)
    requires { AreNumbered blocks.now count }
{
    for index in 0..blocks_at(count, level) {
        gate.pass(blocks.number(count, level, index));
    }
}

/// What a sum comes to whose Blocks are there.
pub(crate) fn sum_there(numbers: Numbers<'_>, figures: &Figures, sum: &Sum) -> Span
    requires numbers { AreNumbersOf numbers.book.now numbers.places.now numbers.lists.now }
    requires valid { Valid numbers.book.now.sheet }
    requires reads { reads numbers.book.now.sheet sum.now ≡ true }
    requires count { numbers.places.now.size ≤ length figures.now }
    requires members { AreMembersOn numbers sum.now figures.now }
    requires blocks { AreBlocksOn numbers sum.now figures.now figures.now }
    ensures { ends result ≡ sum_on numbers.entry sum.now figures.now }
{
    let firsts = numbers.lists.members(numbers.book, sum.roll());
    let family = member_family(sum);
    match blocks_of(numbers, sum) {
        Some(blocks) => blocks.sum(figures, firsts, family),
        None => add_members(figures, firsts, family),
    }
}

/// Does nothing: its contract says what is known of the factors and of the book.
fn known(inputs: Inputs<'_>)
    ensures form { IsInForm inputs.entry.factors.now }
    ensures valid { Valid inputs.entry.book.now.sheet }
    ensures rolls { AreRollsOf inputs.entry.book.now.sheet inputs.entry.book.now.rolls }
{
    inputs.factors.known();
    inputs.book.sheet();
    inputs.book.group_seats();
}

/// The direction of a currency's change that the figure is the cost of: its rule sees two sums, and each other one sees one.
fn foreign_of(node: &Node) -> Option<Direction>
    ensures { result ≡ foreign_of node.now }
{
    match node {
        Node::Currency(_, OfCurrency::Scenario(direction, Measure::Gross)) => Some(*direction),
        _ => None,
    }
}

/// A figure by its rule, from what the large sums come to that it is reckoned from; a second one that it has not comes to nothing. It
/// counts as one step.
pub(crate) fn by_sums<L: Ledger>(
    inputs: Inputs<'_>,
    node: &Node,
    held: Span,
    owed: Span,
    steps: &mut Steps<L>,
) -> Span
    requires inputs { AreOfBook inputs }
    requires live { is_live inputs.book.now.sheet node.now ≡ true }
    requires summed { is_some (first_sum node.now) ≡ true }
    requires held { ends held ≡ summed_in inputs.factors.now inputs.book.now (first_sum node.now) }
    requires owed { ends owed ≡ summed_in inputs.factors.now inputs.book.now (second_sum node.now) }
    ensures span { ends result ≡ worked inputs.entry.factors.now inputs.entry.book.now.sheet node.now }
    ensures step { steps.new ≡ steps.old + 1 }
{
    known(inputs);
    let Inputs {
        factors,
        book,
        rates,
    } = inputs;
    match foreign_of(node) {
        Some(direction) => {
            steps.tick();
            foreign_by_sums(direction, held, owed)
        }
        None => evaluate_by(factors, book, rates, *node, &[held, owed], steps),
    }
}

/// The span of a figure or a Block from those of its sources. It counts as one step.
pub(crate) fn span_of<L: Ledger>(
    inputs: Inputs<'_>,
    point: &Point,
    below: &[Span],
    steps: &mut Steps<L>,
) -> Span
    requires inputs { AreOfBook inputs }
    requires live { is_live_in (rolled_of inputs.book.now) point.now ≡ true }
    requires below { map ends below.now ≡ map (worth_in sum_ends (worked inputs.factors.now inputs.book.now.sheet) (rolled_of inputs.book.now))
        (sources_in (rolled_of inputs.book.now) point.now) }
    ensures span { ends result ≡ worth_in sum_ends (worked inputs.entry.factors.now inputs.entry.book.now.sheet) (rolled_of inputs.entry.book.now) point.now }
    ensures step { steps.new ≡ steps.old + 1 }
{
    match point {
        Point::Block(_) => {
            known(inputs);
            steps.tick();
            total(below)
        }
        Point::Figure(node) => figure_of(inputs, node, below, steps),
    }
}

/// The same of a figure.
fn figure_of<L: Ledger>(
    inputs: Inputs<'_>,
    node: &Node,
    below: &[Span],
    steps: &mut Steps<L>,
) -> Span
    requires inputs { AreOfBook inputs }
    requires live { is_live inputs.book.now.sheet node.now ≡ true }
    requires below { map ends below.now ≡ map (worth_in sum_ends (worked inputs.factors.now inputs.book.now.sheet) (rolled_of inputs.book.now))
        (sources_in (rolled_of inputs.book.now) (points.Figure node.now)) }
    ensures span { ends result ≡ worked inputs.entry.factors.now inputs.entry.book.now.sheet node.now }
    ensures step { steps.new ≡ steps.old + 1 }
{
    match first_sum(node) {
        Some(first) => by_tops(inputs, node, &first, below, steps),
        None => plain_of(inputs, node, below, steps),
    }
}

/// The same of one that is reckoned from no large sum.
pub(crate) fn plain_of<L: Ledger>(
    inputs: Inputs<'_>,
    node: &Node,
    below: &[Span],
    steps: &mut Steps<L>,
) -> Span
    requires inputs { AreOfBook inputs }
    requires live { is_live inputs.book.now.sheet node.now ≡ true }
    requires plain { first_sum node.now ≡ None }
    requires below { map ends below.now ≡ map (worth_in sum_ends (worked inputs.factors.now inputs.book.now.sheet) (rolled_of inputs.book.now))
        (sources_in (rolled_of inputs.book.now) (points.Figure node.now)) }
    ensures span { ends result ≡ worked inputs.entry.factors.now inputs.entry.book.now.sheet node.now }
    ensures step { steps.new ≡ steps.old + 1 }
{
    known(inputs);
    let Inputs {
        factors,
        book,
        rates,
    } = inputs;
    evaluate_by(factors, book, rates, *node, below, steps)
}

/// The same of one that is reckoned from this sum, or from this and a second one: what is left of the first stands in front.
fn by_tops<L: Ledger>(
    inputs: Inputs<'_>,
    node: &Node,
    first: &Sum,
    below: &[Span],
    steps: &mut Steps<L>,
) -> Span
    requires inputs { AreOfBook inputs }
    requires live { is_live inputs.book.now.sheet node.now ≡ true }
    requires first { first_sum node.now ≡ Some first.now }
    requires below { map ends below.now ≡ map (worth_in sum_ends (worked inputs.factors.now inputs.book.now.sheet) (rolled_of inputs.book.now))
        (sources_in (rolled_of inputs.book.now) (points.Figure node.now)) }
    ensures span { ends result ≡ worked inputs.entry.factors.now inputs.entry.book.now.sheet node.now }
    ensures step { steps.new ≡ steps.old + 1 }
{
    known(inputs);
    let members = inputs.book.roll(first.roll());
    let count = top_count(members.len());
    let front = &below[..count];
    let back = &below[count..];
    let held = total(front);
    let owed = total(back);
    by_sums(inputs, node, held, owed, steps)
}
