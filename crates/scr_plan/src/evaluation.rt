//! The figure of a node from the figures of its sources.
ghost use Rattle.std.specs.Prelude.{◌≡◌, ◌+◌, length, map};
ghost use Rattle.scr_num.specs.Rounding.{ends};
ghost use Rattle.scr_num.specs.Sums.{sum_ends};
ghost use Rattle.scr_discounts.specs.Kept.{AreDiscountsOf, all_discounts, rows_of};
ghost use Rattle.scr_sum_tree.specs.Blocks.{top_count};
ghost use Rattle.scr_rules.specs.Discounts.{discounts_in};
ghost use Rattle.scr_rules.specs.Fits.{Fits};
ghost use Rattle.scr_rules.specs.MarketFits.{FitsForeign};
ghost use Rattle.scr_rules.specs.MarketRules.{foreign_ends};
ghost use Rattle.scr_rules.specs.Rules.{amount_of, first_sum, other_sum, rule};
ghost use Rattle.scr_rules.specs.Worked.{worked};
ghost use Rattle.scr_sheet.specs.Validity.{Valid};
ghost use Rattle.scr_book.specs.Rolls.{AreRollsOf};
ghost use Rattle.scr_block_graph.specs.Books.{rolled_of};
ghost use Rattle.scr_block_graph.specs.Changed.{own_in};
ghost use Rattle.scr_block_graph.specs.Graph.{roll_in, sources_in, worth_in};
ghost use Rattle.scr_block_graph.specs.declared.point.Point.TheVariants as points;
ghost use Rattle.scr_block_graph.specs.declared.sum.Sum.TheVariants as sums;
ghost use Rattle.scr_plan.specs.Rules.{discounts_at};

use crate::{Curves, Direction, Figure, Measure, Node, OfCurrency};
use scr_book::Book;
use scr_factors::Factors;
use scr_io::Steps;
use scr_num::{Span, total};
use scr_rules::foreign_by_sums;
use scr_sheet::{Name, Roll};
use scr_sum_tree::top_count;
use std::sync::ledger::Ledger;

/// The figure of a node by its rule, from its sources' figures in order and the currencies' discounts; the sum for a block. Worked
/// figures of its sources and the discounts of all curves give its worked figure. It counts as one step.
pub fn evaluate<L: Ledger>(
    factors: &Factors,
    book: &Book,
    curves: &Curves,
    node: Node,
    spans: &[Span],
    steps: &mut Steps<L>,
) -> Span
    requires rows { AreDiscountsOf book.now.sheet.curves (rows_of curves.now) }
    requires fits { Fits (own_in factors.now (rolled_of book.now) node) (map ends spans.now) }
    ensures rule { ends result ≡ rule (own_in factors.now (rolled_of book.now) node)
        (discounts_at book.now.sheet (rows_of curves.now) node) (map ends spans.now) }
    ensures worked { rows_of curves.now ≡ all_discounts book.now.sheet
        → map ends spans.now ≡ map (worth_in sum_ends (worked factors.now book.now.sheet) (rolled_of book.now)) (sources_in (rolled_of book.now) node)
        → ends result ≡ worth_in sum_ends (worked factors.now book.now.sheet) (rolled_of book.now) node }
    ensures step { steps.new ≡ steps.old + 1 }
{
    known(book);
    by_rule(factors, book, curves, &node, spans, steps)
}

/// Brings the invariant of the book into sight: the sheet is valid, and the lists have its members.
fn known(book: &Book)
    ensures valid { Valid book.now.sheet }
    ensures rolls { AreRollsOf book.now.sheet book.now.rolls }
{
    book.sheet();
    book.roll_number(Roll::Groups);
}

/// The figure of a node by its rule alone.
fn by_rule<L: Ledger>(
    factors: &Factors,
    book: &Book,
    curves: &Curves,
    node: &Node,
    spans: &[Span],
    steps: &mut Steps<L>,
) -> Span
    requires rows { AreDiscountsOf book.now.sheet.curves (rows_of curves.now) }
    requires fits { Fits (own_in factors.now (rolled_of book.now) node.now) (map ends spans.now) }
    ensures rule { ends result ≡ rule (own_in factors.now (rolled_of book.now) node.now)
        (discounts_at book.now.sheet (rows_of curves.now) node.now) (map ends spans.now) }
    ensures step { steps.new ≡ steps.old + 1 }
{
    match node {
        Node::Block(_) => {
            steps.tick();
            total(spans)
        }
        Node::Figure(figure) => figure_of(factors, book, curves, figure, spans, steps),
    }
}

/// The figure of a node of the balance sheet by its rule. A foreign currency's scenario takes blocks among its sources.
fn figure_of<L: Ledger>(
    factors: &Factors,
    book: &Book,
    curves: &Curves,
    figure: &Figure,
    spans: &[Span],
    steps: &mut Steps<L>,
) -> Span
    requires rows { AreDiscountsOf book.now.sheet.curves (rows_of curves.now) }
    requires fits { Fits (own_in factors.now (rolled_of book.now) (points.Figure figure.now)) (map ends spans.now) }
    ensures rule { ends result ≡ rule (own_in factors.now (rolled_of book.now) (points.Figure figure.now))
        (discounts_in book.now.sheet (rows_of curves.now) figure.now) (map ends spans.now) }
    ensures step { steps.new ≡ steps.old + 1 }
{
    match figure {
        Figure::Currency(currency, OfCurrency::Scenario(direction, Measure::Gross)) => {
            steps.tick();
            foreign(book, currency, *direction, spans)
        }
        _ => scr_rules::evaluate(factors, book, curves, *figure, spans, steps),
    }
}

/// The loss by a change of a foreign currency, in a direction: sources for its securities come first, then sources for its
/// liabilities.
fn foreign(book: &Book, currency: &Name, direction: Direction, spans: &[Span]) -> Span
    requires { FitsForeign (top_count (length (roll_in (rolled_of book.now) (sums.Assets currency.now)))) (map ends spans.now) }
    ensures { ends result ≡ foreign_ends direction
        (amount_of (first_sum (top_count (length (roll_in (rolled_of book.now) (sums.Assets currency.now)))) (map ends spans.now)))
        (other_sum (top_count (length (roll_in (rolled_of book.now) (sums.Assets currency.now)))) (map ends spans.now)) }
{
    let count = top_count(book.roll(Roll::Assets(*currency)).len());
    let held = total(&spans[..count]);
    let owed = total(&spans[count..]);
    foreign_by_sums(direction, held, owed)
}
