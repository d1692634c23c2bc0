//! The figures that are known, each at its number, and one figure reckoned from those of its sources.
ghost use Rattle.std.specs.Prelude.{◌≡◌, ◌+◌, ◌<◌, ◌||◌, true, false, All, length, pos, IfOk, OnOk};
ghost use Rattle.scr_num.specs.Rounding.{ends, exact_ends};
ghost use Rattle.scr_nodes.specs.Live.{is_live};
ghost use Rattle.scr_nodes.specs.Sources.{sources_of};
ghost use Rattle.scr_reachability.specs.Linked.{sources_in as linked_in};
ghost use Rattle.scr_rules.specs.Close.{is_open as open_mask};
ghost use Rattle.scr_tree.specs.Figures.{AreReadAt, AreSpansOf, opens, reckoning_of, worth_at, worth_of};
ghost use Rattle.scr_tree.specs.Inputs.{AreOfBook};

use scr_book::Book;
use scr_factors::Factors;
use scr_io::{Gate, Steps};
use scr_links::Links;
use scr_nodes::{Node, OfCurrency, Whole};
use scr_num::{Span, exact};
pub(crate) use scr_partial_sums::{Figure, Figures};
use scr_rules::{Rates, evaluate_by};
use std::alloc::{AllocError as NoMemory, Global};
use std::sync::ledger::Ledger;

/// No figure is known of so many numbers.
pub(crate) fn no_figures(alloc: Global, size: u32) -> Result<Figures, NoMemory>
    ensures { IfOk result (λ figures. length figures ≡ size) }
{
    Figures::new(alloc, size as usize)
}

/// The figure that comes to nothing: what no figures come to together.
pub(crate) fn nothing() -> Figure
    ensures span { ends result.span ≡ exact_ends (pos 0) }
    ensures close { result.close ≡ false }
{
    Figure {
        span: exact(0),
        close: false,
    }
}

/// What figures are reckoned from beside those of their sources.
#[derive(Clone, Copy)]
pub(crate) struct Inputs<'a> {
    pub(crate) factors: &'a Factors,
    pub(crate) book: &'a Book,
    pub(crate) rates: &'a Rates,
}

/// The spans of a figure's sources, and whether one of them rests on a choice that is open.
#[derive(Drop)]
pub(crate) struct Below {
    pub(crate) spans: Vec<Span>,
    pub(crate) close: bool,
}

impl Below {
    ghost use Rattle.std.specs.Prelude.{◌≡◌, ◌||◌, ◌∷◌, ◌++◌, [], false, OnOk};

    /// Of no figure.
    pub(crate) fn clear(&mut self)
        ensures spans { self.new.spans.items ≡ [] }
        ensures close { self.new.close ≡ false }
    {
        self.spans.clear();
        self.close = false;
    }

    /// Room for so many figures more.
    pub(crate) fn reserve(&mut self, more: usize) -> Result<(), NoMemory>
        ensures spans { self.new.spans.items ≡ self.old.spans.items }
        ensures close { self.new.close ≡ self.old.close }
    {
        self.spans.reserve(more)
    }

    /// Of one figure more.
    pub(crate) fn push(&mut self, figure: &Figure) -> Result<(), NoMemory>
        ensures spans { OnOk result (self.new.spans.items ≡ self.old.spans.items ++ figure.now.span ∷ []) }
        ensures close { OnOk result (self.new.close ≡ (self.old.close || figure.now.close)) }
    {
        self.spans.push(figure.span)?;
        self.close |= figure.close;
        Ok(())
    }
}

/// Reads the figures at these numbers, in their order.
pub(crate) fn read(figures: &Figures, numbers: &[u32], below: &mut Below) -> Result<(), NoMemory>
    requires { All (λ number. number < length figures.now) numbers.now }
    ensures { OnOk result (AreReadAt figures.now numbers.now below.new) }
{
    below.clear();
    below.reserve(numbers.len())?;
    for number in numbers {
        below.push(&figures.figure(*number as usize))?;
    }
    Ok(())
}

/// Reads the figures that are linked to a number, in the order of its links.
pub(crate) fn read_linked(
    figures: &Figures,
    links: &Links,
    number: u32,
    below: &mut Below,
) -> Result<(), NoMemory>
    requires { All (λ source. source < length figures.now) (linked_in links.now.edges number) }
    ensures { OnOk result (AreReadAt figures.now (linked_in links.now.edges number) below.new) }
{
    below.clear();
    for (source, _) in links.sources(number) {
        below.push(&figures.figure(source as usize))?;
    }
    Ok(())
}

/// The figure of a node by its rule, where those of its sources are known. The gate is passed before it is evaluated.
pub(crate) fn reckoned<G: Gate, L: Ledger>(
    inputs: Inputs<'_>,
    below: &Below,
    number: u32,
    node: &Node,
    gate: &G,
    steps: &mut Steps<L>,
) -> Figure
    requires inputs { AreOfBook inputs }
    requires live { is_live inputs.book.now.sheet node.now ≡ true }
    requires below { AreSpansOf (reckoning_of inputs.factors.now inputs.book.now.sheet) (sources_of inputs.book.now.sheet node.now) below.now }
    ensures figure { worth_of result ≡ worth_at inputs.entry.factors.now inputs.entry.book.now.sheet node.now }
    ensures step { steps.new ≡ steps.old + 1 }
{
    inputs.factors.known();
    inputs.book.sheet();
    gate.pass(number);
    let span = evaluate_by(
        inputs.factors,
        inputs.book,
        inputs.rates,
        *node,
        below.spans.as_slice(),
        steps,
    );
    Figure {
        span,
        close: is_close(node, span, below),
    }
}

/// The figure is a choice that is open, or one of those below rests on one.
fn is_close(node: &Node, span: Span, below: &Below) -> bool
    ensures { result ≡ (opens node.now (ends span) || below.now.close) }
{
    is_open_choice(node, span) || below.close
}

/// The mask of a choice of which two or more alternatives may decide.
pub(crate) fn is_open_choice(node: &Node, span: Span) -> bool
    ensures { result ≡ opens node.now (ends span) }
{
    match node {
        Node::Whole(Whole::Choice(_))
        | Node::Currency(_, OfCurrency::Choice)
        | Node::Whole(Whole::DefaultBand) => is_open(span),
        _ => false,
    }
}

fn is_open(mask: Span) -> bool
    ensures { result ≡ open_mask (ends mask) }
{
    mask.low.max(0).unsigned_abs().count_ones() >= 2
}
