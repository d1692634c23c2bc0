//! The points of an order, reckoned by several workers at once.
ghost use Rattle.std.specs.Prelude.{◌≡◌, ◌<◌, ◌≤◌, All, length, IfOk, OnOk, OnErr};
ghost use Rattle.scr_reachability.specs.LinkedDues.{numbers_of};
ghost use Rattle.scr_reachability.specs.Linked.{AreAt};
ghost use Rattle.scr_block_graph.specs.Books.{rolled_of};
ghost use Rattle.scr_block_graph.specs.Graph.{sources_in};
ghost use Rattle.scr_block_graph.specs.declared.point.Point.{Point as ThePoint};
ghost use Rattle.scr_tree.specs.Ready.{AreInTurnOn, AreKnownBut, AreSettledOn, IsBasis, IsOrderOn, IsReadyOn, IsRightOn, StandsOn};
ghost use Rattle.scr_tree.specs.Together.{AreDuesOn, AreSpansOn, IsDueOn, IsSpanOn, any_close};
ghost use Rattle.scr_reachability.specs.LinkedDues.{IsLiveAt};
ghost use Rattle.scr_tree.specs.Points.{book_graph};

use crate::basis::{Basis, Crew};
use crate::figures::{Figure, Figures};
use crate::order::Order;
use crate::reckoning::opens;
use crate::sums::span_of;
use scr_io::{Gate, Steps};
use scr_num::Span;
use scr_parallel::{Plan, spans_by};
use scr_reachability::Due;
use std::alloc::{AllocError as NoMemory, Global};
use std::sync::ledger::Ledger;
use std::thread::Threads;

/// Reckons the figures of an order, each as soon as those of its sources are known, and then writes them. All memory is taken
/// before the first is written.
pub(crate) fn reckon_together<R: Threads + Sync, G: Gate + Sync>(
    crew: &Crew<'_, R, G>,
    basis: Basis<'_>,
    order: Order,
    figures: &mut Figures,
) -> Result<(), NoMemory>
    requires basis { IsBasis basis }
    requires order { IsOrderOn basis order.numbers.items order.ends.items }
    requires known { AreKnownBut basis figures.old order.numbers.items }
    requires room { basis.places.now.size ≤ length figures.old }
    ensures settled { OnOk result (AreSettledOn basis.entry figures.new) }
    ensures count { length figures.new ≡ length figures.old }
    ensures err { OnErr result (figures.new ≡ figures.old) }
{
    let numbers = order.numbers.as_slice();
    let dues = dues_on(crew.alloc, basis, numbers)?;
    let spans = spans_of(crew, basis, figures, dues.as_slice())?;
    write_all(basis, figures, dues.as_slice(), spans.as_slice());
    Ok(())
}

/// The numbers with those of their sources.
fn dues_on(alloc: Global, basis: Basis<'_>, numbers: &[u32]) -> Result<Vec<Due>, NoMemory>
    requires basis { IsBasis basis }
    requires turn { AreInTurnOn basis numbers.now }
    ensures { IfOk result (λ dues. AreDuesOn basis.entry numbers.now dues.items) }
{
    let mut dues = Vec::with_capacity(alloc, numbers.len())?;
    for number in numbers {
        let sources = sources_at(alloc, basis, *number)?;
        dues.push(Due {
            number: *number,
            sources,
        })?;
    }
    Ok(dues)
}

fn sources_at(alloc: Global, basis: Basis<'_>, number: u32) -> Result<Vec<u32>, NoMemory>
    requires basis { IsBasis basis }
    requires live { IsLiveAt (book_graph (rolled_of basis.inputs.book.now)) (StandsOn basis) number }
    ensures { IfOk result (λ list. (point : ThePoint) → StandsOn basis.entry point number
        → AreAt (StandsOn basis.entry) list.items (sources_in (rolled_of basis.entry.inputs.book.now) point)) }
{
    let Some(point) = basis.numbers().point_at(number) else {
        unreachable!();
    };
    let mut sources = Vec::new(alloc);
    basis.graph().push_sources(&mut sources, number, &point)?;
    Ok(sources)
}

/// The spans of what is due at numbers each of which comes after those of its sources.
fn spans_of<R: Threads + Sync, G: Gate + Sync>(
    crew: &Crew<'_, R, G>,
    basis: Basis<'_>,
    figures: &Figures,
    dues: &[Due],
) -> Result<Vec<Span>, NoMemory>
    requires basis { IsBasis basis }
    requires turn { AreInTurnOn basis (numbers_of dues.now) }
    requires dues { AreDuesOn basis (numbers_of dues.now) dues.now }
    requires known { AreKnownBut basis figures.now (numbers_of dues.now) }
    ensures { IfOk result (λ spans. AreSpansOn basis.entry (numbers_of dues.now) spans.items) }
{
    let known = Known { basis, figures };
    spans_by(crew.rt, crew.alloc, crew.workers, &known, dues, crew.gate)
}

/// What is reckoned from, with the figures that are known.
#[derive(Clone, Copy)]
pub(crate) struct Known<'a> {
    basis: Basis<'a>,
    figures: &'a Figures,
}

impl<'a> Plan for Known<'a> {
    ghost use Rattle.scr_tree.specs.Together.{IsDueOn, IsKnownOn, ends_on};

    ghost worked = { λ known number. ends_on known.basis number };

    ghost is_known = { λ known number. IsKnownOn known.basis known.figures.now number };

    ghost is_due = { λ known due. IsDueOn known.basis due };

    fn known(&self, number: u32) -> Span {
        self.figures.span(number as usize)
    }

    fn rule<L: Ledger>(&self, due: &Due, below: &[Span], steps: &mut Steps<L>) -> Span {
        match self.basis.numbers().point_at(due.number) {
            Some(point) => span_of(self.basis.inputs, &point, below, steps),
            None => unreachable!(),
        }
    }
}

/// Writes the figures that have these spans, each after those of its sources.
fn write_all(basis: Basis<'_>, figures: &mut Figures, dues: &[Due], spans: &[Span])
    requires basis { IsBasis basis }
    requires turn { AreInTurnOn basis (numbers_of dues.now) }
    requires dues { AreDuesOn basis (numbers_of dues.now) dues.now }
    requires known { AreKnownBut basis figures.old (numbers_of dues.now) }
    requires room { basis.places.now.size ≤ length figures.old }
    requires spans { AreSpansOn basis (numbers_of dues.now) spans.now }
    ensures settled { AreSettledOn basis.entry figures.new }
    ensures count { length figures.new ≡ length figures.old }
{
    for k in 0..spans.len() {
        let figure = figure_with(basis, figures, &dues[k], spans[k]);
        figures.set(dues[k].number as usize, figure);
    }
}

/// The figure that is due and has this span. It rests on an open choice where it is one, or where one of its sources does.
fn figure_with(basis: Basis<'_>, figures: &Figures, due: &Due, span: Span) -> Figure
    requires basis { IsBasis basis }
    requires ready { IsReadyOn basis figures.now due.now.number }
    requires due { IsDueOn basis due.now }
    requires span { IsSpanOn basis due.now.number span }
    ensures { IsRightOn basis.entry due.now.number result }
{
    let close = rests_on_choice(figures, due.sources.as_slice());
    match basis.numbers().point_at(due.number) {
        Some(point) => Figure {
            span,
            close: opens(&point, span) || close,
        },
        None => unreachable!(),
    }
}

/// One of the figures at these numbers rests on an open choice.
fn rests_on_choice(figures: &Figures, sources: &[u32]) -> bool
    requires { All (λ source. source < length figures.now) sources.now }
    ensures { result ≡ any_close figures.now sources.now }
{
    for source in sources {
        if figures.is_close(*source as usize) {
            return true;
        }
    }
    false
}
