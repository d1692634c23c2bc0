//! The points that an edit reaches, reckoned in place, each once and after all that it is reckoned from.
ghost use Rattle.std.specs.Prelude.{◌≡◌, ℕ, ◌+◌, ◌<◌, ◌≤◌, ◌^◌, [], true, false, All, IfSome, Some, drop, length, slice_get, OnOk, OnErr};
ghost use Rattle.scr_num.specs.Rounding.{ends};
ghost use Rattle.scr_ids.specs.Ranges.{first};
ghost use Rattle.scr_ids.specs.declared.table.Table.TheVariants as ranged;
ghost use Rattle.scr_sum_tree.specs.declared.blocks.Level.TheVariants as levels;
ghost use Rattle.scr_block_graph.specs.Graph.{block_point};
ghost use Rattle.scr_block_graph.specs.declared.sum.Sum.TheVariants as sums;
ghost use Rattle.scr_tree.specs.Opening.{opens_in};
ghost use Rattle.scr_tree.specs.Order.{IsJournalKept, IsJournaled};
ghost use Rattle.scr_tree.specs.Renewed.{AreSumsOn};
ghost use Rattle.scr_tree.specs.Ready.{AreInTurnOn, AreKnownBut, AreSettledOn, IsBasis, IsOrderOn, IsReadyOn, IsRightOn, IsSquareOn, StandsOn, numbers_on};
ghost use Rattle.scr_tree.specs.AssetScales.{IsScaleOn};
ghost use Rattle.scr_tree.specs.Summed.{firsts_on};
ghost use Rattle.scr_tree.specs.SquareRun.{IsBlockRunOn, IsSquareAtOn, IsSquareRunOn};
ghost use Rattle.scr_tree.specs.Ceiling.{IsCeiling, IsCeilingBefore, IsWithinAt};
ghost use Rattle.scr_tree.specs.Still.{AreAllWithin, AreFirstStill, AreNext, AreNothingOn, ArePassed, AreStillOn};

use crate::added::added_over;
use crate::basis::{Basis, Crew};
use crate::figures::{Below, Figure, Figures, Inputs, is_open_choice, nothing};
use crate::first_links::ASSETS;
use crate::journal::{Former, Journal};
use crate::order::{Order, Sorted};
use crate::renewed::Rewritten;
use crate::single::figure_at;
use crate::sums::blocks_of;
use scr_block_graph::{Block, Point, Sum};
use scr_conc::Scale;
use scr_ids::{Places, Table};
use scr_io::{Gate, Steps};
use scr_num::Span;
use scr_rules::{concentration_scale, concentration_square};
use scr_sum_tree::{Level, blocks_at};
use std::alloc::{AllocError as NoMemory, Global};
use std::sync::ledger::Ledger;

/// For the totals of groups a ceiling that is kept leaves so much of what is above no threshold, that it holds where the assets fall a little.
const SLACK: u64 = 64;

/// A ceiling is looked after by what became another, as far as that is so few figures.
const FEW: usize = 64;

/// What the concentrations of all groups are measured by: the assets, and whether their figure rests on an open choice.
#[derive(Drop)]
pub(crate) struct AssetScale {
    scale: Scale,
    close: bool,
}

/// So many squares of groups are still: the totals are amounts of at most so many cents, which are above no threshold.
#[derive(Clone, Copy)]
pub(crate) struct Stillness {
    many: usize,
    most: u64,
}

impl Stillness {
    ghost use Rattle.std.specs.Prelude.{◌≡◌, IfSome, None};

    /// The ceiling of all totals, where the squares of all groups are still, which are so many.
    fn ceiling(&self, count: usize) -> Option<u64>
        ensures all { IfSome result (λ most. (self.now.many ≡ count) × (self.now.most ≡ most)) }
        ensures not { result ≡ None → self.now.many ≡ count → ⊥ }
    {
        if self.many == count {
            Some(self.most)
        } else {
            None
        }
    }
}

/// What is kept from one edit to the next. Room: for the numbers of the sources of one point, and their spans; for what is reached, and for
/// the former figures of that. And a ceiling, where one is known: the total of each group is an amount of at most so many cents, and its
/// square comes to nothing.
#[derive(Drop)]
pub(crate) struct Scratch {
    pub(crate) ceiling: Option<u64>,
    pub(crate) sources: Vec<u32>,
    pub(crate) below: Below,
    pub(crate) sorted: Sorted,
    pub(crate) order: Order,
    pub(crate) former: Vec<Former>,
}

impl Scratch {
    ghost use Rattle.std.specs.Prelude.{◌≡◌, None};

    pub(crate) fn new(alloc: Global) -> Scratch
        ensures { result.ceiling ≡ None }
    {
        Scratch {
            ceiling: None,
            sources: Vec::new(alloc),
            below: Below {
                spans: Vec::new(alloc),
                close: false,
            },
            sorted: Sorted::new(alloc),
            order: Order::new(alloc),
            former: Vec::new(alloc),
        }
    }
}

/// Reckons the points of an order in place, one after another, and takes a step for each. Where memory is refused, all figures are as
/// before.
pub(crate) fn reckon_in_place<R, G: Gate, L: Ledger>(
    crew: &Crew<'_, R, G>,
    basis: Basis<'_>,
    order: Order,
    figures: &mut Figures,
    scratch: &mut Scratch,
    steps: &mut Steps<L>,
) -> Result<(), NoMemory>
    requires basis { IsBasis basis }
    requires order { IsOrderOn basis order.numbers.items order.ends.items }
    requires known { AreKnownBut basis figures.old order.numbers.items }
    requires room { basis.places.now.size ≤ length figures.old }
    requires ceiling { IsCeiling basis.places.now figures.old scratch.old.ceiling }
    requires sums { basis.summed ≡ true → AreSumsOn basis figures.old }
    ensures settled { OnOk result (AreSettledOn basis.entry figures.new) }
    ensures ceiling { OnOk result (IsCeiling basis.entry.places.now figures.new scratch.new.ceiling) }
    ensures count { length figures.new ≡ length figures.old }
    ensures steps { OnOk result (steps.new ≡ steps.old + length order.numbers.items) }
    ensures err { OnErr result (figures.new ≡ figures.old) }
{
    let Order { numbers, ends } = order;
    let mut journal = Journal::new(crew.alloc, numbers, &mut scratch.former)?;
    match write_in_turn(basis, &mut journal, figures, scratch, crew.gate, steps) {
        Ok(()) => {
            let (numbers, former) = journal.into_room();
            scratch.order = Order { numbers, ends };
            scratch.former = former;
            Ok(())
        }
        Err(NoMemory) => {
            scratch.former = journal.undo(figures);
            Err(NoMemory)
        }
    }
}

fn write_in_turn<G: Gate, L: Ledger>(
    basis: Basis<'_>,
    journal: &mut Journal,
    figures: &mut Figures,
    scratch: &mut Scratch,
    gate: &G,
    steps: &mut Steps<L>,
) -> Result<(), NoMemory>
    requires basis { IsBasis basis }
    requires first { journal.old.next ≡ 0 }
    requires none { journal.old.former.items ≡ [] }
    requires turn { AreInTurnOn basis journal.old.numbers.items }
    requires known { AreKnownBut basis figures.old journal.old.numbers.items }
    requires room { basis.places.now.size ≤ length figures.old }
    requires ceiling { IsCeiling basis.places.now figures.old scratch.old.ceiling }
    requires sums { basis.summed ≡ true → AreSumsOn basis figures.old }
    ensures settled { OnOk result (AreSettledOn basis.entry figures.new) }
    ensures ceiling { OnOk result (IsCeiling basis.entry.places.now figures.new scratch.new.ceiling) }
    ensures steps { OnOk result (steps.new ≡ steps.old + length journal.old.numbers.items) }
    ensures journaled { IsJournaled journal.new.former.items figures.old figures.new }
{
    let ceiling = scratch.ceiling;
    let mut kept = None;
    while let Some(number) = journal.next_number() {
        if is_first_square(basis, number) {
            kept = write_square_sum(basis, ceiling, journal, figures, gate, steps);
        } else {
            let table = Rewritten {
                figures,
                former: journal.former(),
            };
            let figure = figure_at(basis, table, number, scratch, gate, steps)?;
            journal.write(figures, number, figure);
        }
    }
    scratch.ceiling = kept;
    Ok(())
}

/// The number is that of the square of the first group.
fn is_first_square(basis: Basis<'_>, number: u32) -> bool
    requires { IsBasis basis }
    ensures yes { result ≡ true → IsSquareOn basis.entry 0 number }
    ensures not { result ≡ false → IsSquareOn basis.entry 0 number → ⊥ }
{
    let count = basis.inputs.book.sheet().groups.len();
    if count == 0 {
        return false;
    }
    basis.places.first(Table::Group, 0) + 1 == number
}

/// Writes the squares of all groups, of which that of the first comes next, and the Blocks of the first level over them: as many of
/// either as come in their order. A ceiling is handed on where the squares of all come to nothing as before.
#[inline(never)]
fn write_square_sum<G: Gate, L: Ledger>(
    basis: Basis<'_>,
    ceiling: Option<u64>,
    journal: &mut Journal,
    figures: &mut Figures,
    gate: &G,
    steps: &mut Steps<L>,
) -> Option<u64>
    requires basis { IsBasis basis }
    requires turn { AreInTurnOn basis journal.old.numbers.items }
    requires first { IsSquareAtOn basis 0 journal.old.numbers.items journal.old.next }
    requires known { AreKnownBut basis figures.old (drop journal.old.next journal.old.numbers.items) }
    requires room { basis.places.now.size ≤ length figures.old }
    requires ceiling { IsCeilingBefore basis.places.now ceiling journal.old.former.items figures.old }
    ensures still { IfSome result (AreStillOn basis.entry) }
    ensures some { journal.old.next < journal.new.next }
    ensures known { AreKnownBut basis.entry figures.new (drop journal.new.next journal.old.numbers.items) }
    ensures numbers { journal.new.numbers.items ≡ journal.old.numbers.items }
    ensures journaled { IsJournalKept journal.old.former.items figures.old journal.new.former.items figures.new }
    ensures steps { steps.new + journal.old.next ≡ steps.old + journal.new.next }
{
    let kept = write_squares(basis, ceiling, journal, figures, gate, steps);
    write_blocks(basis, kept.is_some(), journal, figures, gate, steps);
    kept
}

/// Writes the squares of the groups in the first rows, of which that of the first comes next: as many as come in the order of the rows.
/// Tells a ceiling of the totals of all groups where the squares of all came to nothing before and do so now.
#[inline(never)]
fn write_squares<G: Gate, L: Ledger>(
    basis: Basis<'_>,
    ceiling: Option<u64>,
    journal: &mut Journal,
    figures: &mut Figures,
    gate: &G,
    steps: &mut Steps<L>,
) -> Option<u64>
    requires basis { IsBasis basis }
    requires turn { AreInTurnOn basis journal.old.numbers.items }
    requires first { IsSquareAtOn basis 0 journal.old.numbers.items journal.old.next }
    requires known { AreKnownBut basis figures.old (drop journal.old.next journal.old.numbers.items) }
    requires room { basis.places.now.size ≤ length figures.old }
    requires ceiling { IsCeilingBefore basis.places.now ceiling journal.old.former.items figures.old }
    ensures still { IfSome result (AreStillOn basis.entry) }
    ensures run { IsSquareRunOn basis.entry journal.old.numbers.items journal.old.next journal.new.next }
    ensures long { length figures.new ≡ length figures.old }
    ensures known { AreKnownBut basis.entry figures.new (drop journal.new.next journal.old.numbers.items) }
    ensures numbers { journal.new.numbers.items ≡ journal.old.numbers.items }
    ensures journaled { IsJournalKept journal.old.former.items figures.old journal.new.former.items figures.new }
    ensures steps { steps.new + journal.old.next ≡ steps.old + journal.new.next }
{
    basis.inputs.factors.known();
    let assets = scale_on(basis, figures);
    let firsts = basis.places.firsts(Table::Group);
    let count = firsts.len();
    let ceiling = ceiling_now(basis.places, ceiling, journal, figures);
    let still = still_from(&assets, ceiling, firsts, journal.left(), figures);
    pass_next(still.many, journal, gate, steps);
    let kept = still.ceiling(count);
    let mut row = still.many;
    while row < count {
        let number = firsts[row] + 1;
        if !journal.is_next(number) {
            return None;
        }
        gate.pass(number);
        steps.tick();
        let figure = square_at(basis, &assets, figures, row, number);
        journal.write(figures, number, figure);
        row += 1;
        row += pass_still(&assets, &firsts[row..], journal, figures, gate, steps);
    }
    kept
}

/// The ceiling, where it holds still: no group has a total that became another and is above it, or rests on an open choice.
fn ceiling_now(
    places: &Places,
    ceiling: Option<u64>,
    journal: &Journal,
    figures: &Figures,
) -> Option<u64>
    requires room { places.now.size ≤ length figures.now }
    requires before { IsCeilingBefore places.now ceiling journal.now.former.items figures.now }
    ensures { IsCeiling places.now figures.now result }
{
    let Some(most) = ceiling else {
        return None;
    };
    let former = journal.former();
    if former.len() > FEW {
        return None;
    }
    for was in former {
        if !is_within(places, figures, was.number, most) {
            return None;
        }
    }
    Some(most)
}

/// Where the number is that of a figure of a group, the group's total is an amount of at most so many cents, and its square comes to nothing.
fn is_within(places: &Places, figures: &Figures, number: u32, most: u64) -> bool
    requires { places.now.size ≤ length figures.now }
    ensures { result ≡ true → IsWithinAt places.now figures.now most number }
{
    // No number is that of two rows.
    places.len();
    let Some(place) = places.at(number) else {
        return true;
    };
    match place.table {
        Table::Group => {
            let first = places.first(Table::Group, place.row);
            figures.is_amount_before_nothing(first as usize, most)
        }
        _ => true,
    }
}

/// So many of the squares of the groups with these first numbers come first among the numbers, and came to nothing before as they do now.
/// Where there is a ceiling that is above no threshold that is told of all without a look at each.
fn still_from(
    assets: &AssetScale,
    ceiling: Option<u64>,
    firsts: &[u32],
    numbers: &[u32],
    figures: &Figures,
) -> Stillness
    requires low { All (λ first. first + 1 < 2 ^ 32) firsts.now }
    requires within { All (λ number. number < length figures.now) numbers.now }
    requires ceiling { IfSome ceiling (AreAllWithin figures.now firsts.now) }
    ensures { ArePassed assets.now figures.now firsts.now numbers.now result }
{
    // Where the figure of the assets rests on an open choice that of each square does.
    if assets.close {
        return Stillness { many: 0, most: 0 };
    }
    let free = assets.scale.free();
    if let Some(most) = ceiling {
        if most <= free && are_next(firsts, numbers) {
            return Stillness {
                many: firsts.len(),
                most,
            };
        }
    }
    let most = free - free / SLACK;
    Stillness {
        many: count_still(firsts, numbers, figures, most),
        most,
    }
}

/// The squares of all groups with these first numbers come first among the numbers.
fn are_next(firsts: &[u32], numbers: &[u32]) -> bool
    requires { All (λ first. first + 1 < 2 ^ 32) firsts.now }
    ensures yes { result ≡ true → AreNext firsts.now numbers.now }
    ensures not { result ≡ false → AreNext firsts.now numbers.now → ⊥ }
{
    let count = firsts.len();
    if numbers.len() < count {
        return false;
    }
    // Each is looked at: that goes for several at once.
    let mut are = true;
    for row in 0..count {
        are &= numbers[row] == firsts[row] + 1;
    }
    are
}

/// Passes over the squares of the groups with these first numbers that come next, and came to nothing before as they do now: so many.
/// They stay as they are.
fn pass_still<G: Gate, L: Ledger>(
    assets: &AssetScale,
    firsts: &[u32],
    journal: &mut Journal,
    figures: &Figures,
    gate: &G,
    steps: &mut Steps<L>,
) -> usize
    requires low { All (λ first. first + 1 < 2 ^ 32) firsts.now }
    requires within { All (λ number. number < length figures.now) (drop journal.old.next journal.old.numbers.items) }
    ensures passed { (most : ℕ) × ArePassed assets.now figures.now firsts.now (drop journal.old.next journal.old.numbers.items) (record { many = result; most = most }) }
    ensures next { journal.new.next ≡ journal.old.next + result }
    ensures numbers { journal.new.numbers.items ≡ journal.old.numbers.items }
    ensures former { journal.new.former.items ≡ journal.old.former.items }
    ensures steps { steps.new ≡ steps.old + result }
{
    let still = still_from(assets, None, firsts, journal.left(), figures);
    pass_next(still.many, journal, gate, steps);
    still.many
}

/// Passes over the next numbers, so many, with the gate and a step for each.
fn pass_next<G: Gate, L: Ledger>(many: usize, journal: &mut Journal, gate: &G, steps: &mut Steps<L>)
    requires { journal.old.next + many ≤ length journal.old.numbers.items }
    ensures next { journal.new.next ≡ journal.old.next + many }
    ensures numbers { journal.new.numbers.items ≡ journal.old.numbers.items }
    ensures former { journal.new.former.items ≡ journal.old.former.items }
    ensures steps { steps.new ≡ steps.old + many }
{
    pass_each(&journal.left()[..many], gate, steps);
    journal.pass(many);
}

/// How many of the squares of the groups with these first numbers, from the first on, come first among the numbers and come to nothing,
/// before as now: what is held of the group is an amount of at most so many cents, which are above no threshold.
#[inline(never)]
fn count_still(firsts: &[u32], numbers: &[u32], figures: &Figures, free: u64) -> usize
    requires low { All (λ first. first + 1 < 2 ^ 32) firsts.now }
    requires within { All (λ number. number < length figures.now) numbers.now }
    ensures { AreFirstStill figures.now free firsts.now numbers.now result }
{
    let count = firsts.len().min(numbers.len());
    for row in 0..count {
        let first = firsts[row];
        if numbers[row] != first + 1 {
            return row;
        }
        if !figures.is_amount_before_nothing(first as usize, free) {
            return row;
        }
    }
    count
}

/// Passes the gate for each of these numbers, and takes a step.
fn pass_each<G: Gate, L: Ledger>(numbers: &[u32], gate: &G, steps: &mut Steps<L>)
    ensures { steps.new ≡ steps.old + length numbers.now }
{
    for number in numbers {
        gate.pass(*number);
        steps.tick();
    }
}

/// What the concentrations of all groups are measured by, where the assets are known.
fn scale_on(basis: Basis<'_>, figures: &Figures) -> AssetScale
    requires basis { IsBasis basis }
    requires ready { (number : ℕ) × IsSquareOn basis 0 number × IsReadyOn basis figures.now number }
    ensures { IsScaleOn basis.entry result }
{
    basis.inputs.factors.known();
    let assets = figure_of(figures, ASSETS);
    AssetScale {
        scale: concentration_scale(assets.span),
        close: assets.close,
    }
}

/// The square of the concentration of the group in a row, which has the number, from the group's total.
fn square_at(
    basis: Basis<'_>,
    assets: &AssetScale,
    figures: &Figures,
    row: usize,
    number: u32,
) -> Figure
    requires basis { IsBasis basis }
    requires scale { IsScaleOn basis assets.now }
    requires row { row < length basis.inputs.book.now.sheet.groups }
    requires own { first basis.places.now ranged.Group row + 1 ≡ number }
    requires ready { IsReadyOn basis figures.now number }
    ensures { IsRightOn basis.entry number result }
{
    basis.inputs.factors.known();
    let Inputs { factors, book, .. } = basis.inputs;
    let group = book.sheet().groups.at(row);
    let total = figure_of(figures, number - 1);
    let span = concentration_square(factors, book, &assets.scale, group, total.span);
    Figure {
        span,
        close: assets.close | total.close,
    }
}

/// Writes the Blocks of the first level over the squares of all groups, which may be known to come to nothing: as many Blocks as come next
/// in their order.
fn write_blocks<G: Gate, L: Ledger>(
    basis: Basis<'_>,
    still: bool,
    journal: &mut Journal,
    figures: &mut Figures,
    gate: &G,
    steps: &mut Steps<L>,
)
    requires basis { IsBasis basis }
    requires still { still ≡ true → AreNothingOn basis }
    requires turn { AreInTurnOn basis journal.old.numbers.items }
    requires known { AreKnownBut basis figures.old (drop journal.old.next journal.old.numbers.items) }
    requires room { basis.places.now.size ≤ length figures.old }
    ensures run { IsBlockRunOn basis.entry journal.old.numbers.items journal.old.next journal.new.next }
    ensures known { AreKnownBut basis.entry figures.new (drop journal.new.next journal.old.numbers.items) }
    ensures numbers { journal.new.numbers.items ≡ journal.old.numbers.items }
    ensures journaled { IsJournalKept journal.old.former.items figures.old journal.new.former.items figures.new }
    ensures steps { steps.new + journal.old.next ≡ steps.old + journal.new.next }
{
    let numbers = basis.numbers();
    let sum = Sum::Squares;
    let members = numbers.lists.members(numbers.book, sum.roll());
    let count = members.len();
    let Some(blocks) = blocks_of(numbers, &sum) else {
        return;
    };
    for index in 0..blocks_at(count, Level::First) {
        let number = blocks.number(count, Level::First, index);
        if !journal.is_next(number) {
            return;
        }
        gate.pass(number);
        steps.tick();
        let figure = block_at(basis, still, figures, members, index as u32, number);
        journal.write(figures, number, figure);
    }
}

/// What a Block of the first level over the squares of all groups comes to, which has the number, from the first numbers of all groups. The
/// squares may be known to come to nothing.
fn block_at(
    basis: Basis<'_>,
    still: bool,
    figures: &Figures,
    members: &[u32],
    index: u32,
    number: u32,
) -> Figure
    requires basis { IsBasis basis }
    requires still { still ≡ true → AreNothingOn basis }
    requires members { members.now ≡ firsts_on (numbers_on basis) sums.Squares }
    requires own { StandsOn basis (block_point sums.Squares levels.First index) number }
    requires ready { IsReadyOn basis figures.now number }
    ensures { IsRightOn basis.entry number result }
{
    if still {
        return nothing();
    }
    let block = Block {
        sum: Sum::Squares,
        level: Level::First,
        index,
    };
    added_over(basis, figures, number, &block, members)
}

fn figure_of(figures: &Figures, number: u32) -> Figure
    requires { number < length figures.now }
    ensures { slice_get figures.now number ≡ Some result }
{
    figures.figure(number as usize)
}

/// The point is a choice that is open.
pub(crate) fn opens(point: &Point, span: Span) -> bool
    ensures { result ≡ opens_in point.now (ends span) }
{
    match point {
        Point::Figure(node) => is_open_choice(node, span),
        Point::Block(_) => false,
    }
}
