//! The figures of a book, all reckoned for the first time: totals, rows, and then the large sums with their Blocks and all that is
//! reckoned from them in its order. Several workers share out the rows.
ghost use Rattle.std.specs.Prelude.{◌≡◌, ◌+◌, ◌<◌, length, IfOk, OnOk};
ghost use Rattle.scr_discounts.specs.KeptRates.{all_rates, known_of};
ghost use Rattle.scr_parallel.specs.Rows.{AreAllRows, rows_from};
ghost use Rattle.scr_rules.specs.GroupLosses.{AreLossesOf};
ghost use Rattle.scr_tree.specs.First.{AreDone, AreDoneTo, AreLinkedTo, AreNumbered, AreReckonedTo, AreRowsDone, HaveRoom, IsFound, IsGathered, IsGround, IsLinkGround, IsLinkedGround, IsWhole, link_ground, totals_of};
ghost use Rattle.scr_tree.specs.Opened.{IsOpened};
ghost use Rattle.scr_tree.specs.RowSpans.{IsRowGround, IsRowOf, row_count};
ghost use Rattle.scr_tree.specs.Turns.{turn};
ghost use Rattle.scr_tree.specs.Written.{IsWrittenOf};

use crate::basis::Crew;
use crate::figures::{Below, Figures, Inputs, no_figures};
use crate::first_links::{ASSETS, OF_CURRENCY, WHOLES, all_links};
use crate::first_parts::{write_parts, write_row};
use crate::first_totals::enter_totals;
use crate::groups::put_groups;
use crate::left::put_left;
use crate::making::{Ground, LinkedGround, Made, Making, put_live, put_summed};
use crate::passes::pass_found;
use crate::row_spans::RowGround;
use scr_book::Book;
use scr_factors::Factors;
use scr_figure_ids::gathered::{Members, members_of};
use scr_figure_ids::{currency_at, places_of, whole_at};
use scr_ids::Places;
use scr_io::{Gate, OpenGate, Steps};
use scr_links::Links;
use scr_look_through::totals;
use scr_member_index::{Lists, lists_of};
use scr_nodes::{Node, Whole};
use scr_num::Span;
use scr_parallel::{Part, RowPlan, Sort, reckon_rows};
use scr_rules::{GroupLosses, Rates, group_losses, rates};
use std::alloc::{AllocError as NoMemory, Global};
use std::marker::Brand;
use std::mem::drop;
use std::sync::ledger::{Blank, Ledger};
use std::thread::{Threads, join};

/// What an engine keeps beside its factors and its book.
#[derive(Drop)]
pub(crate) struct Opened {
    pub(crate) rates: Rates,
    pub(crate) places: Places,
    pub(crate) lists: Lists,
    pub(crate) figures: Figures,
    pub(crate) links: Links,
}

/// The rows by which totals and the losses of classes are linked, and the totals of all funds and securities in cents.
#[derive(Drop)]
struct Gathered {
    members: Members,
    totals: Vec<u64>,
}

/// The numbers of all figures, and the lists of members.
#[derive(Drop)]
struct Numbering {
    places: Places,
    lists: Lists,
}

/// What is found before any figure is reckoned, with room for all figures.
#[derive(Drop)]
struct Found {
    rates: Rates,
    losses: GroupLosses,
    numbering: Numbering,
    gathered: Gathered,
    figures: Figures,
}

/// All figures of a book with their links. The gate is passed once for each. Only want of memory is refused.
pub(crate) fn reckon_all<R: Threads + Sync, G: Gate + Sync>(
    crew: &Crew<'_, R, G>,
    factors: &Factors,
    book: &Book,
) -> Result<Opened, NoMemory>
    ensures { IfOk result (IsOpened factors.now book.now) }
{
    let alloc = crew.alloc;
    factors.known();
    let found = found_beside(crew, factors, book)?;
    let Found {
        rates,
        losses,
        numbering,
        gathered,
        figures,
    } = found;
    let Numbering { places, lists } = numbering;
    let Gathered { members, totals } = gathered;
    // The sheet is valid, no number is that of two rows, no slot that of two parts, and the lists are those of the rows.
    book.sheet();
    places.len();
    lists.parts().len();
    book.group_seats();
    let ground = Ground {
        alloc,
        inputs: Inputs {
            factors,
            book,
            rates: &rates,
        },
        places: &places,
        lists: &lists,
        members: &members,
        losses: &losses,
    };
    let made = make_all::<R, G, Brand>(crew, ground, totals, figures, Blank::new(1))?;
    Ok(Opened {
        rates,
        places,
        lists,
        figures: made.figures,
        links: made.links,
    })
}

/// What is found before any figure is reckoned: by several workers rates and losses beside all others.
fn found_beside<R: Threads + Sync, G: Gate + Sync>(
    crew: &Crew<'_, R, G>,
    factors: &Factors,
    book: &Book,
) -> Result<Found, NoMemory>
    ensures { IfOk result (IsFound book.now) }
{
    let alloc = crew.alloc;
    if crew.workers == 1 {
        return found_in_turn(alloc, factors, book);
    }
    let pricing = move || -> Result<(Rates, GroupLosses), NoMemory>
        ensures rates { IfOk result (λ all. known_of all.0 ≡ all_rates book.entry.now.sheet) }
        ensures losses { IfOk result (λ all. AreLossesOf book.entry.now.sheet all.1) }
    { rates_and_losses(alloc, factors, book) };
    let numbering = move || -> Result<(Numbering, Gathered, Figures), NoMemory>
        ensures numbering { IfOk result (λ all. AreNumbered book.entry.now all.0) }
        ensures gathered { IfOk result (λ all. IsGathered book.entry.now.sheet all.1) }
        ensures room { IfOk result (λ all. HaveRoom all.0 all.2) }
    { numbered_rows(alloc, book) };
    let (priced, rows) = join(crew.rt, pricing, numbering);
    let (rates, losses) = priced?;
    let (numbering, gathered, figures) = rows?;
    Ok(Found {
        rates,
        losses,
        numbering,
        gathered,
        figures,
    })
}

/// The same on this thread.
fn found_in_turn(alloc: Global, factors: &Factors, book: &Book) -> Result<Found, NoMemory>
    ensures { IfOk result (IsFound book.now) }
{
    let numbering = numbering_of(alloc, book)?;
    let rates = rates(alloc, factors, book)?;
    let gathered = gather_all(alloc, book)?;
    let losses = group_losses(alloc, book)?;
    let figures = no_figures(alloc, numbering.places.len())?;
    Ok(Found {
        rates,
        losses,
        numbering,
        gathered,
        figures,
    })
}

/// The rates and the losses of groups.
fn rates_and_losses(
    alloc: Global,
    factors: &Factors,
    book: &Book,
) -> Result<(Rates, GroupLosses), NoMemory>
    ensures rates { IfOk result (λ all. known_of all.0 ≡ all_rates book.now.sheet) }
    ensures losses { IfOk result (λ all. AreLossesOf book.now.sheet all.1) }
{
    let known = rates(alloc, factors, book)?;
    let losses = group_losses(alloc, book)?;
    Ok((known, losses))
}

/// What rests on the rows alone, with room for all figures.
fn numbered_rows(alloc: Global, book: &Book) -> Result<(Numbering, Gathered, Figures), NoMemory>
    ensures numbering { IfOk result (λ all. AreNumbered book.now all.0) }
    ensures gathered { IfOk result (λ all. IsGathered book.now.sheet all.1) }
    ensures room { IfOk result (λ all. HaveRoom all.0 all.2) }
{
    let numbering = numbering_of(alloc, book)?;
    let gathered = gather_all(alloc, book)?;
    let figures = no_figures(alloc, numbering.places.len())?;
    Ok((numbering, gathered, figures))
}

/// The numbers of all figures, and the lists of members with those of their parts.
fn numbering_of(alloc: Global, book: &Book) -> Result<Numbering, NoMemory>
    ensures { IfOk result (AreNumbered book.now) }
{
    let mut places = places_of(alloc, book.sheet())?;
    let lists = lists_of(alloc, book, &mut places)?;
    Ok(Numbering { places, lists })
}

/// The totals come first, so that the rows take the room of all that they are found by.
fn gather_all(alloc: Global, book: &Book) -> Result<Gathered, NoMemory>
    ensures { IfOk result (IsGathered book.now.sheet) }
{
    let totals = totals(alloc, book.sheet())?;
    let members = members_of(alloc, book.sheet())?;
    Ok(Gathered { members, totals })
}

/// All figures, each after those that it is reckoned from.
fn make_all<R: Threads + Sync, G: Gate + Sync, L: Ledger>(
    crew: &Crew<'_, R, G>,
    ground: Ground<'_>,
    totals: Vec<u64>,
    figures: Figures,
    blank: Blank,
) -> Result<Made, NoMemory>
    requires name { blank.name ≡ L.name }
    requires parts { blank.parts ≡ L.parts }
    requires some { 0 < blank.parts }
    requires ground { IsGround ground }
    requires totals { totals.items ≡ totals_of ground.inputs.book.now.sheet }
    requires room { length figures ≡ ground.places.now.size }
    ensures { IfOk result (λ made. IsWhole ground.entry made.figures made.links) }
{
    let mut steps = Steps::<L>::new(blank);
    if crew.workers == 1 {
        put_in_turn(ground, totals, figures, crew.gate, &mut steps)
    } else {
        put_together(crew, ground, totals, figures, &mut steps)
    }
}

/// All figures by one worker, one after another. No figure but those of rows is reckoned from the totals in cents, so that the links
/// take the room of these.
fn put_in_turn<G: Gate, L: Ledger>(
    ground: Ground<'_>,
    totals: Vec<u64>,
    figures: Figures,
    gate: &G,
    steps: &mut Steps<L>,
) -> Result<Made, NoMemory>
    requires ground { IsGround ground }
    requires totals { totals.items ≡ totals_of ground.inputs.book.now.sheet }
    requires room { length figures ≡ ground.places.now.size }
    ensures { IfOk result (λ made. IsWhole ground.entry made.figures made.links) }
{
    let mut figures = figures;
    enter_totals(ground, totals.as_slice(), &mut figures, gate);
    put_assets(ground, &mut figures, gate, steps);
    put_rows(ground, totals.as_slice(), &mut figures, gate)?;
    drop(totals);
    let links = all_links(ground.for_links())?;
    let mut making = making_of(ground.alloc, figures);
    let linked = LinkedGround {
        ground,
        links: &links,
    };
    put_groups(ground, &mut making.figures, gate);
    put_currencies(linked, &mut making, gate, steps)?;
    put_wholes(linked, &mut making, gate, steps)?;
    Ok(Made {
        figures: making.figures,
        links,
    })
}

/// All figures by several workers: rows in pieces, beside all links, those of currencies and all Blocks one after another, and then those
/// of the whole sheet, each as soon as those of its sources are known. What was found on one thread passes the gate when all workers are done.
fn put_together<R: Threads + Sync, G: Gate + Sync, L: Ledger>(
    crew: &Crew<'_, R, G>,
    ground: Ground<'_>,
    totals: Vec<u64>,
    figures: Figures,
    steps: &mut Steps<L>,
) -> Result<Made, NoMemory>
    requires ground { IsGround ground }
    requires totals { totals.items ≡ totals_of ground.inputs.book.now.sheet }
    requires room { length figures ≡ ground.places.now.size }
    ensures { IfOk result (λ made. IsWhole ground.entry made.figures made.links) }
{
    let mut figures = figures;
    enter_totals(ground, totals.as_slice(), &mut figures, &OpenGate);
    put_assets(ground, &mut figures, &OpenGate, steps);
    let links = put_by_pieces(crew, ground, totals.as_slice(), &mut figures)?;
    drop(totals);
    let mut making = making_of(ground.alloc, figures);
    let linked = LinkedGround {
        ground,
        links: &links,
    };
    put_groups(ground, &mut making.figures, &OpenGate);
    put_currencies(linked, &mut making, &OpenGate, steps)?;
    put_left(crew, linked, &mut making.figures)?;
    pass_found(ground, crew.gate);
    Ok(Made {
        figures: making.figures,
        links,
    })
}

/// The figures that are made, with no room yet for what one is reckoned from.
fn making_of(alloc: Global, figures: Figures) -> Making
    ensures { result.figures ≡ figures }
{
    Making {
        figures,
        below: Below {
            spans: Vec::new(alloc),
            close: false,
        },
    }
}

/// The assets of which concentrations are measured, with the Blocks under them.
fn put_assets<G: Gate, L: Ledger>(
    ground: Ground<'_>,
    figures: &mut Figures,
    gate: &G,
    steps: &mut Steps<L>,
)
    requires ground { IsGround ground }
    requires totals { AreReckonedTo ground figures.old (turn 2 0 0) }
    ensures { AreDoneTo ground.entry figures.new (turn 3 0 0) (turn 3 0 0) }
{
    put_summed(ground, figures, &Node::Whole(Whole::Assets), 0, gate, steps)
}

fn row_ground<'a>(ground: Ground<'a>, totals: &'a [u64], figures: &Figures) -> RowGround<'a>
    requires ground { IsGround ground }
    requires totals { totals.now ≡ totals_of ground.inputs.book.now.sheet }
    requires done { AreReckonedTo ground figures.now (turn 3 0 0) }
    ensures rows { IsRowGround result }
    ensures ground { result.ground ≡ ground.entry }
{
    RowGround {
        ground,
        totals: &totals[ground.inputs.book.sheet().funds.len()..],
        assets: figures.span(ASSETS as usize),
    }
}

/// The figures of all rows, but for the totals of funds and securities.
fn put_rows<G: Gate>(
    ground: Ground<'_>,
    totals: &[u64],
    figures: &mut Figures,
    gate: &G,
) -> Result<(), NoMemory>
    requires ground { IsGround ground }
    requires totals { totals.now ≡ totals_of ground.inputs.book.now.sheet }
    requires done { AreDoneTo ground figures.old (turn 3 0 0) (turn 3 0 0) }
    ensures { OnOk result (AreRowsDone ground.entry figures.new) }
{
    let rows = row_ground(ground, totals, figures);
    let mut room = Vec::new(ground.alloc);
    put_sort(&rows, Sort::Liability, figures, &mut room, gate)?;
    put_sort(&rows, Sort::Security, figures, &mut room, gate)?;
    put_sort(&rows, Sort::Group, figures, &mut room, gate)
}

/// The figures of all rows of a sort.
fn put_sort<G: Gate>(
    rows: &RowGround<'_>,
    sort: Sort,
    figures: &mut Figures,
    room: &mut Vec<Span>,
    gate: &G,
) -> Result<(), NoMemory>
    requires rows { IsRowGround rows.now }
    requires count { length figures.old ≡ rows.now.ground.places.now.size }
    ensures count { length figures.new ≡ length figures.old }
    ensures written { OnOk result (IsWrittenOf rows.now.ground (rows_from sort 0 (row_count rows.now.ground.inputs.book.now.sheet sort))
        figures.old figures.new) }
{
    for k in 0..rows.rows(sort) {
        room.clear();
        rows.reckon(sort, k, room, gate)?;
        write_row(rows.ground, figures, sort, k, room.as_slice());
    }
    Ok(())
}

/// The figures of all rows by several workers, who draw the rows in pieces, and beside them all links.
fn put_by_pieces<R: Threads + Sync, G: Gate + Sync>(
    crew: &Crew<'_, R, G>,
    ground: Ground<'_>,
    totals: &[u64],
    figures: &mut Figures,
) -> Result<Links, NoMemory>
    requires ground { IsGround ground }
    requires totals { totals.now ≡ totals_of ground.inputs.book.now.sheet }
    requires done { AreDoneTo ground figures.old (turn 3 0 0) (turn 3 0 0) }
    ensures rows { IfOk result (λ links. AreRowsDone ground.entry figures.new) }
    ensures links { IfOk result (λ links. AreLinkedTo (link_ground ground.entry) links (turn 7 0 153)) }
{
    let rows = row_ground(ground, totals, figures);
    let linked = ground.for_links();
    let reckoning = move || -> Result<Vec<Part>, NoMemory>
        requires { IsRowGround rows }
        ensures { IfOk result (λ parts. AreAllRows (row_count rows.entry.ground.inputs.book.now.sheet)
            (IsRowOf rows.entry.ground.inputs.factors.now rows.entry.ground.inputs.book.now.sheet) parts.items) }
    { reckon_rows(crew.rt, crew.alloc, crew.workers, &rows, crew.gate) };
    let linking = move || -> Result<Links, NoMemory>
        requires { IsLinkGround linked }
        ensures { IfOk result (λ links. AreLinkedTo linked.entry links (turn 7 0 153)) }
    { all_links(linked) };
    let (parts, links) = join(crew.rt, reckoning, linking);
    let parts = parts?;
    write_parts(ground, figures, parts.as_slice());
    links
}

fn put_currencies<G: Gate, L: Ledger>(
    linked: LinkedGround<'_>,
    making: &mut Making,
    gate: &G,
    steps: &mut Steps<L>,
) -> Result<(), NoMemory>
    requires linked { IsLinkedGround linked }
    requires done { AreDone linked.ground making.old.figures (turn 6 0 0) }
    ensures { OnOk result (AreDone linked.entry.ground making.new.figures (turn 7 0 0)) }
{
    for k in 0..linked.ground.inputs.book.sheet().curves.len() {
        put_currency(linked, making, k, gate, steps)?;
    }
    Ok(())
}

/// The figures of a currency.
fn put_currency<G: Gate, L: Ledger>(
    linked: LinkedGround<'_>,
    making: &mut Making,
    k: usize,
    gate: &G,
    steps: &mut Steps<L>,
) -> Result<(), NoMemory>
    requires linked { IsLinkedGround linked }
    requires row { k < length linked.ground.inputs.book.now.sheet.curves }
    requires done { AreDone linked.ground making.old.figures (turn 6 k 0) }
    ensures { OnOk result (AreDone linked.entry.ground making.new.figures (turn 6 (k + 1) 0)) }
{
    let name = linked.ground.inputs.book.sheet().curves.at(k).currency;
    for family in 0..OF_CURRENCY {
        let what = currency_at(family);
        let node = Node::Currency(name, what);
        put_live(linked, making, &node, k, gate, steps)?;
    }
    Ok(())
}

/// The figures of the whole sheet.
fn put_wholes<G: Gate, L: Ledger>(
    linked: LinkedGround<'_>,
    making: &mut Making,
    gate: &G,
    steps: &mut Steps<L>,
) -> Result<(), NoMemory>
    requires linked { IsLinkedGround linked }
    requires done { AreDone linked.ground making.old.figures (turn 7 0 0) }
    ensures { OnOk result (AreDone linked.entry.ground making.new.figures (turn 7 0 153)) }
{
    for number in 0..WHOLES {
        put_live(
            linked,
            making,
            &Node::Whole(whole_at(number)),
            0,
            gate,
            steps,
        )?;
    }
    Ok(())
}
