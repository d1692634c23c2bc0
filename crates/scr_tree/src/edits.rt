//! What a record that the book has taken changes of an engine beside the book.
ghost use Rattle.std.specs.Prelude.{◌≡◌, ◌+◌, ◌≤◌, ◌<◌, [], ℕ, true, false, Contains, length, max, slice_get, IfNone, IfOk, IfSome, OnOk, OnErr};
ghost use Rattle.std.specs.Option.{option_map_or};
ghost use Rattle.scr_discounts.specs.KeptRates.{known_of};
ghost use Rattle.scr_reachability.specs.LinkedDues.{AreStarts, sources_count};
ghost use Rattle.scr_sum_tree.specs.Blocks.{HasEachOnce};
ghost use Rattle.scr_sheet.specs.Validity.{Valid};
ghost use Rattle.scr_book.specs.RolledSheets.{RolledSheet};
ghost use Rattle.scr_figure_ids.specs.Numbers.{IsNumbered, StandsAt};
ghost use Rattle.scr_reachability.specs.Linked.{AreNumbers};
ghost use Rattle.scr_block_graph.specs.Books.{rolled_of};
ghost use Rattle.scr_tree.specs.Ceiling.{IsCeiling, ceiling_after};
ghost use Rattle.scr_block_graph.specs.declared.point.Block.{Block as TheBlock};
ghost use Rattle.scr_block_graph.specs.declared.point.Point.TheVariants as points;
ghost use Rattle.scr_tree.specs.Changed.{AreGone, AreReachedMarks, AreRowsFor, CanFollowLists, CanPutBack, HaveFollowed, IsFollowed, IsMoved, IsRecorded, IsRelinkedFor, IsStateOf, IsUnchanged, IsUndone, KeepsAllButLists, KeepsState, StepsReach};
ghost use Rattle.scr_member_index.specs.Following.{AreStill};
ghost use Rattle.scr_member_index.specs.declared.lists.Lists.{Lists as TheLists};
ghost use Rattle.scr_tree.specs.Figures.{AreSettled};
ghost use Rattle.scr_tree.specs.Graphs.{graph_of};
ghost use Rattle.scr_tree.specs.Points.{IsGraphOf, StandsIn, book_graph, book_reckoning};
ghost use Rattle.scr_tree.specs.Starts.{AreMarked, relinked};
ghost use Rattle.std.specs.List.{IsDistinct};
ghost use Rattle.std.specs.Prelude.{nat_eq};
ghost use Rattle.scr_tree.specs.KeptRates.{AreKeptFor, keeps_rates};

use crate::basis::{Basis, Crew};
use crate::figures::{Figures, Inputs};
use crate::first_links::ASSETS;
use crate::graph::{Graph, Numbers};
use crate::order::{Order, ordered};
use crate::reckoning::{Scratch, reckon_in_place};
use crate::starts::{dues_at, linked_dues, linked_numbers, mark_starts};
use scr_block_graph::Point;
use scr_book::{Book, Edit, Table};
use scr_factors::Factors;
use scr_figure_ids::{Step, View, follow, take_back};
use scr_ids::Places;
use scr_io::{Gate, Steps};
use scr_links::Links;
use scr_member_index::{Lists, Move, Stood, move_of};
use scr_reachability::{Due, Marked, relink};
use scr_rules::{Rates, rates, rates_after};
use scr_sheet::BalanceSheet;
use std::alloc::{AllocError as NoMemory, Global};
use std::mem::replace;
use std::sync::ledger::Ledger;
use std::thread::Threads;

/// State of an engine beside factors and book: the rates of all currencies, the ids of all figures and Blocks, and the figures by id.
/// It also keeps the edges that neither rows nor lists give, and room for marks, ids and spans.
#[derive(Drop)]
pub(crate) struct State {
    pub(crate) rates: Rates,
    pub(crate) places: Places,
    pub(crate) lists: Lists,
    pub(crate) figures: Figures,
    pub(crate) links: Links,
    pub(crate) marks: Marked,
    pub(crate) scratch: Scratch,
}

/// The factors, and the book that has taken the record.
#[derive(Clone, Copy)]
pub(crate) struct Footing<'a> {
    pub(crate) factors: &'a Factors,
    pub(crate) book: &'a Book,
}

/// A record: what it does to the rows that have numbers, where its row stood, and the points that it touches.
#[derive(Clone, Copy)]
pub(crate) struct Taken<'a> {
    pub(crate) edit: &'a Edit,
    pub(crate) step: Step,
    pub(crate) stood: &'a Option<Stood>,
    pub(crate) touched: &'a [Point],
}

/// The numbers of the touched figures whose links may change, where a row goes: once it has gone they cannot be asked for.
pub(crate) fn numbers_gone(
    alloc: Global,
    sheet: &BalanceSheet,
    places: &Places,
    edit: &Edit,
    step: Step,
    touched: &[Point],
) -> Result<Option<Vec<u32>>, NoMemory>
    requires valid { Valid sheet.now }
    requires numbered { IsNumbered sheet.now places.now }
    requires numbers { AreNumbers (graph_of sheet.now) (StandsAt sheet.now places.now) places.now.size }
    requires once { HasEachOnce touched.now }
    ensures { IfOk result (AreGone step edit.now sheet.now places.now touched.now) }
{
    match step {
        Step::Goes(_, _) => Ok(Some(linked_numbers(alloc, View { sheet, places }, edit, touched)?)),
        _ => Ok(None),
    }
}

/// Takes a record up that the book has taken. The numbers of the touched figures are handed in where a row goes. Where memory is
/// refused, all is as before.
pub(crate) fn take_up<R: Threads + Sync, G: Gate + Sync, L: Ledger>(
    crew: &Crew<'_, R, G>,
    footing: Footing<'_>,
    state: &mut State,
    taken: Taken<'_>,
    gone: Option<Vec<u32>>,
    steps: &mut Steps<L>,
) -> Result<(), NoMemory>
    requires { IsRecorded footing.factors.now footing.book.now taken gone state.old }
    ensures ok { OnOk result (IsStateOf footing.entry.factors.now footing.entry.book.now state.new) }
    ensures steps { OnOk result (StepsReach (rolled_of footing.entry.book.now) taken.entry.touched.now steps.old steps.new) }
    ensures marks { OnOk result (state.new.marks.list ≡ []) }
    ensures err { OnErr result ((before : RolledSheet)
        → KeepsState footing.entry.factors.now before footing.entry.book.now taken.entry state.old state.new) }
{
    follow(&mut state.places, taken.step)?;
    state.scratch.ceiling = ceiling_after(taken.step, state.scratch.ceiling);
    match move_and_change(crew, footing, state, taken, gone, steps) {
        Ok(()) => Ok(()),
        Err(NoMemory) => {
            state.scratch.ceiling = None;
            take_back(&mut state.places, taken.step);
            Err(NoMemory)
        }
    }
}

/// The ceiling of what is held of each group, where each row stays where it is.
fn ceiling_after(step: Step, ceiling: Option<u64>) -> Option<u64>
    ensures { result ≡ ceiling_after step ceiling }
{
    match step {
        Step::Stays => ceiling,
        Step::Comes(_) | Step::Goes(_, _) => None,
    }
}

/// The lists follow the row of the record, and all is reckoned anew that it reaches. Where memory is refused, all is as before but that
/// there may be more rows of parts.
fn move_and_change<R: Threads + Sync, G: Gate + Sync, L: Ledger>(
    crew: &Crew<'_, R, G>,
    footing: Footing<'_>,
    state: &mut State,
    taken: Taken<'_>,
    gone: Option<Vec<u32>>,
    steps: &mut Steps<L>,
) -> Result<(), NoMemory>
    requires { IsFollowed footing.factors.now footing.book.now taken gone state.old }
    ensures ok { OnOk result (IsStateOf footing.entry.factors.now footing.entry.book.now state.new) }
    ensures steps { OnOk result (StepsReach (rolled_of footing.entry.book.now) taken.entry.touched.now steps.old steps.new) }
    ensures err { OnErr result (IsUndone state.old state.new) }
    ensures marks { state.new.marks.list ≡ [] }
{
    // The book is valid, and its lists are those of its rows.
    footing.book.sheet();
    footing.book.group_seats();
    let moved = follow_lists(crew.alloc, footing.book, state, taken.stood)?;
    // No number is that of two rows, and no slot that of two parts.
    state.places.len();
    state.lists.parts().len();
    match change(crew, footing, state, taken, gone, steps) {
        Ok(()) => Ok(()),
        Err(NoMemory) => {
            put_lists_back(state, &moved);
            Err(NoMemory)
        }
    }
}

/// The lists follow the row of the record, if it moves one, and the move is told. Where memory is refused, all is as before but that there
/// may be more rows of parts.
fn follow_lists(
    alloc: Global,
    book: &Book,
    state: &mut State,
    stood: &Option<Stood>,
) -> Result<Option<Move>, NoMemory>
    requires { CanFollowLists book.now stood.now state.old }
    ensures ok { IfOk result (λ moved. HaveFollowed book.now stood.now moved state.old state.new) }
    ensures err { OnErr result (IsUndone state.old state.new) }
    ensures marks { state.new.marks ≡ state.old.marks }
{
    match move_of(book, &state.places, stood) {
        Some(moved) => {
            state.lists.follow(alloc, &mut state.places, &moved)?;
            Ok(Some(moved))
        }
        None => Ok(None),
    }
}

/// The lists are as they were before they followed the row.
fn put_lists_back(state: &mut State, moved: &Option<Move>)
    requires { (before : TheLists) × CanPutBack moved.now before state.old.lists }
    ensures lists { (before : TheLists) → CanPutBack moved.now before state.old.lists → AreStill before state.new.lists }
    ensures others { KeepsAllButLists state.old state.new }
{
    if let Some(moved) = moved {
        state.lists.take_back(moved);
    }
}

/// Reckons anew what a record reaches. Where memory is refused, rates, figures and links are as before.
fn change<R: Threads + Sync, G: Gate + Sync, L: Ledger>(
    crew: &Crew<'_, R, G>,
    footing: Footing<'_>,
    state: &mut State,
    taken: Taken<'_>,
    gone: Option<Vec<u32>>,
    steps: &mut Steps<L>,
) -> Result<(), NoMemory>
    requires { IsMoved footing.factors.now footing.book.now taken gone state.old }
    ensures ok { OnOk result (IsStateOf footing.entry.factors.now footing.entry.book.now state.new) }
    ensures steps { OnOk result (StepsReach (rolled_of footing.entry.book.now) taken.entry.touched.now steps.old steps.new) }
    ensures err { OnErr result (IsUnchanged state.old state.new) }
    ensures marks { state.new.marks.list ≡ [] }
{
    let size = state.places.len();
    make_room(&mut state.figures, &mut state.marks, size)?;
    let view = View {
        sheet: footing.book.sheet(),
        places: &state.places,
    };
    let numbers = all_numbers(crew.alloc, view, taken.edit, taken.touched, gone)?;
    let dues = dues_at(crew.alloc, view, numbers.as_slice())?;
    let rates = new_rates(crew.alloc, footing, &state.rates, taken.edit)?;
    let former = linked_dues(crew.alloc, &state.links, numbers.as_slice())?;
    reserve(
        crew.alloc,
        &mut state.links,
        size,
        dues.as_slice(),
        former.as_slice(),
    )?;
    relink(&mut state.links, dues.as_slice());
    let changed = reckon_reached(crew, footing, state, taken.touched, &rates, steps);
    state.marks.clear();
    match changed {
        Ok(()) => {
            if let Some(rates) = rates {
                state.rates = rates;
            }
            Ok(())
        }
        Err(NoMemory) => {
            relink(&mut state.links, former.as_slice());
            Err(NoMemory)
        }
    }
}

/// The numbers of the touched figures whose links the record may change: those that are known beforehand, and where none are, those of
/// today.
fn all_numbers(
    alloc: Global,
    view: View<'_>,
    edit: &Edit,
    touched: &[Point],
    gone: Option<Vec<u32>>,
) -> Result<Vec<u32>, NoMemory>
    requires valid { Valid view.sheet.now }
    requires numbered { IsNumbered view.sheet.now view.places.now }
    requires numbers { AreNumbers (graph_of view.sheet.now) (StandsAt view.sheet.now view.places.now) view.places.now.size }
    requires once { HasEachOnce touched.now }
    ensures gone { IfOk result (λ numbers. IfSome gone (λ list. numbers.items ≡ list.items)) }
    ensures starts { IfOk result (λ numbers. IfNone gone (AreStarts (StandsAt view.entry.sheet.now view.entry.places.now) (relinked edit.now touched.now) numbers.items)) }
    ensures once { IfOk result (λ numbers. IfNone gone (IsDistinct nat_eq numbers.items)) }
{
    match gone {
        Some(numbers) => Ok(numbers),
        None => linked_numbers(alloc, view, edit, touched),
    }
}

/// Reckons the touched points and all that is reckoned from them.
fn reckon_reached<R: Threads + Sync, G: Gate + Sync, L: Ledger>(
    crew: &Crew<'_, R, G>,
    footing: Footing<'_>,
    state: &mut State,
    touched: &[Point],
    rates: &Option<Rates>,
    steps: &mut Steps<L>,
) -> Result<(), NoMemory>
    requires { IsRelinkedFor footing.factors.now footing.book.now touched.now rates.now state.old }
    ensures settled { OnOk result (AreSettled (book_reckoning footing.entry.factors.now (rolled_of footing.entry.book.now))
        (StandsIn footing.entry.book.now state.old.places state.old.lists) state.new.figures) }
    ensures steps { OnOk result (StepsReach (rolled_of footing.entry.book.now) touched.now steps.old steps.new) }
    ensures ceiling { OnOk result (IsCeiling state.old.places state.new.figures state.new.scratch.ceiling) }
    ensures figures { OnErr result (state.new.figures ≡ state.old.figures) }
    ensures count { length state.new.figures ≡ length state.old.figures }
    ensures rates { state.new.rates ≡ state.old.rates }
    ensures places { state.new.places ≡ state.old.places }
    ensures lists { state.new.lists ≡ state.old.lists }
    ensures links { state.new.links ≡ state.old.links }
{
    let graph = Graph {
        numbers: Numbers {
            book: footing.book,
            places: &state.places,
            lists: &state.lists,
        },
        links: &state.links,
    };
    mark_starts(&mut state.marks, graph.numbers, touched)?;
    climb(graph, &mut state.marks, touched)?;
    let squares = state.marks.place(ASSETS).is_some();
    let room = replace(&mut state.scratch.order, Order::new(crew.alloc));
    let order = ordered(
        crew.alloc,
        graph,
        state.marks.as_slice(),
        squares,
        &mut state.scratch.sorted,
        room,
    )?;
    let basis = Basis {
        inputs: Inputs {
            factors: footing.factors,
            book: footing.book,
            rates: new_or_kept(rates, &state.rates),
        },
        places: &state.places,
        lists: &state.lists,
        links: &state.links,
        summed: are_figures(touched),
    };
    reckon_in_place(
        crew,
        basis,
        order,
        &mut state.figures,
        &mut state.scratch,
        steps,
    )
}

/// The record touches no Block: each one comes yet to what its members came to.
fn are_figures(touched: &[Point]) -> bool
    ensures yes { result ≡ true → (block : TheBlock) → Contains touched.now (points.Block block) → ⊥ }
    ensures not { result ≡ false → ((block : TheBlock) → Contains touched.now (points.Block block) → ⊥) → ⊥ }
{
    for point in touched {
        match point {
            Point::Figure(_) => (),
            Point::Block(_) => return false,
        }
    }
    true
}

/// Marks all that is reckoned from what is marked. Where the assets are marked squares and the Blocks over them need no mark.
fn climb(graph: Graph<'_>, marks: &mut Marked, touched: &[Point]) -> Result<(), NoMemory>
    requires graph { IsGraphOf graph.numbers.book.now graph.numbers.places.now graph.numbers.lists.now graph.links.now.edges }
    requires valid { Valid graph.numbers.book.now.sheet }
    requires room { graph.numbers.places.now.size ≤ marks.old.size }
    requires starts { AreMarked (book_graph (rolled_of graph.numbers.book.now))
        (StandsIn graph.numbers.book.now graph.numbers.places.now graph.numbers.lists.now) touched.now [] marks.old.list }
    ensures marked { OnOk result (AreReachedMarks graph.entry.numbers.book.now graph.entry.numbers.places.now graph.entry.numbers.lists.now touched.now
        marks.new.list) }
    ensures size { marks.new.size ≡ marks.old.size }
{
    let mut place = 0;
    while place < marks.as_slice().len() {
        let number = marks.as_slice()[place];
        graph.mark_dependants(marks, number)?;
        place += 1;
    }
    Ok(())
}

/// Room for figures and marks of all numbers below the size, and no more than there was or is asked for.
fn make_room(figures: &mut Figures, marks: &mut Marked, size: u32) -> Result<(), NoMemory>
    ensures figures { OnOk result (size ≤ length figures.new) }
    ensures most { (bound : ℕ) → length figures.old ≤ bound → size ≤ bound → length figures.new ≤ bound }
    ensures kept { (number : ℕ) → number < length figures.old
        → slice_get figures.new number ≡ slice_get figures.old number }
    ensures marks { OnOk result (size ≤ marks.new.size) }
    ensures list { marks.new.list ≡ marks.old.list }
{
    let size = size as usize;
    marks.grow(size)?;
    while figures.len() < size {
        figures.push()?;
    }
    Ok(())
}

/// All that is kept of rates, where the record changes some or the reference date. Of a curve that comes or changes its own
/// discounts alone are reckoned.
fn new_rates(
    alloc: Global,
    footing: Footing<'_>,
    kept: &Rates,
    edit: &Edit,
) -> Result<Option<Rates>, NoMemory>
    requires { AreKeptFor edit.now footing.book.now.sheet kept.now }
    ensures { IfOk result (AreRowsFor edit.now footing.entry.book.now.sheet) }
{
    if let Edit::Curve { currency, .. } = edit {
        return Ok(Some(rates_after(alloc, footing.book, kept, currency)?));
    }
    if keeps_rates(edit) {
        return Ok(None);
    }
    Ok(Some(rates(alloc, footing.factors, footing.book)?))
}

/// The new rates, and where there are none those that are kept.
fn new_or_kept<'a>(new: &'a Option<Rates>, kept: &'a Rates) -> &'a Rates
    ensures { known_of result.now ≡ option_map_or known_of new.now (known_of kept.now) }
{
    match new {
        Some(rates) => rates,
        None => kept,
    }
}

/// The record leaves the reference date and the rates of all currencies as they are.
fn keeps_rates(edit: &Edit) -> bool
    ensures { result ≡ keeps_rates edit.now }
{
    !matches!(
        edit,
        Edit::Asof { .. }
            | Edit::Curve { .. }
            | Edit::Remove {
                table: Table::Curve,
                ..
            }
    )
}

/// Room for the links of all these dues, between numbers below the size, and no more than there was or is asked for.
fn reserve(
    alloc: Global,
    links: &mut Links,
    size: u32,
    dues: &[Due],
    former: &[Due],
) -> Result<(), NoMemory>
    ensures edges { links.new.edges ≡ links.old.edges }
    ensures size { OnOk result (links.new.size ≡ max links.old.size size) }
    ensures spare { OnOk result (sources_count dues.now + sources_count former.now ≤ links.new.spare) }
    ensures most { OnOk result (links.new.spare ≡ max links.old.spare (sources_count dues.now + sources_count former.now)) }
    ensures err { OnErr result (links.new ≡ links.old) }
{
    let count = sum(count_of(dues)?, count_of(former)?)?;
    links.reserve(alloc, count, size)
}

/// How many sources all dues have, as far as edges can be numbered.
fn count_of(dues: &[Due]) -> Result<u32, NoMemory>
    ensures { IfOk result (λ count. count ≡ sources_count dues.now) }
{
    let mut count: u32 = 0;
    for due in dues {
        let Ok(more) = u32::try_from(due.sources.len()) else {
            return Err(NoMemory);
        };
        count = sum(count, more)?;
    }
    Ok(count)
}

fn sum(count: u32, further: u32) -> Result<u32, NoMemory>
    ensures { IfOk result (λ sum. sum ≡ count + further) }
{
    match count.checked_add(further) {
        Some(sum) => Ok(sum),
        None => Err(NoMemory),
    }
}
