//! The figures and links that are made when all are reckoned for the first time.
ghost use Rattle.std.specs.Prelude.{◌≡◌, ◌⊎◌, ◌+◌, ◌<◌, ◌≤◌, ℕ, true, All, Some, is_some, length, max, slice_get, IfOk, IfSome, OnOk};
ghost use Rattle.scr_figure_ids.specs.Families.{family_of, name_of, table_of};
ghost use Rattle.scr_figure_ids.specs.Numbers.{StandsAt, names_in};
ghost use Rattle.scr_ids.specs.Ranges.{count, first, stride};
ghost use Rattle.scr_nodes.specs.Live.{is_live};
ghost use Rattle.scr_nodes.specs.Sources.{sources_of};
ghost use Rattle.scr_reachability.specs.Linked.{AreAt};
ghost use Rattle.scr_block_graph.specs.Graph.{reads};
ghost use Rattle.scr_block_graph.specs.Sums.{first_sum, reader_of};
ghost use Rattle.scr_block_graph.specs.Told.{is_reader};
ghost use Rattle.scr_block_graph.specs.declared.sum.Sum.{Sum as TheSum};
ghost use Rattle.scr_num.specs.Rounding.{ends};
ghost use Rattle.scr_tree.specs.First.{AreBlocksThere, AreDone, AreDoneTo, AreMembersThere, IsGround, IsLinkGround, IsLinkedGround, IsSumOf, KeepsOffBlocks};
ghost use Rattle.scr_tree.specs.Points.{is_linked};
ghost use Rattle.scr_tree.specs.Summed.{summed_in};
ghost use Rattle.scr_tree.specs.Turns.{next, stage_of, turn_of};

use crate::figures::{Below, Figure, Figures, Inputs, read_linked, reckoned};
use crate::graph::Numbers;
use crate::sums::{by_sums, put_blocks, sum_there};
use scr_block_graph::{Sum, first_sum, second_sum};
use scr_book::Book;
use scr_figure_ids::gathered::Members;
use scr_figure_ids::{View, family, push_gathered, table};
use scr_ids::Places;
use scr_io::{Gate, Steps};
use scr_links::Links;
use scr_member_index::Lists;
use scr_nodes::{Direction, Node, OfCurrency, is_live};
use scr_num::{Span, exact};
use scr_reachability::link;
use scr_rules::GroupLosses;
use std::alloc::{AllocError as NoMemory, Global};
use std::sync::ledger::Ledger;

/// What all figures are reckoned from for the first time: beside the book and its rates the numbers of all figures and Blocks, the rows
/// that figures are linked by, and the losses of all groups.
#[derive(Clone, Copy)]
pub(crate) struct Ground<'a> {
    pub(crate) alloc: Global,
    pub(crate) inputs: Inputs<'a>,
    pub(crate) places: &'a Places,
    pub(crate) lists: &'a Lists,
    pub(crate) members: &'a Members,
    pub(crate) losses: &'a GroupLosses,
}

/// What figures are linked by: the book, the numbers of all its figures, and the rows that totals and the losses of classes rest on.
#[derive(Clone, Copy)]
pub(crate) struct LinkGround<'a> {
    pub(crate) alloc: Global,
    pub(crate) book: &'a Book,
    pub(crate) places: &'a Places,
    pub(crate) members: &'a Members,
}

impl<'a> Ground<'a> {
    ghost use Rattle.std.specs.Prelude.{◌≡◌};
    ghost use Rattle.scr_tree.specs.First.{link_ground, numbers_of};

    /// What figures are linked by.
    pub(crate) fn for_links(&self) -> LinkGround<'a>
        ensures { result ≡ link_ground self.now }
    {
        LinkGround {
            alloc: self.alloc,
            book: self.inputs.book,
            places: self.places,
            members: self.members,
        }
    }

    /// What numbers are read off.
    pub(crate) fn numbers(&self) -> Numbers<'a>
        ensures { result ≡ numbers_of self.now }
    {
        Numbers {
            book: self.inputs.book,
            places: self.places,
            lists: self.lists,
        }
    }
}

/// The figures by number, and the links from the numbers of their sources.
#[derive(Drop)]
pub(crate) struct Made {
    pub(crate) figures: Figures,
    pub(crate) links: Links,
}

/// The figures that are made, with room for what one is reckoned from.
#[derive(Drop)]
pub(crate) struct Making {
    pub(crate) figures: Figures,
    pub(crate) below: Below,
}

/// What figures are read from when all links are made.
#[derive(Clone, Copy)]
pub(crate) struct LinkedGround<'a> {
    pub(crate) ground: Ground<'a>,
    pub(crate) links: &'a Links,
}

/// Links for which room is made at once where there is none.
const MORE_LINKS: u32 = 16_384;

/// Writes a figure at its number.
fn write(figures: &mut Figures, number: u32, figure: Figure)
    requires { number < length figures.old }
    ensures count { length figures.new ≡ length figures.old }
    ensures there { slice_get figures.new number ≡ Some figure }
    ensures others { (other : ℕ) → (other ≡ number → ⊥)
        → slice_get figures.new other ≡ slice_get figures.old other }
{
    figures.set(number as usize, figure);
}

/// Room for links from these sources to a number.
pub(crate) fn make_room(
    alloc: Global,
    links: &mut Links,
    number: u32,
    sources: &[u32],
) -> Result<(), NoMemory>
    ensures edges { links.new.edges ≡ links.old.edges }
    ensures size { (size : ℕ) → number < size → All (λ source. source < size) sources.now → links.old.size ≤ size → links.new.size ≤ size }
    ensures number { OnOk result (number < links.new.size) }
    ensures sources { OnOk result (All (λ source. source < links.new.size) sources.now) }
    ensures spare { OnOk result (length sources.now ≤ links.new.spare) }
{
    let Some(size) = past(number, sources) else {
        return Err(NoMemory);
    };
    let more = more_links(links.spare(), sources.len())?;
    links.reserve(alloc, more, size)
}

/// For how many links to make room where there is room for some and so many are wanted.
fn more_links(spare: u32, wanted: usize) -> Result<u32, NoMemory>
    ensures { IfOk result (λ more. wanted ≤ max spare more) }
{
    let Ok(wanted) = u32::try_from(wanted) else {
        return Err(NoMemory);
    };
    if spare >= wanted {
        return Ok(0);
    }
    Ok(wanted.saturating_add(MORE_LINKS))
}

/// The least number above this one and all of these.
fn past(number: u32, sources: &[u32]) -> Option<u32>
    ensures number { IfSome result (λ past. number < past) }
    ensures sources { IfSome result (λ past. All (λ source. source < past) sources.now) }
    ensures least { IfSome result (λ past. (size : ℕ) → number < size → All (λ source. source < size) sources.now → past ≤ size) }
{
    let mut last = number;
    for source in sources {
        last = last.max(*source);
    }
    last.checked_add(1)
}

/// The numbers of all sources of a figure of the row at a place.
pub(crate) fn gather_linked(
    ground: LinkGround<'_>,
    sources: &mut Vec<u32>,
    node: &Node,
    row: usize,
) -> Result<(), NoMemory>
    requires ground { IsLinkGround ground }
    requires live { is_live ground.book.now.sheet node.now ≡ true }
    requires row { slice_get (names_in ground.book.now.sheet (table_of node.now)) row ≡ Some (name_of node.now) }
    ensures { OnOk result (AreAt (StandsAt ground.entry.book.now.sheet ground.entry.places.now) sources.new.items
        (sources_of ground.entry.book.now.sheet node.now)) }
{
    let view = View {
        sheet: ground.book.sheet(),
        places: ground.places,
    };
    sources.clear();
    push_gathered(sources, view, ground.members, node, row)
}

/// The number of a figure of the row at a place.
pub(crate) fn number_at(places: &Places, node: &Node, row: usize) -> u32
    requires row { row < count places.now (table_of node.now) }
    requires family { family_of node.now < stride (table_of node.now) }
    ensures { result ≡ first places.now (table_of node.now) row + family_of node.now }
{
    let first = places.first(table(node), row);
    first + family(node)
}

/// The figure of a node of the row at a place; nothing where the balance sheet does not have it. The gate is passed before.
pub(crate) fn put_live<G: Gate, L: Ledger>(
    linked: LinkedGround<'_>,
    making: &mut Making,
    node: &Node,
    row: usize,
    gate: &G,
    steps: &mut Steps<L>,
) -> Result<(), NoMemory>
    requires linked { IsLinkedGround linked }
    requires row { slice_get (names_in linked.ground.inputs.book.now.sheet (table_of node.now)) row ≡ Some (name_of node.now) }
    requires later { 2 ≤ stage_of node.now }
    requires read { (is_some (first_sum node.now) ≡ true) ⊎ (is_linked node.now ≡ true) }
    requires done { AreDone linked.ground making.old.figures (turn_of node.now row) }
    ensures { OnOk result (AreDone linked.entry.ground making.new.figures (next (turn_of node.now row))) }
{
    if !is_live(linked.ground.inputs.book.sheet(), node) {
        return Ok(());
    }
    match first_sum(node) {
        Some(_) => {
            put_summed(linked.ground, &mut making.figures, node, row, gate, steps);
            Ok(())
        }
        None => put_linked(linked, making, node, row, gate, steps),
    }
}

/// The figure of a node that is reckoned from large sums, with the Blocks under these.
pub(crate) fn put_summed<G: Gate, L: Ledger>(
    ground: Ground<'_>,
    figures: &mut Figures,
    node: &Node,
    row: usize,
    gate: &G,
    steps: &mut Steps<L>,
)
    requires ground { IsGround ground }
    requires live { is_live ground.inputs.book.now.sheet node.now ≡ true }
    requires row { slice_get (names_in ground.inputs.book.now.sheet (table_of node.now)) row ≡ Some (name_of node.now) }
    requires later { 2 ≤ stage_of node.now }
    requires summed { is_some (first_sum node.now) ≡ true }
    requires done { AreDoneTo ground figures.old (turn_of node.now row) (turn_of node.now row) }
    ensures { AreDoneTo ground.entry figures.new (next (turn_of node.now row)) (next (turn_of node.now row)) }
{
    put_under(ground, figures, node, gate);
    let first = first_sum(node);
    let second = second_sum(node);
    let held = sum_under(ground, figures, &first);
    let owed = sum_under(ground, figures, &second);
    let number = number_at(ground.places, node, row);
    gate.pass(number);
    let span = by_sums(ground.inputs, node, held, owed, steps);
    write(figures, number, Figure { span, close: false });
}

/// Writes all Blocks under the sums of a figure. A currency's fall has those of its rise, with which they are written.
pub(crate) fn put_under<G: Gate>(ground: Ground<'_>, figures: &mut Figures, node: &Node, gate: &G)
    requires ground { IsGround ground }
    requires live { is_live ground.inputs.book.now.sheet node.now ≡ true }
    requires count { length figures.old ≡ ground.places.now.size }
    requires members { AreMembersThere ground figures.old (IsSumOf node.now) }
    requires there { AreBlocksThere ground figures.old (λ sum. IsSumOf node.now sum × (reader_of sum ≡ node.now → ⊥)) }
    ensures blocks { AreBlocksThere ground.entry figures.new (IsSumOf node.now) }
    ensures others { KeepsOffBlocks ground.entry (λ sum. reader_of sum ≡ node.now) figures.old figures.new }
{
    if !is_reader(node) {
        return;
    }
    let first = first_sum(node);
    let second = second_sum(node);
    put_found(ground, figures, &first, gate);
    put_found(ground, figures, &second, gate);
}

/// Whether the Blocks under its sums are written with the figure.
fn is_reader(node: &Node) -> bool
    ensures { result ≡ is_reader node.now }
{
    !matches!(
        node,
        Node::Currency(_, OfCurrency::Scenario(Direction::Down, _))
    )
}

/// Writes all Blocks under a sum, if there is one.
pub(crate) fn put_found<G: Gate>(
    ground: Ground<'_>,
    figures: &mut Figures,
    found: &Option<Sum>,
    gate: &G,
)
    requires ground { IsGround ground }
    requires reads { (sum : TheSum) → found.now ≡ Some sum → reads ground.inputs.book.now.sheet sum ≡ true }
    requires count { length figures.old ≡ ground.places.now.size }
    requires members { AreMembersThere ground figures.old (λ sum. found.now ≡ Some sum) }
    ensures blocks { AreBlocksThere ground.entry figures.new (λ sum. found.now ≡ Some sum) }
    ensures others { KeepsOffBlocks ground.entry (λ sum. found.now ≡ Some sum) figures.old figures.new }
{
    match found {
        Some(sum) => put_blocks(ground.numbers(), figures, sum, gate),
        None => (),
    }
}

/// What a sum comes to whose Blocks are there; one that is not there comes to nothing.
fn sum_under(ground: Ground<'_>, figures: &Figures, found: &Option<Sum>) -> Span
    requires ground { IsGround ground }
    requires reads { (sum : TheSum) → found.now ≡ Some sum → reads ground.inputs.book.now.sheet sum ≡ true }
    requires count { length figures.now ≡ ground.places.now.size }
    requires members { AreMembersThere ground figures.now (λ sum. found.now ≡ Some sum) }
    requires blocks { AreBlocksThere ground figures.now (λ sum. found.now ≡ Some sum) }
    ensures { ends result ≡ summed_in ground.entry.inputs.factors.now ground.entry.inputs.book.now found.now }
{
    match found {
        Some(sum) => sum_there(ground.numbers(), figures, sum),
        None => exact(0),
    }
}

/// The figure of a node of the row at a place, from the figures that are linked to it.
fn put_linked<G: Gate, L: Ledger>(
    linked: LinkedGround<'_>,
    making: &mut Making,
    node: &Node,
    row: usize,
    gate: &G,
    steps: &mut Steps<L>,
) -> Result<(), NoMemory>
    requires linked { IsLinkedGround linked }
    requires live { is_live linked.ground.inputs.book.now.sheet node.now ≡ true }
    requires linked_node { is_linked node.now ≡ true }
    requires row { slice_get (names_in linked.ground.inputs.book.now.sheet (table_of node.now)) row ≡ Some (name_of node.now) }
    requires later { 2 ≤ stage_of node.now }
    requires done { AreDone linked.ground making.old.figures (turn_of node.now row) }
    ensures { OnOk result (AreDone linked.entry.ground making.new.figures (next (turn_of node.now row))) }
{
    let ground = linked.ground;
    let number = number_at(ground.places, node, row);
    read_linked(&making.figures, linked.links, number, &mut making.below)?;
    let figure = reckoned(ground.inputs, &making.below, number, node, gate, steps);
    write(&mut making.figures, number, figure);
    Ok(())
}
