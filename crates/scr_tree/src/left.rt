//! What is left of the first reckoning once rows and currencies are reckoned: the figures of the whole sheet, by several workers at once.
ghost use Rattle.std.specs.Prelude.{◌≡◌, ◌+◌, ◌<◌, IfOk, OnOk, true, false};
ghost use Rattle.scr_block_graph.specs.Books.{rolled_of};
ghost use Rattle.scr_block_graph.specs.Graph.{is_live_in};
ghost use Rattle.scr_block_graph.specs.declared.point.Point.{Point as ThePoint};
ghost use Rattle.scr_tree.specs.First.{AreDone, AreDoneTo, IsGround, IsLinkedGround, IsWhole};
ghost use Rattle.scr_tree.specs.Left.{AreLeft, IsLeftAt, is_left};
ghost use Rattle.scr_tree.specs.Points.{AreNumbersOf, StandsIn};
ghost use Rattle.scr_tree.specs.Turns.{turn};

use crate::basis::{Basis, Crew};
use crate::figures::Figures;
use crate::first_links::WHOLES;
use crate::graph::Numbers;
use crate::making::{Ground, LinkedGround, put_under};
use crate::order::{Order, Sorted, ordered};
use crate::together::reckon_together;
use scr_block_graph::{Point, is_live_in};
use scr_figure_ids::whole_at;
use scr_io::{Gate, OpenGate};
use scr_nodes::{Node, Whole, is_live};
use std::alloc::{AllocError as NoMemory, Global};
use std::thread::Threads;

/// The figures of the whole sheet, but the assets of which concentrations are measured: each as soon as those of its sources are known.
/// The gate is passed before each. The Blocks under them come first, one after another, and pass no gate.
pub(crate) fn put_left<R: Threads + Sync, G: Gate + Sync>(
    crew: &Crew<'_, R, G>,
    linked: LinkedGround<'_>,
    figures: &mut Figures,
) -> Result<(), NoMemory>
    requires linked { IsLinkedGround linked }
    requires done { AreDone linked.ground figures.old (turn 7 0 0) }
    ensures { OnOk result (IsWhole linked.entry.ground figures.new linked.entry.links.now) }
{
    let ground = linked.ground;
    put_whole_blocks(ground, figures, &OpenGate);
    let left = left_numbers(ground.alloc, ground.numbers())?;
    let basis = Basis {
        inputs: ground.inputs,
        places: ground.places,
        lists: ground.lists,
        links: linked.links,
        summed: false,
    };
    let mut sorted = Sorted::new(ground.alloc);
    let room = Order::new(ground.alloc);
    let order = ordered(
        ground.alloc,
        basis.graph(),
        left.as_slice(),
        false,
        &mut sorted,
        room,
    )?;
    reckon_together(crew, basis, order, figures)
}

/// The Blocks under the figures of the whole sheet.
fn put_whole_blocks<G: Gate>(ground: Ground<'_>, figures: &mut Figures, gate: &G)
    requires ground { IsGround ground }
    requires done { AreDoneTo ground figures.old (turn 7 0 0) (turn 7 0 0) }
    ensures { AreDoneTo ground.entry figures.new (turn 7 0 0) (turn 7 0 153) }
{
    for number in 0..WHOLES {
        put_blocks_at(ground, figures, number, gate);
    }
}

/// The Blocks under the figure of the whole sheet at a number, if the balance sheet has it.
fn put_blocks_at<G: Gate>(ground: Ground<'_>, figures: &mut Figures, number: u32, gate: &G)
    requires ground { IsGround ground }
    requires number { number < 153 }
    requires done { AreDoneTo ground figures.old (turn 7 0 0) (turn 7 0 number) }
    ensures { AreDoneTo ground.entry figures.new (turn 7 0 0) (turn 7 0 (number + 1)) }
{
    let node = Node::Whole(whole_at(number));
    if !is_live(ground.inputs.book.sheet(), &node) {
        return;
    }
    put_under(ground, figures, &node, gate);
}

/// The numbers of what is left, which are the first of all.
fn left_numbers(alloc: Global, numbers: Numbers<'_>) -> Result<Vec<u32>, NoMemory>
    requires numbers { AreNumbersOf numbers.book.now numbers.places.now numbers.lists.now }
    ensures { IfOk result (λ list. AreLeft numbers.entry list.items) }
{
    let mut list = Vec::new(alloc);
    for number in 0..WHOLES {
        if is_left_at(numbers, number) {
            list.push(number)?;
        }
    }
    Ok(list)
}

/// The number is that of a point that is left and that the book has.
fn is_left_at(numbers: Numbers<'_>, number: u32) -> bool
    requires numbers { AreNumbersOf numbers.book.now numbers.places.now numbers.lists.now }
    ensures there { result ≡ true → IsLeftAt numbers.entry number }
    ensures absent { result ≡ false → (point : ThePoint)
        → StandsIn numbers.entry.book.now numbers.entry.places.now numbers.entry.lists.now point number
        → is_live_in (rolled_of numbers.entry.book.now) point ≡ true → is_left point ≡ false }
{
    match numbers.point_at(number) {
        Some(point) => is_left(&point) && is_live_in(numbers.book, &point),
        None => false,
    }
}

/// The point is reckoned after all rows, currencies and Blocks.
fn is_left(point: &Point) -> bool
    ensures { result ≡ is_left point.now }
{
    match point {
        Point::Figure(Node::Whole(whole)) => !matches!(whole, Whole::Assets),
        _ => false,
    }
}
