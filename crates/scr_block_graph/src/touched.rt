//! The points that a record touches.
ghost use Rattle.std.specs.Prelude.{◌≡◌, ◌↔◌, ◌⊎◌, ◌++◌, ◌∷◌, [], Contains, IfOk, IfSome, None, OnOk, Some, false, flat_map, if◌then◌else◌, is_some};
ghost use Rattle.std.specs.List.{list_any};
ghost use Rattle.std.specs.Option.{option_map_or};
ghost use Rattle.scr_factors.specs.Values.{FactorValues};
ghost use Rattle.scr_sum_tree.specs.Blocks.{HasEachOnce};
ghost use Rattle.scr_sheet.specs.Faults.{fault_of};
ghost use Rattle.scr_sheet.specs.Forms.{Formed};
ghost use Rattle.scr_sheet.specs.Records.{applied};
ghost use Rattle.scr_row_change.specs.Changes.{change_of as the_change};
ghost use Rattle.scr_nodes.specs.Changed.{IsChanged};
ghost use Rattle.scr_nodes.specs.LiveNodes.{HasNoRepeats};
ghost use Rattle.scr_nodes.specs.declared.node.Node.{Node as TheNode};
ghost use Rattle.scr_block_graph.specs.Books.{rolled_of};
ghost use Rattle.scr_block_graph.specs.Graph.{IsRoll};
ghost use Rattle.scr_block_graph.specs.Sums.{first_sum, roll_of, second_sum};
ghost use Rattle.scr_block_graph.specs.Told as spec;
ghost use Rattle.scr_block_graph.specs.Touched.{IsTouchedIn};
ghost use Rattle.scr_block_graph.specs.declared.point.Point.{Point as ThePoint};
ghost use Rattle.scr_block_graph.specs.Turns.{IsSmall};
ghost use Rattle.scr_block_graph.specs.declared.point.Point.TheVariants as points;
ghost use Rattle.scr_block_graph.specs.declared.sum.Sum.{Sum as TheSum};

use crate::turns::{Turn, moves, push_blocks, push_point, turn_at};
use crate::{Point, first_sum, sums_of};
use scr_book::Book;
use scr_nodes::{Direction, Node, OfCurrency};
use scr_row_change::{Change, change_of};
use scr_sheet::{Edit, fields_outside};
use std::alloc::{AllocError as NoMemory, Global};
use std::mem::drop;

/// The figures and Blocks that the record touches, each once: it changes their own data or sources, makes them or removes them.
/// The input `told` lists, each once, the figures that it changes in the balance sheet alone (`scr_touched::touched`). For a
/// record that the book would refuse only freedom from repeats is promised. `NoMemory` if the list doesn't fit. It costs the
/// making of the record's row and some look-ups for each figure computed from large sums. If a sum is first read or no longer
/// read, it costs all Blocks under it.
pub fn touched_in(
    alloc: Global,
    book: &Book,
    edit: &Edit,
    told: Vec<Node>,
) -> Result<Vec<Point>, NoMemory>
    requires formed { Formed edit.now }
    requires told { (factors : FactorValues) (node : TheNode) → fault_of edit.now book.now.sheet ≡ None
        → Contains told.items node ↔ IsChanged factors book.now.sheet (applied edit.now book.now.sheet) node }
    requires once { HasNoRepeats told.items }
    ensures touched { IfOk result (λ list. (factors : FactorValues) (point : ThePoint) → fault_of edit.now book.now.sheet ≡ None
        → Contains list.items point ↔ IsTouchedIn factors (rolled_of book.now) edit.now point) }
    ensures once { IfOk result (λ list. HasEachOnce list.items) }
{
    if fields_outside(edit).is_some() {
        return Ok(Vec::new(alloc));
    }
    let sheet = book.sheet();
    let nodes = told.as_slice();
    if !have_sums(nodes) {
        return figures(alloc, nodes);
    }
    let change = change_of(alloc, sheet, edit)?;
    let list = touched_by(alloc, book, edit, &change, nodes);
    drop(change);
    list
}

/// Whether one of the figures is computed from a large sum. A record that only changes an amount held has none, so its row need
/// not be made.
fn have_sums(told: &[Node]) -> bool
    ensures { result ≡ list_any (λ node. is_some (first_sum node)) told.now }
{
    told.iter().any(|node| first_sum(node).is_some())
}

/// The figures as points, without Blocks.
fn figures(alloc: Global, told: &[Node]) -> Result<Vec<Point>, NoMemory>
    ensures { IfOk result (λ list. list.items ≡ flat_map (λ node. points.Figure node ∷ []) told.now) }
{
    let mut list = Vec::new(alloc);
    for node in told {
        push_point(&mut list, Point::Figure(*node))?;
    }
    Ok(list)
}

fn touched_by(
    alloc: Global,
    book: &Book,
    edit: &Edit,
    change: &Change,
    told: &[Node],
) -> Result<Vec<Point>, NoMemory>
    requires { change.now ≡ the_change edit.now book.now.sheet }
    ensures list { IfOk result (λ list. list.items ≡ spec.touched_points edit.now (rolled_of book.now) told.now) }
    ensures rolls { OnOk result (spec.HaveRolls (rolled_of book.now) told.now) }
{
    let mut list = Vec::new(alloc);
    for node in told {
        push_points(&mut list, book, edit, change, node)?;
    }
    Ok(list)
}

/// Pushes the figure, if it changes in the graph of the book too, and the changed Blocks under its sums.
fn push_points(
    list: &mut Vec<Point>,
    book: &Book,
    edit: &Edit,
    change: &Change,
    node: &Node,
) -> Result<(), NoMemory>
    requires { change.now ≡ the_change edit.now book.now.sheet }
    ensures list { OnOk result (list.new.items ≡ list.old.items ++ spec.points_of edit.now (rolled_of book.now) node.now) }
    ensures rolls { OnOk result ((sum : TheSum) → (first_sum node.now ≡ Some sum) ⊎ (second_sum node.now ≡ Some sum)
        → IsRoll (rolled_of book.now) (roll_of sum)) }
{
    let (first, second) = sums_of(node);
    let first = turn_at(book, edit, change, first);
    let second = turn_at(book, edit, change, second);
    push_turned(list, node, &first, &second)
}

/// Pushes the figure and the Blocks, from the figure's sums before and after the record.
fn push_turned(
    list: &mut Vec<Point>,
    node: &Node,
    first: &Option<Turn>,
    second: &Option<Turn>,
) -> Result<(), NoMemory>
    requires first { IfSome first.now IsSmall }
    requires second { IfSome second.now IsSmall }
    ensures { OnOk result (list.new.items ≡ list.old.items ++ spec.points_by node.now first.now second.now) }
{
    push_figure(list, node, is_kept(first, second))?;
    push_below(list, is_reader(node), first, second)
}

fn push_figure(list: &mut Vec<Point>, node: &Node, kept: bool) -> Result<(), NoMemory>
    ensures { OnOk result (list.new.items ≡ list.old.items ++ (if kept then points.Figure node.now ∷ [] else [])) }
{
    if !kept {
        return Ok(());
    }
    push_point(list, Point::Figure(*node))
}

fn push_below(
    list: &mut Vec<Point>,
    reader: bool,
    first: &Option<Turn>,
    second: &Option<Turn>,
) -> Result<(), NoMemory>
    requires first { IfSome first.now IsSmall }
    requires second { IfSome second.now IsSmall }
    ensures { OnOk result (list.new.items ≡ list.old.items ++ (if reader then spec.blocks_by first.now ++ spec.blocks_by second.now else [])) }
{
    if !reader {
        return Ok(());
    }
    push_blocks(list, first)?;
    push_blocks(list, second)
}

/// Whether a figure that changes in the balance sheet changes in the graph of the book: it is computed from no sum, or one of its
/// sums moves.
fn is_kept(first: &Option<Turn>, second: &Option<Turn>) -> bool
    requires first { IfSome first.now IsSmall }
    requires second { IfSome second.now IsSmall }
    ensures { result ≡ spec.kept_by first.now second.now }
{
    match first {
        None => true,
        Some(first) => moves(first) || second_moves(second),
    }
}

fn second_moves(second: &Option<Turn>) -> bool
    requires { IfSome second.now IsSmall }
    ensures { result ≡ option_map_or spec.moves second.now false }
{
    match second {
        None => false,
        Some(second) => moves(second),
    }
}

/// Whether the Blocks under a figure's sums are listed with this figure. A currency's two scenarios share their sums, and the rise
/// lists them.
fn is_reader(node: &Node) -> bool
    ensures { result ≡ spec.is_reader node.now }
{
    !matches!(
        node,
        Node::Currency(_, OfCurrency::Scenario(Direction::Down, _))
    )
}
