//! The points that a record touches, by their numbers.

ghost use Rattle.std.specs.Prelude.{◌≡◌, ◌≤◌, true, nat_eq, IfOk, IfSome, IsNone, OnOk};
ghost use Rattle.std.specs.List.{AllByRecursion, IsDistinct};
ghost use Rattle.scr_sum_tree.specs.Blocks.{HasEachOnce};
ghost use Rattle.scr_sheet.specs.Validity.{Valid};
ghost use Rattle.scr_nodes.specs.Live.{is_live};
ghost use Rattle.scr_figure_ids.specs.Numbers.{IsNumbered, StandsAt};
ghost use Rattle.scr_reachability.specs.LinkedDues.{AreDuesFor, AreStarts, IsDueAt, IsLiveAt};
ghost use Rattle.scr_reachability.specs.Linked.{AreNumbers};
ghost use Rattle.scr_block_graph.specs.Books.{rolled_of};
ghost use Rattle.scr_tree.specs.Graphs.{graph_of};
ghost use Rattle.scr_tree.specs.Points.{AreNumbersOf, StandsIn, book_graph};
ghost use Rattle.scr_tree.specs.Starts as starting;
ghost use Rattle.scr_tree.specs.Starts.{AreFormer, AreMarked, IsLiveOrEmpty, IsMarkedOf, IsPointPushed, IsPushedIf, relinked};

use crate::graph::{Numbers, is_linked};
use scr_block_graph::{Point, is_live_in};
use scr_book::{Edit, Table as RowTable};
use scr_figure_ids::{View, find, node_at, push_walked};
use scr_links::Links;
use scr_nodes::{Node, is_live};
use scr_reachability::{Due, Marked, linked_sources};
use std::alloc::{AllocError as NoMemory, Global};

/// Marks the numbers of those points that the book has.
pub(crate) fn mark_starts(
    marks: &mut Marked,
    numbers: Numbers<'_>,
    touched: &[Point],
) -> Result<(), NoMemory>
    requires numbers { AreNumbersOf numbers.book.now numbers.places.now numbers.lists.now }
    requires room { numbers.places.now.size ≤ marks.old.size }
    ensures marked { OnOk result (AreMarked (book_graph (rolled_of numbers.entry.book.now))
        (StandsIn numbers.entry.book.now numbers.entry.places.now numbers.entry.lists.now) touched.now marks.old.list marks.new.list) }
    ensures size { marks.new.size ≡ marks.old.size }
{
    for point in touched {
        mark_start(marks, numbers, point)?;
    }
    Ok(())
}

/// Marks the number of a point, if the book has it.
fn mark_start(marks: &mut Marked, numbers: Numbers<'_>, point: &Point) -> Result<(), NoMemory>
    requires numbers { AreNumbersOf numbers.book.now numbers.places.now numbers.lists.now }
    requires room { numbers.places.now.size ≤ marks.old.size }
    ensures marked { OnOk result (IsMarkedOf (book_graph (rolled_of numbers.entry.book.now))
        (StandsIn numbers.entry.book.now numbers.entry.places.now numbers.entry.lists.now) point.now marks.old.list marks.new.list) }
    ensures size { marks.new.size ≡ marks.old.size }
{
    if !is_live_in(numbers.book, point) {
        return Ok(());
    }
    match numbers.number_of(point) {
        Some(number) => {
            marks.insert(number)?;
            Ok(())
        }
        None => Ok(()),
    }
}

/// The numbers of those touched figures whose links the record may change.
pub(crate) fn linked_numbers(
    alloc: Global,
    view: View<'_>,
    edit: &Edit,
    touched: &[Point],
) -> Result<Vec<u32>, NoMemory>
    requires valid { Valid view.sheet.now }
    requires numbered { IsNumbered view.sheet.now view.places.now }
    requires numbers { AreNumbers (graph_of view.sheet.now) (StandsAt view.sheet.now view.places.now) view.places.now.size }
    requires once { HasEachOnce touched.now }
    ensures starts { IfOk result (λ numbers. AreStarts (StandsAt view.entry.sheet.now view.entry.places.now) (relinked edit.now touched.now) numbers.items) }
    ensures once { IfOk result (λ numbers. IsDistinct nat_eq numbers.items) }
{
    let mut numbers = Vec::new(alloc);
    for point in touched {
        push_of_point(&mut numbers, view, edit, point)?;
    }
    Ok(numbers)
}

/// Pushes the number of a point whose links the record may change.
fn push_of_point(
    numbers: &mut Vec<u32>,
    view: View<'_>,
    edit: &Edit,
    point: &Point,
) -> Result<(), NoMemory>
    requires { IsNumbered view.sheet.now view.places.now }
    ensures { OnOk result (IsPointPushed (StandsAt view.entry.sheet.now view.entry.places.now) edit.now point.now numbers.old.items numbers.new.items) }
{
    match point {
        Point::Figure(node) => push_number(numbers, view, edit, node),
        Point::Block(_) => Ok(()),
    }
}

fn push_number(
    numbers: &mut Vec<u32>,
    view: View<'_>,
    edit: &Edit,
    node: &Node,
) -> Result<(), NoMemory>
    requires { IsNumbered view.sheet.now view.places.now }
    ensures { OnOk result (IsPushedIf (StandsAt view.entry.sheet.now view.entry.places.now) edit.now node.now numbers.old.items numbers.new.items) }
{
    if !is_linked(node) || keeps_links(edit, node) {
        return Ok(());
    }
    if let Some(number) = find(view.places, view.sheet, node) {
        numbers.push(number)?;
    }
    Ok(())
}

/// Who holds a fund or a security, no record changes but that of a fund. One that comes or goes nobody holds.
fn keeps_links(edit: &Edit, node: &Node) -> bool
    ensures { result ≡ starting.keeps_links edit.now node.now }
{
    match node {
        Node::Fund(_, _) | Node::Security(_, _) => !is_of_fund(edit),
        _ => false,
    }
}

fn is_of_fund(edit: &Edit) -> bool
    ensures { result ≡ starting.is_of_fund edit.now }
{
    matches!(
        edit,
        Edit::Fund { .. }
            | Edit::Remove {
                table: RowTable::Fund,
                ..
            }
    )
}

/// What is due to be linked to these numbers.
pub(crate) fn dues_at(alloc: Global, view: View<'_>, numbers: &[u32]) -> Result<Vec<Due>, NoMemory>
    requires valid { Valid view.sheet.now }
    requires numbered { IsNumbered view.sheet.now view.places.now }
    requires numbers { AreNumbers (graph_of view.sheet.now) (StandsAt view.sheet.now view.places.now) view.places.now.size }
    ensures dues { IfOk result (λ dues. AreDuesFor (graph_of view.entry.sheet.now) (StandsAt view.entry.sheet.now view.entry.places.now) numbers.now dues.items) }
    ensures empty { IfOk result (λ dues. AllByRecursion (IsLiveOrEmpty (graph_of view.entry.sheet.now) (StandsAt view.entry.sheet.now view.entry.places.now)) dues.items) }
{
    let mut dues = Vec::with_capacity(alloc, numbers.len())?;
    for number in numbers {
        let due = due_at(alloc, view, *number)?;
        dues.push(due)?;
    }
    Ok(dues)
}

/// What is due to be linked to one number.
fn due_at(alloc: Global, view: View<'_>, number: u32) -> Result<Due, NoMemory>
    requires valid { Valid view.sheet.now }
    requires numbered { IsNumbered view.sheet.now view.places.now }
    requires numbers { AreNumbers (graph_of view.sheet.now) (StandsAt view.sheet.now view.places.now) view.places.now.size }
    ensures number { IfOk result (λ due. due.number ≡ number) }
    ensures due { IfOk result (IsDueAt (graph_of view.entry.sheet.now) (StandsAt view.entry.sheet.now view.entry.places.now)) }
    ensures empty { IfOk result (IsLiveOrEmpty (graph_of view.entry.sheet.now) (StandsAt view.entry.sheet.now view.entry.places.now)) }
{
    let mut sources = Vec::new(alloc);
    match live_at(view, number) {
        Some(node) => {
            push_walked(&mut sources, view, &node)?;
            Ok(Due { number, sources })
        }
        None => Ok(Due { number, sources }),
    }
}

/// The live figure at a number.
fn live_at(view: View<'_>, number: u32) -> Option<Node>
    requires numbered { IsNumbered view.sheet.now view.places.now }
    requires numbers { AreNumbers (graph_of view.sheet.now) (StandsAt view.sheet.now view.places.now) view.places.now.size }
    ensures there { IfSome result (λ node. StandsAt view.entry.sheet.now view.entry.places.now node number) }
    ensures live { IfSome result (λ node. is_live view.entry.sheet.now node ≡ true) }
    ensures absent { IsNone result → IsLiveAt (graph_of view.entry.sheet.now) (StandsAt view.entry.sheet.now view.entry.places.now) number → ⊥ }
{
    match node_at(view.places, view.sheet, number) {
        Some(node) if is_live(view.sheet, &node) => Some(node),
        _ => None,
    }
}

/// What is linked to these numbers so far.
pub(crate) fn linked_dues(
    alloc: Global,
    links: &Links,
    numbers: &[u32],
) -> Result<Vec<Due>, NoMemory>
    ensures { IfOk result (λ dues. AreFormer numbers.now links.now.edges dues.items) }
{
    let mut dues = Vec::with_capacity(alloc, numbers.len())?;
    for number in numbers {
        let sources = linked_sources(alloc, links, *number)?;
        dues.push(Due {
            number: *number,
            sources,
        })?;
    }
    Ok(dues)
}
