//! A sum before and after a record, and the Blocks under it that change.
ghost use Rattle.std.specs.Prelude.{◌≡◌, ℕ, ◌≤◌, ◌++◌, ◌∷◌, [], IfSome, OnOk, Some, false, map, option_to_list, slice_get, true};
ghost use Rattle.std.specs.List.{position_or_len, range_with_len};
ghost use Rattle.scr_tables.specs.Names.{same_name};
ghost use Rattle.scr_row_change.specs.Changes.{IsNamed, after, change_of as the_change};
ghost use Rattle.scr_sheet.specs.Members.{edit_name, is_member};
ghost use Rattle.scr_sheet.specs.Records.{applied};
ghost use Rattle.scr_sheet.specs.Validity.{Valid};
ghost use Rattle.scr_block_graph.specs.Books.{rolled_of};
ghost use Rattle.scr_block_graph.specs.Graph.{IsRoll, block_point, roll_in};
ghost use Rattle.scr_block_graph.specs.Sums.{roll_of};
ghost use Rattle.scr_block_graph.specs.Told.{blocks_by, moves, turn_at};
ghost use Rattle.scr_block_graph.specs.Turns as spec;
ghost use Rattle.scr_block_graph.specs.declared.sum.Sum.{Sum as TheSum};

use crate::graph::{members, reads};
use crate::later::{is_member_after, reads_after};
use crate::{Block, Point, Sum};
use scr_book::Book;
use scr_row_change::Change;
use scr_sheet::{Edit, Name, row_name};
use scr_sum_tree::{Level, blocks_at, coming, leaving, top_count};
use std::alloc::AllocError as NoMemory;

/// The change of a sum's member list by a record.
#[derive(Clone, Copy)]
pub(crate) enum Step {
    Stays,
    /// A member is appended.
    Comes,
    /// The member at this position is swap-removed.
    Leaves(usize),
}

/// A sum before and after a record.
#[derive(Clone, Copy)]
pub(crate) struct Turn {
    pub(crate) sum: Sum,
    /// Whether the balance sheet has a figure computed from the sum, before and after.
    pub(crate) was_read: bool,
    pub(crate) is_read: bool,
    /// The number of members before.
    pub(crate) count: usize,
    pub(crate) step: Step,
}

/// The sum, if there is one, before and after the record, whose change of rows is `change`.
pub(crate) fn turn_at(book: &Book, edit: &Edit, change: &Change, sum: Option<Sum>) -> Option<Turn>
    requires { change.now ≡ the_change edit.now book.now.sheet }
    ensures turn { result ≡ turn_at edit.now (rolled_of book.now) sum }
    ensures small { IfSome result spec.IsSmall }
    ensures own { (of : TheSum) → sum ≡ Some of → IsRoll (rolled_of book.now) (roll_of of) }
{
    match sum {
        Some(sum) => Some(turn_of(book, edit, change, &sum)),
        None => None,
    }
}

fn turn_of(book: &Book, edit: &Edit, change: &Change, sum: &Sum) -> Turn
    requires { change.now ≡ the_change edit.now book.now.sheet }
    ensures turn { result ≡ spec.turn_of edit.now (rolled_of book.now) sum.now }
    ensures small { spec.IsSmall result }
    ensures own { IsRoll (rolled_of book.now) (roll_of sum.now) }
{
    let sheet = book.sheet();
    let names = members(book, sum);
    Turn {
        sum: *sum,
        was_read: reads(sheet, sum),
        is_read: reads_after(sheet, change, sum),
        count: names.len(),
        step: step_of(book, edit, change, sum),
    }
}

/// The change of the sum's member list by the record; only its own row can join or leave.
fn step_of(book: &Book, edit: &Edit, change: &Change, sum: &Sum) -> Step
    requires { change.now ≡ the_change edit.now book.now.sheet }
    ensures { result ≡ spec.step_of (is_member (roll_of sum.now) (edit_name edit.now) book.now.sheet)
        (is_member (roll_of sum.now) (edit_name edit.now) (applied edit.now book.now.sheet))
        (position_or_len (same_name (edit_name edit.now)) (roll_in (rolled_of book.now) sum.now)) }
{
    match row_name(edit) {
        Some(name) => named_step(book, change, sum, &name),
        None => Step::Stays,
    }
}

/// The change of the list if the row of a name joins or leaves; its position is looked up in the book.
fn named_step(book: &Book, change: &Change, sum: &Sum, name: &Name) -> Step
    requires { IsNamed change.now }
    ensures step { result ≡ spec.step_of (is_member (roll_of sum.now) name.now book.now.sheet)
        (is_member (roll_of sum.now) name.now (after change.now book.now.sheet))
        (position_or_len (same_name name.now) (roll_in (rolled_of book.now) sum.now)) }
    ensures valid { Valid book.now.sheet }
{
    let is = is_later(book, change, sum, name);
    match book.place(sum.roll(), name) {
        Some(place) => left(place, is),
        None => joined(is),
    }
}

/// Whether the row of the name is a member after the record.
fn is_later(book: &Book, change: &Change, sum: &Sum, name: &Name) -> bool
    requires { IsNamed change.now }
    ensures is { result ≡ is_member (roll_of sum.now) name.now (after change.now book.now.sheet) }
    ensures valid { Valid book.now.sheet }
{
    is_member_after(book.sheet(), change, sum, name)
}

/// The change of a list that held the row at a position.
fn left(place: u32, is: bool) -> Step
    ensures { result ≡ spec.step_of true is place }
{
    if is {
        Step::Stays
    } else {
        Step::Leaves(place as usize)
    }
}

/// The change of a list that did not hold the row.
fn joined(is: bool) -> Step
    ensures { (place : ℕ) → result ≡ spec.step_of false is place }
{
    if is { Step::Comes } else { Step::Stays }
}

/// The number of members after the record.
fn count_after(turn: &Turn) -> usize
    requires { spec.IsSmall turn.now }
    ensures { result ≡ spec.count_after turn.now.count turn.now.step }
{
    match turn.step {
        Step::Stays => turn.count,
        Step::Comes => turn.count + 1,
        Step::Leaves(_) => turn.count.saturating_sub(1),
    }
}

/// Whether a figure computed from the sum comes or goes, or the points at the top of the sum change.
pub(crate) fn moves(turn: &Turn) -> bool
    requires { spec.IsSmall turn.now }
    ensures { result ≡ moves turn.now }
{
    turn.was_read != turn.is_read || top_count(turn.count) != top_count(count_after(turn))
}

/// Pushes the Blocks under the sum that change.
pub(crate) fn push_blocks(list: &mut Vec<Point>, turn: &Option<Turn>) -> Result<(), NoMemory>
    requires { IfSome turn.now spec.IsSmall }
    ensures { OnOk result (list.new.items ≡ list.old.items ++ blocks_by turn.now) }
{
    match turn {
        None => Ok(()),
        Some(turn) => {
            push_level(list, turn, Level::First)?;
            push_level(list, turn, Level::Second)
        }
    }
}

/// Pushes the Blocks of a level that change.
fn push_level(list: &mut Vec<Point>, turn: &Turn, level: Level) -> Result<(), NoMemory>
    requires { spec.IsSmall turn.now }
    ensures { OnOk result (list.new.items ≡ list.old.items ++ map (block_point turn.now.sum level) (spec.changed_blocks turn.now level)) }
{
    match (turn.was_read, turn.is_read) {
        (true, true) => push_steps(list, turn, level),
        (true, false) => push_all(list, turn, level, blocks_at(turn.count, level)),
        (false, true) => push_all(list, turn, level, blocks_at(count_after(turn), level)),
        (false, false) => Ok(()),
    }
}

/// Pushes the Blocks of a level that change while the sum is read before and after, at most four.
fn push_steps(list: &mut Vec<Point>, turn: &Turn, level: Level) -> Result<(), NoMemory>
    requires { spec.IsSmall turn.now }
    ensures { OnOk result (list.new.items ≡ list.old.items
        ++ map (block_point turn.now.sum level) (spec.changed_at turn.now.count turn.now.step level)) }
{
    for k in 0..4 {
        push_step(list, turn, level, k)?;
    }
    Ok(())
}

fn push_step(list: &mut Vec<Point>, turn: &Turn, level: Level, k: usize) -> Result<(), NoMemory>
    requires { spec.IsSmall turn.now }
    ensures { OnOk result (list.new.items ≡ list.old.items
        ++ map (block_point turn.now.sum level) (option_to_list (slice_get (spec.changed_at turn.now.count turn.now.step level) k))) }
{
    match changed_at(turn, level, k) {
        Some(index) => push_point(list, block(turn, level, index)),
        None => Ok(()),
    }
}

/// Pushes all `count` Blocks of a level.
fn push_all(list: &mut Vec<Point>, turn: &Turn, level: Level, count: usize) -> Result<(), NoMemory>
    requires { count ≤ 20001 }
    ensures { OnOk result (list.new.items ≡ list.old.items ++ map (block_point turn.now.sum level) (range_with_len 0 count)) }
{
    for index in 0..count as u32 {
        push_point(list, block(turn, level, index))?;
    }
    Ok(())
}

/// Pushes one point.
pub(crate) fn push_point(list: &mut Vec<Point>, point: Point) -> Result<(), NoMemory>
    ensures { OnOk result (list.new.items ≡ list.old.items ++ point ∷ []) }
{
    list.extend_from_slice(&[point])
}

fn block(turn: &Turn, level: Level, index: u32) -> Point
    ensures { result ≡ block_point turn.now.sum level index }
{
    Point::Block(Block {
        sum: turn.sum,
        level,
        index,
    })
}

/// The `k`-th Block (from 0) of a level that changes while the sum is read before and after; `None` past the last.
fn changed_at(turn: &Turn, level: Level, k: usize) -> Option<u32>
    requires { spec.IsSmall turn.now }
    ensures { result ≡ slice_get (spec.changed_at turn.now.count turn.now.step level) k }
{
    match index_at(turn, level, k) {
        Some(index) => Some(index as u32),
        None => None,
    }
}

fn index_at(turn: &Turn, level: Level, k: usize) -> Option<usize>
    ensures { result ≡ slice_get (spec.changed_at turn.now.count turn.now.step level) k }
{
    match turn.step {
        Step::Stays => None,
        Step::Comes => coming(turn.count, level, k),
        Step::Leaves(place) => leaving(turn.count, place, level, k),
    }
}
