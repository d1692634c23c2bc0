//! What is told of an engine's book.
ghost use Rattle.std.specs.Prelude.{◌≡◌, ◌<◌, ◌++◌, ◌+ℤ◌, ◌≤ℤ◌, true, false, is_ok, is_some};
ghost use Rattle.std.specs.Prelude.{if◌then◌else◌, slice_get, IfOk, OnOk, Some};
ghost use Rattle.scr_nodes.specs.Live.{is_live};
ghost use Rattle.scr_nodes.specs.declared.node.Node.TheVariants as nodes;
ghost use Rattle.scr_cells.specs.Block.{block_text, cell_at, cell_line, cell_of, requirement_line};
ghost use Rattle.scr_cells.specs.Certified.{RestsOnNearChoice};
ghost use Rattle.scr_cells.specs.Table.{NamedFigure, seen, table};
ghost use Rattle.scr_widths.specs.Widths.{stated_width};

use crate::bounds::{Bounds, bounds_at};
use crate::cells::Cell;
use crate::lines::Lines;
use crate::printing::push_bounds;
use crate::table::{CELL_COUNT, Entry, REQUIREMENT, entry_of};
use scr_book::Book;
use scr_nodes::Node;
use scr_tree::Engine;
use scr_widths::stated_width;
use std::alloc::{AllocError as NoMemory, Global};

/// The cell of this number, from 0 in the order of the report's lines. Its bounds are no further
/// apart than its stated width, unless it is close: it then rests on a choice between alternatives
/// that are near.
pub fn cell(engine: &Engine, k: u32) -> Cell
    requires { k < CELL_COUNT }
    ensures cell { cell_at engine.now.factors engine.now.sheet k ≡ Some result }
    ensures narrow { result.close ≡ false → result.high ≤ℤ (result.low +ℤ result.width) }
    ensures near { result.close ≡ true → (shown : NamedFigure) → slice_get table k ≡ Some shown
        → RestsOnNearChoice engine.now.factors engine.now.sheet shown.node }
{
    engine.factors().known();
    let node = Node::Whole(entry_of(k).shown);
    let bounds = bounds_at(engine, &node);
    cell_of(k, &bounds, width_of(engine.book(), &node))
}

/// The stated width of a figure that has one, in cents.
fn width_of(book: &Book, node: &Node) -> u64
    requires { is_some (stated_width book.now.sheet node.now) ≡ true }
    ensures { stated_width book.now.sheet node.now ≡ Some result }
{
    match stated_width(book, node) {
        Some(width) => width,
        None => unreachable!(),
    }
}

fn cell_of(index: u32, bounds: &Bounds, width: u64) -> Cell
    ensures { result ≡ cell_of index bounds.now width }
{
    Cell {
        index,
        low: bounds.low,
        high: bounds.high,
        close: bounds.close,
        width: i128::from(width),
    }
}

/// Appends the block of the engine's book: a line for each cell, with its name, a lower and an
/// upper bound of its figure in euros, and `close` where it rests on a choice that is left open.
/// Where memory is refused, nothing is appended.
pub fn print_block(alloc: Global, engine: &Engine, out: &mut Vec<u8>) -> Result<(), NoMemory>
    ensures { out.new.items ≡ (if is_ok result
        then out.old.items ++ block_text engine.now.factors engine.now.sheet
        else out.old.items) }
{
    let mut lines = Lines::new(alloc);
    lines.print(alloc, engine, out)
}

/// The line of the Solvency Capital Requirement of the engine's book, as it stands in the block.
pub fn requirement_line(alloc: Global, engine: &Engine) -> Result<Vec<u8>, NoMemory>
    ensures { IfOk result (λ line. line.items
        ≡ requirement_line engine.now.factors engine.now.sheet) }
{
    let mut line = Vec::new(alloc);
    push_cell(alloc, engine, entry_of(REQUIREMENT), &mut line)?;
    Ok(line)
}

#[tactic(auto, unfolding(crate::specs::Block::cell_line))]
fn push_cell(
    alloc: Global,
    engine: &Engine,
    entry: &Entry,
    out: &mut Vec<u8>,
) -> Result<(), NoMemory>
    requires { is_live engine.now.sheet (nodes.Whole entry.now.shown) ≡ true }
    ensures { OnOk result (out.new.items ≡ out.old.items
        ++ cell_line engine.now.factors engine.now.sheet (seen entry.now)) }
{
    let bounds = bounds_at(engine, &Node::Whole(entry.shown));
    push_bounds(alloc, out, entry.name, &bounds)
}
