//! Which cells of the report a record moves, and by how much.
ghost use Rattle.std.specs.Prelude.{◌≡◌, ◌++◌, ◌<◌, length, option_map, slice_get, IfOk, OnOk, Some};
ghost use Rattle.scr_cells.specs.Table.{table};
ghost use Rattle.scr_explanation.specs.Moves.{all_bounds, cell_bounds, is_same, move_text, moved_by, moves, printed};

use crate::taken::excess;
use crate::texts::{push, push_between};
use scr_amounts::Bounds;
use scr_cells::{CELL_COUNT, Cell, cell, cell_name};
use scr_tree::Engine;
use std::alloc::{AllocError as NoMemory, Global};
use std::marker::Model;

/// The bounds of all cells of a book, in the order of the report. Contracts see the list of them.
#[derive(Drop)]
pub struct CellBounds {
    bounds: Vec<Bounds>,
}

impl Model for CellBounds {
    ghost use Rattle.std.specs.Prelude.{◌≡◌, List, length};
    ghost use Rattle.scr_cells.specs.Table.{table};
    ghost use Rattle.scr_amounts.specs.declared.bounds.Bounds.{Bounds};

    ghost Value = { List Bounds };

    ghost view = { λ all. all.bounds.items };

    ghost invariant = { λ all. length all.bounds.items ≡ length table };
}

impl CellBounds {
    /// The bounds, one for each cell.
    #[tactic(auto, using(crate::proofs::MovedCells::length_table))]
    pub fn as_slice(&self) -> &[Bounds]
        ensures same { result.now ≡ self.now }
        ensures count { length result.now ≡ 102 }
    {
        self.bounds.as_slice()
    }
}

/// Those of the engine's book.
pub fn cell_bounds(alloc: Global, engine: &Engine) -> Result<CellBounds, NoMemory>
    ensures { IfOk result (λ all. all ≡ all_bounds engine.now.factors engine.now.sheet) }
{
    let mut bounds = Vec::new(alloc);
    for k in 0..CELL_COUNT {
        bounds.push(bounds_at(engine, k))?;
    }
    Ok(CellBounds { bounds })
}

fn bounds_at(engine: &Engine, k: u32) -> Bounds
    requires { k < CELL_COUNT }
    ensures { option_map (λ shown. cell_bounds engine.now.factors engine.now.sheet shown)
        (slice_get table k) ≡ Some result }
{
    let cell = cell(engine, k);
    printed(&cell)
}

fn printed(cell: &Cell) -> Bounds
    ensures { result ≡ printed cell.now }
{
    Bounds {
        low: cell.low,
        high: cell.high,
    }
}

/// Appends a line for each cell whose bounds differ from those before, with both and by how much it
/// moved.
pub fn push_moves(
    alloc: Global,
    before: &CellBounds,
    engine: &Engine,
    out: &mut Vec<u8>,
) -> Result<(), NoMemory>
    ensures { OnOk result (out.new.items ≡ out.old.items
        ++ moves before.now (all_bounds engine.now.factors engine.now.sheet)) }
{
    push_from(alloc, before.bounds.as_slice(), engine, out)
}

fn push_from(
    alloc: Global,
    olds: &[Bounds],
    engine: &Engine,
    out: &mut Vec<u8>,
) -> Result<(), NoMemory>
    requires { length olds.now ≡ length table }
    ensures { OnOk result (out.new.items ≡ out.old.items
        ++ moves olds.now (all_bounds engine.now.factors engine.now.sheet)) }
{
    for k in 0..CELL_COUNT {
        let new = bounds_at(engine, k);
        push_move(alloc, cell_name(k), bounds_in(olds, k), &new, out)?;
    }
    Ok(())
}

fn bounds_in(all: &[Bounds], k: u32) -> &Bounds
    requires { k < length all.now }
    ensures { slice_get all.now k ≡ Some result.now }
{
    &all[k as usize]
}

/// Appends the line of a cell that moved.
#[tactic(auto, unfolding(crate::specs::Moves::move_text))]
fn push_move(
    alloc: Global,
    name: &str,
    old: &Bounds,
    new: &Bounds,
    out: &mut Vec<u8>,
) -> Result<(), NoMemory>
    ensures { OnOk result (out.new.items ≡ out.old.items ++ move_text name.now old.now new.now) }
{
    if is_same(old, new) {
        return Ok(());
    }
    push(out, name)?;
    push_between(alloc, out, old)?;
    push(out, " to")?;
    push_between(alloc, out, new)?;
    push_by(alloc, excess(&[*new], old), out)?;
    push(out, "\n")
}

fn is_same(old: &Bounds, new: &Bounds) -> bool
    ensures { result ≡ is_same old.now new.now }
{
    old.low == new.low && old.high == new.high
}

fn push_by(alloc: Global, by: Option<Bounds>, out: &mut Vec<u8>) -> Result<(), NoMemory>
    ensures { OnOk result (out.new.items ≡ out.old.items ++ moved_by by) }
{
    let Some(by) = by else {
        return Ok(());
    };
    push(out, " by")?;
    push_between(alloc, out, &by)
}
