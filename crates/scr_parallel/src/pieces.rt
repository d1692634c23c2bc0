//! How rows are laid in pieces, and how the rows of a piece are reckoned.
ghost use Rattle.std.specs.Prelude.{◌≡◌, ◌++◌, ◌∷◌, ◌<◌, ◌≤◌, [], IfOk, OnOk};
ghost use Rattle.std.specs.List.{AllByRecursion};
ghost use Rattle.scr_parallel.specs.Pieces.{ArePieced, IsPieceReckoned};
ghost use Rattle.scr_parallel.specs.Rows.{IsWithin, all_rows, rows_from, rows_of};

use crate::rows::{Part, Piece, RowPlan, Sort};
use scr_io::Gate;
use std::alloc::{AllocError as NoMemory, Global};

/// How many pieces each worker is to draw, if there are rows enough: so no worker has much to do when no piece is left.
const PIECES_EACH: usize = 8;

/// No piece has more rows.
const MOST_ROWS: usize = 256;

/// All rows in pieces, those that take longest first.
pub(crate) fn pieces_of<P: RowPlan>(
    alloc: Global,
    plan: &P,
    workers: u32,
) -> Result<Vec<Piece>, NoMemory>
    requires { P.is_plan plan.now }
    ensures { IfOk result (λ pieces. ArePieced (P.count plan.now) (all_rows (P.count plan.now)) pieces.items) }
{
    let mut pieces = Vec::new(alloc);
    push_pieces(&mut pieces, plan, Sort::Liability, workers)?;
    push_pieces(&mut pieces, plan, Sort::Security, workers)?;
    push_pieces(&mut pieces, plan, Sort::Group, workers)?;
    Ok(pieces)
}

/// The rows of one sort, in pieces behind those that are there.
fn push_pieces<P: RowPlan>(
    pieces: &mut Vec<Piece>,
    plan: &P,
    sort: Sort,
    workers: u32,
) -> Result<(), NoMemory>
    requires plan { P.is_plan plan.now }
    requires before { AllByRecursion (IsWithin (P.count plan.now)) pieces.old.items }
    ensures { OnOk result (ArePieced (P.count plan.now)
        (rows_of pieces.old.items ++ rows_from sort 0 (P.count plan.now sort)) pieces.new.items) }
{
    let rows = plan.rows(sort);
    let each = rows_each(rows, workers);
    let mut from = 0;
    while from < rows {
        let end = if rows - from < each {
            rows
        } else {
            from + each
        };
        pieces.push(Piece { sort, from, end })?;
        from = end;
    }
    Ok(())
}

/// How many of so many rows lie in a piece.
fn rows_each(rows: usize, workers: u32) -> usize
    ensures { 0 < result }
{
    let wanted = (workers as usize).max(1) * PIECES_EACH;
    (rows / wanted).max(1).min(MOST_ROWS)
}

/// Reckons the rows of a piece, behind what the part has.
pub(crate) fn reckon_piece<P: RowPlan, G: Gate>(
    plan: &P,
    piece: Piece,
    part: &mut Part,
    gate: &G,
) -> Result<(), NoMemory>
    requires plan { P.is_plan plan.now }
    requires within { IsWithin (P.count plan.now) piece }
    ensures { OnOk result (IsPieceReckoned (P.is_row plan.now) piece part.old part.new) }
{
    for place in piece.from..piece.end {
        plan.reckon(piece.sort, place, &mut part.spans, gate)?;
    }
    part.pieces.push(piece)?;
    Ok(())
}
