//! The figures of rows, written at their numbers.
ghost use Rattle.std.specs.Prelude.{◌≡◌, ◌+◌, ◌<◌, ◌≤◌, ◌++◌, [], ◌∷◌, List, length};
ghost use Rattle.scr_num.specs.declared.span.Span.{Span};
ghost use Rattle.scr_parallel.specs.Rows.{AreAllRows, AreOfRows, ArePiecesWithin, IsPart, IsWithin, Row, row, rows_in, rows_of};
ghost use Rattle.scr_tree.specs.First.{IsGround};
ghost use Rattle.scr_tree.specs.RowSpans.{IsRowOf, row_count, sort_table};
ghost use Rattle.scr_tree.specs.Written.{IsWrittenAt, IsWrittenOf, rows_among};

use crate::figures::{Figure, Figures};
use crate::making::Ground;
use scr_ids::Table;
use scr_num::Span;
use scr_parallel::{Part, Piece, Sort};

/// Writes the figures of all rows, as workers have reckoned them by parts.
pub(crate) fn write_parts(ground: Ground<'_>, figures: &mut Figures, parts: &[Part])
    requires ground { IsGround ground }
    requires count { length figures.old ≡ ground.places.now.size }
    requires rows { AreAllRows (row_count ground.inputs.book.now.sheet) (IsRowOf ground.inputs.factors.now ground.inputs.book.now.sheet) parts.now }
    ensures { IsWrittenOf ground.entry (rows_among parts.now) figures.old figures.new }
{
    for part in parts {
        write_part(ground, figures, part);
    }
}

fn write_part(ground: Ground<'_>, figures: &mut Figures, part: &Part)
    requires ground { IsGround ground }
    requires count { length figures.old ≡ ground.places.now.size }
    requires within { ArePiecesWithin (row_count ground.inputs.book.now.sheet) part.now }
    requires rows { IsPart (IsRowOf ground.inputs.factors.now ground.inputs.book.now.sheet) part.now }
    ensures { IsWrittenOf ground.entry (rows_of part.now.pieces.items) figures.old figures.new }
{
    let mut rest = part.spans.as_slice();
    for piece in part.pieces.as_slice() {
        rest = write_piece(ground, figures, piece, rest);
    }
}

/// Writes the rows of a piece, whose spans come first, and tells which come next.
fn write_piece<'a>(
    ground: Ground<'_>,
    figures: &mut Figures,
    piece: &Piece,
    spans: &'a [Span],
) -> &'a [Span]
    requires ground { IsGround ground }
    requires count { length figures.old ≡ ground.places.now.size }
    requires within { IsWithin (row_count ground.inputs.book.now.sheet) piece.now }
    requires rows { (more : List Row)
        × AreOfRows (IsRowOf ground.inputs.factors.now ground.inputs.book.now.sheet) (rows_in piece.now ++ more) spans.now }
    ensures rest { (more : List Row)
        → AreOfRows (IsRowOf ground.entry.inputs.factors.now ground.entry.inputs.book.now.sheet) (rows_in piece.now ++ more) spans.now
        → AreOfRows (IsRowOf ground.entry.inputs.factors.now ground.entry.inputs.book.now.sheet) more result.now }
    ensures written { IsWrittenOf ground.entry (rows_in piece.now) figures.old figures.new }
{
    let mut rest = spans;
    for k in piece.from..piece.end {
        rest = write_row(ground, figures, piece.sort, k, rest);
    }
    rest
}

/// Writes the figures of the row at a place, whose spans come first, and tells which come next.
pub(crate) fn write_row<'a>(
    ground: Ground<'_>,
    figures: &mut Figures,
    sort: Sort,
    k: usize,
    spans: &'a [Span],
) -> &'a [Span]
    requires ground { IsGround ground }
    requires count { length figures.old ≡ ground.places.now.size }
    requires row { k < row_count ground.inputs.book.now.sheet sort }
    requires spans { (own rest : List Span) × (spans.now ≡ own ++ rest)
        × IsRowOf ground.inputs.factors.now ground.inputs.book.now.sheet sort k own }
    ensures rest { (own rest : List Span) → spans.now ≡ own ++ rest
        → IsRowOf ground.entry.inputs.factors.now ground.entry.inputs.book.now.sheet sort k own → result.now ≡ rest }
    ensures written { IsWrittenOf ground.entry (row sort k ∷ []) figures.old figures.new }
{
    let table = table_of(sort);
    ground.places.len();
    let first = ground.places.first(table, k);
    let (own, rest) = spans.split_at(table.stride() as usize);
    write_spans(figures, first, own);
    rest
}

/// The table of rows of a sort.
fn table_of(sort: Sort) -> Table
    ensures { result ≡ sort_table sort }
{
    match sort {
        Sort::Liability => Table::Liability,
        Sort::Security => Table::Security,
        Sort::Group => Table::Group,
    }
}

/// Writes figures that rest on no choice at the numbers from one on.
fn write_spans(figures: &mut Figures, first: u32, spans: &[Span])
    requires { first + length spans.now ≤ length figures.old }
    ensures { IsWrittenAt first spans.now figures.old figures.new }
{
    for j in 0..spans.len() {
        figures.set(
            first as usize + j,
            Figure {
                span: spans[j],
                close: false,
            },
        );
    }
}
