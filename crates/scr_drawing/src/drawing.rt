//! The drawing of a book's requirement.
ghost use Rattle.std.specs.Prelude.{◌≡◌, ◌<◌, ◌≤◌, ◌++◌, length, OnOk};
ghost use Rattle.scr_drawing.specs.Drawing.{amounts, bars, between, cell_in, drawing, drawn, head, legend, outline, row_text, rows_text, whole_of, width_of};
ghost use Rattle.scr_drawing.specs.Rows.{IsWithin, rows, seen};

use crate::elements::{LEFT, Rect, push, push_rect, push_text_start};
use crate::rows::{ROW_COUNT, Row, row_at};
use scr_amounts::{Bounds, push_amount};
use std::alloc::{AllocError as NoMemory, Global};

/// The width of the longest bar, in the drawing's units.
const LONGEST: u128 = 560;

/// Amounts up to so many cents are drawn to scale.
const MODERATE: u128 = 1_000_000_000_000_000_000_000_000_000_000;

/// The number of the cell of what diversification of the modules takes.
const DIVERSIFICATION: u32 = 10;

/// The number of the cell of the Basic Solvency Capital Requirement.
const BASIC: u32 = 11;

/// Appends a drawing of these cells: a row for the requirement, each module and each sub-module, with its name, the
/// bounds of its gross and net amounts, an outlined bar for the gross and a filled one within it for the net amount, and a
/// dashed bar for what is taken off. All bars are drawn to one scale.
#[tactic(auto, unfolding(crate::specs::Drawing::drawing))]
pub fn push_drawing(
    alloc: Global,
    currency: &[u8],
    cells: &[Bounds],
    out: &mut Vec<u8>,
) -> Result<(), NoMemory>
    requires { length cells.now ≡ 102 }
    ensures { OnOk result (out.new.items ≡ out.old.items ++ drawing currency.now cells.now) }
{
    push(out, head())?;
    push(out, legend())?;
    out.extend_from_slice(currency)?;
    push(out, "</text>\n")?;
    push_rows(alloc, cells, whole_of(cells), out)?;
    push(out, "</svg>\n")
}

/// The start of the drawing, which fills a page of the size A4 when it is printed.
#[tactic(auto, unfolding(crate::specs::Drawing::head))]
fn head() -> &'static str
    ensures { result.now ≡ head }
{
    "<svg xmlns=\"http://www.w3.org/2000/svg\" width=\"210mm\" height=\"297mm\" viewBox=\"0 0 980 1386\" font-family=\"sans-serif\" font-size=\"13\">\n<title>Solvency Capital Requirement</title>\n"
}

/// What the bars mean, up to the currency of the amounts.
#[tactic(auto, unfolding(crate::specs::Drawing::legend))]
fn legend() -> &'static str
    ensures { result.now ≡ legend }
{
    "<text x=\"10\" y=\"24\">Outlined: gross. Filled: net. Dashed: what is taken off. Amounts: a lower and an upper bound, in "
}

fn push_rows(
    alloc: Global,
    cells: &[Bounds],
    whole: u128,
    out: &mut Vec<u8>,
) -> Result<(), NoMemory>
    requires scale { 0 < whole }
    requires count { length cells.now ≡ 102 }
    ensures { OnOk result (out.new.items ≡ out.old.items ++ rows_text cells.now whole 50 rows) }
{
    for k in 0..ROW_COUNT {
        push_row(alloc, cells, whole, 50 + 40 * k, row_at(k), out)?;
    }
    Ok(())
}

/// What the longest bar stands for: the Basic Solvency Capital Requirement with what diversification
/// takes, so that each module is shorter.
fn whole_of(cells: &[Bounds]) -> u128
    requires { length cells.now ≡ 102 }
    ensures value { result ≡ whole_of cells.now }
    ensures positive { 0 < result }
{
    (drawn(cell_in(cells, DIVERSIFICATION)) + drawn(cell_in(cells, BASIC))).max(1)
}

/// The bounds of the cell of this number.
fn cell_in(cells: &[Bounds], k: u32) -> &Bounds
    requires { k < length cells.now }
    ensures { result.now ≡ cell_in cells.now k }
{
    &cells[k as usize]
}

/// The bound of a cell that is farther from nil, without its sign, as far as it is drawn to scale.
#[tactic(auto, unfolding(crate::specs::Drawing::drawn))]
fn drawn(cell: &Bounds) -> u128
    ensures value { result ≡ drawn cell.now }
    ensures within { result ≤ 1_000_000_000_000_000_000_000_000_000_000 }
{
    cell.low
        .unsigned_abs()
        .max(cell.high.unsigned_abs())
        .min(MODERATE)
}

#[tactic(auto, unfolding(crate::specs::Drawing::width_of))]
fn width_of(cell: &Bounds, whole: u128) -> u32
    requires { 0 < whole }
    ensures { result ≡ width_of whole cell.now }
{
    (drawn(cell) * LONGEST / whole).min(640) as u32
}

#[tactic(auto, unfolding(crate::specs::Drawing::row_text))]
fn push_row(
    alloc: Global,
    cells: &[Bounds],
    whole: u128,
    y: u32,
    row: &Row,
    out: &mut Vec<u8>,
) -> Result<(), NoMemory>
    requires scale { 0 < whole }
    requires height { y ≤ 100_000 }
    requires row { IsWithin (seen row.now) }
    requires count { length cells.now ≡ 102 }
    ensures { OnOk result (out.new.items ≡ out.old.items
        ++ row_text cells.now whole y (seen row.now)) }
{
    push_text_start(alloc, out, 10 + 16 * row.level, y + 14)?;
    push(out, row.label)?;
    push(out, "</text>\n")?;
    push_bars(alloc, cells, whole, y, row, out)?;
    push_text_start(alloc, out, LEFT, y + 32)?;
    push_amounts(alloc, cells, row, out)?;
    push(out, "</text>\n")
}

#[tactic(auto, unfolding(crate::specs::Drawing::bars))]
fn push_bars(
    alloc: Global,
    cells: &[Bounds],
    whole: u128,
    y: u32,
    row: &Row,
    out: &mut Vec<u8>,
) -> Result<(), NoMemory>
    requires scale { 0 < whole }
    requires height { y ≤ 100_000 }
    requires row { IsWithin (seen row.now) }
    requires count { length cells.now ≡ 102 }
    ensures { OnOk result (out.new.items ≡ out.old.items ++ bars cells.now whole y (seen row.now)) }
{
    let gross = Rect {
        y,
        width: width_of(cell_in(cells, row.gross), whole),
        height: 18,
        style: outline(row.takes),
    };
    push_rect(alloc, out, &gross)?;
    if row.takes {
        return Ok(());
    }
    let net = Rect {
        y: y + 5,
        width: width_of(cell_in(cells, row.net), whole),
        height: 8,
        style: " fill=\"dimgray\"",
    };
    push_rect(alloc, out, &net)
}

fn outline(takes: bool) -> &'static str
    ensures { result.now ≡ outline takes }
{
    if takes {
        " fill=\"none\" stroke=\"black\" stroke-dasharray=\"5 3\""
    } else {
        " fill=\"none\" stroke=\"black\""
    }
}

#[tactic(auto, unfolding(crate::specs::Drawing::amounts))]
fn push_amounts(
    alloc: Global,
    cells: &[Bounds],
    row: &Row,
    out: &mut Vec<u8>,
) -> Result<(), NoMemory>
    requires row { IsWithin (seen row.now) }
    requires count { length cells.now ≡ 102 }
    ensures { OnOk result (out.new.items ≡ out.old.items ++ amounts cells.now (seen row.now)) }
{
    if row.takes || row.gross == row.net {
        return push_between(alloc, cell_in(cells, row.gross), out);
    }
    push(out, "gross ")?;
    push_between(alloc, cell_in(cells, row.gross), out)?;
    push(out, ", net ")?;
    push_between(alloc, cell_in(cells, row.net), out)
}

#[tactic(auto, unfolding(crate::specs::Drawing::between))]
fn push_between(alloc: Global, cell: &Bounds, out: &mut Vec<u8>) -> Result<(), NoMemory>
    ensures { OnOk result (out.new.items ≡ out.old.items ++ between cell.now) }
{
    push_amount(alloc, out, cell.low)?;
    push(out, " to ")?;
    push_amount(alloc, out, cell.high)
}
