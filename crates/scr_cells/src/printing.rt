//! How the bounds of a cell are printed.
ghost use Rattle.std.specs.Prelude.{◌≡◌, ◌++◌, OnOk};
ghost use Rattle.scr_cells.specs.Block.{bound, bounds_line, close_mark};

use crate::bounds::Bounds;
use scr_amounts::push_amount;
use std::alloc::{AllocError as NoMemory, Global};

/// An amount of cents.
#[derive(Clone, Copy)]
struct Cents(i128);

/// Appends a line: a name, a lower and an upper bound, and the mark of a choice that is left open.
#[tactic(auto, unfolding(crate::specs::Block::bounds_line))]
pub(crate) fn push_bounds(
    alloc: Global,
    out: &mut Vec<u8>,
    name: &str,
    bounds: &Bounds,
) -> Result<(), NoMemory>
    ensures { OnOk result (out.new.items ≡ out.old.items ++ bounds_line name.now bounds.now) }
{
    push(out, name)?;
    push_bound(alloc, out, Cents(bounds.low))?;
    push_bound(alloc, out, Cents(bounds.high))?;
    push(out, close_mark(bounds.close))?;
    push(out, "\n")
}

fn push(out: &mut Vec<u8>, text: &str) -> Result<(), NoMemory>
    ensures { OnOk result (out.new.items ≡ out.old.items ++ text.now) }
{
    out.extend_from_slice(text.as_bytes())
}

/// The mark behind the bounds of a figure that rests on a choice which is left open.
pub fn close_mark(close: bool) -> &'static str
    ensures { result.now ≡ close_mark close }
{
    if close { " close" } else { "" }
}

#[tactic(auto, unfolding(crate::specs::Block::bound))]
fn push_bound(alloc: Global, out: &mut Vec<u8>, cents: Cents) -> Result<(), NoMemory>
    ensures { OnOk result (out.new.items ≡ out.old.items ++ bound cents.0) }
{
    push(out, " ")?;
    push_amount(alloc, out, cents.0)
}
