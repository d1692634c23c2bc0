//! Pieces of text.
ghost use Rattle.std.specs.Prelude.{◌≡◌, ◌++◌, decimal, OnOk};
ghost use Rattle.scr_explanation.specs.Account.{between, indent};

use scr_amounts::{Bounds, push_amount};
use std::alloc::{AllocError as NoMemory, Global};

/// Appends a text.
pub(crate) fn push(out: &mut Vec<u8>, text: &str) -> Result<(), NoMemory>
    ensures { OnOk result (out.new.items ≡ out.old.items ++ text.now) }
{
    out.extend_from_slice(text.as_bytes())
}

/// Appends a number.
pub(crate) fn push_number(alloc: Global, out: &mut Vec<u8>, number: usize) -> Result<(), NoMemory>
    ensures { OnOk result (out.new.items ≡ out.old.items ++ decimal number) }
{
    let digits = format!(in alloc; "{number}")?;
    push(out, digits.as_str())
}

/// Appends two blanks for each level.
pub(crate) fn push_indent(out: &mut Vec<u8>, level: u32) -> Result<(), NoMemory>
    ensures { OnOk result (out.new.items ≡ out.old.items ++ indent level) }
{
    for _ in 0..level {
        push(out, "  ")?;
    }
    Ok(())
}

/// Appends two bounds, with a blank before each.
#[tactic(auto, unfolding(crate::specs::Account::between))]
pub(crate) fn push_between(
    alloc: Global,
    out: &mut Vec<u8>,
    bounds: &Bounds,
) -> Result<(), NoMemory>
    ensures { OnOk result (out.new.items ≡ out.old.items ++ between bounds.now) }
{
    push(out, " ")?;
    push_amount(alloc, out, bounds.low)?;
    push(out, " ")?;
    push_amount(alloc, out, bounds.high)
}
