//! The elements of the drawing.
ghost use Rattle.std.specs.Prelude.{◌≡◌, ◌++◌, decimal, OnOk};
ghost use Rattle.scr_drawing.specs.Elements.{attribute, rect, text_start};

use std::alloc::{AllocError as NoMemory, Global};

/// A rectangle, and how its inside and its line are drawn.
#[derive(Clone, Copy)]
pub(crate) struct Rect {
    pub(crate) y: u32,
    pub(crate) width: u32,
    pub(crate) height: u32,
    pub(crate) style: &'static str,
}

/// Where a bar begins, from the left.
pub(crate) const LEFT: u32 = 300;

pub(crate) fn push(out: &mut Vec<u8>, text: &str) -> Result<(), NoMemory>
    ensures { OnOk result (out.new.items ≡ out.old.items ++ text.now) }
{
    out.extend_from_slice(text.as_bytes())
}

fn push_number(alloc: Global, out: &mut Vec<u8>, number: u32) -> Result<(), NoMemory>
    ensures { OnOk result (out.new.items ≡ out.old.items ++ decimal number) }
{
    let digits = format!(in alloc; "{number}")?;
    push(out, digits.as_str())
}

#[tactic(auto, unfolding(crate::specs::Elements::attribute))]
fn push_attribute(alloc: Global, out: &mut Vec<u8>, name: &str, number: u32) -> Result<(), NoMemory>
    ensures { OnOk result (out.new.items ≡ out.old.items ++ attribute name.now number) }
{
    push(out, name)?;
    push(out, "=\"")?;
    push_number(alloc, out, number)?;
    push(out, "\"")
}

/// Appends a rectangle that begins where bars begin.
#[tactic(auto, unfolding(crate::specs::Elements::rect))]
pub(crate) fn push_rect(alloc: Global, out: &mut Vec<u8>, r: &Rect) -> Result<(), NoMemory>
    ensures { OnOk result (out.new.items ≡ out.old.items ++ rect r.now.y r.now.width r.now.height r.now.style.now) }
{
    push(out, "<rect")?;
    push_attribute(alloc, out, " x", LEFT)?;
    push_attribute(alloc, out, " y", r.y)?;
    push_attribute(alloc, out, " width", r.width)?;
    push_attribute(alloc, out, " height", r.height)?;
    push(out, r.style)?;
    push(out, "/>\n")
}

/// Appends the start of a text at a place.
#[tactic(auto, unfolding(crate::specs::Elements::text_start))]
pub(crate) fn push_text_start(
    alloc: Global,
    out: &mut Vec<u8>,
    x: u32,
    y: u32,
) -> Result<(), NoMemory>
    ensures { OnOk result (out.new.items ≡ out.old.items ++ text_start x y) }
{
    push(out, "<text")?;
    push_attribute(alloc, out, " x", x)?;
    push_attribute(alloc, out, " y", y)?;
    push(out, ">")
}
