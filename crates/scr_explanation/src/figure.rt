//! What is told of one figure: its bounds, and how it comes about.
ghost use Rattle.std.specs.Prelude.{◌≡◌, ◌++◌, All, true, option_map, OnOk};
ghost use Rattle.scr_nodes.specs.Live.{is_live};
ghost use Rattle.scr_nodes.specs.Sources.{sources_of};
ghost use Rattle.scr_explanation.specs.Account.{alternative, alternatives, amounts, figure_line, figure_text, how_line, taken_text, worth};

use crate::bounds::{bounds_of, size_of};
use crate::taken::taken;
use crate::texts::{push, push_between, push_indent};
use scr_amounts::Bounds;
use scr_cells::close_mark;
use scr_figure_titles::{Unit, article, push_title, step_of, unit_of};
use scr_nodes::Node;
use scr_tree::Engine;
use std::alloc::{AllocError as NoMemory, Global};

/// Appends what is told of a figure, on two lines, so many levels in.
#[tactic(auto, unfolding(crate::specs::Account::figure_text))]
pub(crate) fn push_figure(
    alloc: Global,
    engine: &Engine,
    sources: &[Node],
    level: u32,
    node: &Node,
    out: &mut Vec<u8>,
) -> Result<(), NoMemory>
    requires own { is_live engine.now.sheet node.now ≡ true }
    requires sources { sources.now ≡ sources_of engine.now.sheet node.now }
    requires live { All (λ node. is_live engine.now.sheet node ≡ true) sources.now }
    ensures { OnOk result (out.new.items ≡ out.old.items
        ++ figure_text engine.now.factors engine.now.sheet level node.now) }
{
    push_line(alloc, engine, level, node, out)?;
    push_how(alloc, engine, sources, level, node, out)
}

#[tactic(auto, unfolding(crate::specs::Account::figure_line))]
fn push_line(
    alloc: Global,
    engine: &Engine,
    level: u32,
    node: &Node,
    out: &mut Vec<u8>,
) -> Result<(), NoMemory>
    requires { is_live engine.now.sheet node.now ≡ true }
    ensures { OnOk result (out.new.items ≡ out.old.items
        ++ figure_line engine.now.factors engine.now.sheet level node.now) }
{
    push_indent(out, level)?;
    push_title(out, node)?;
    push(out, ":")?;
    push_worth(alloc, engine, node, out)?;
    push(out, "\n")
}

/// Appends the bounds of a figure, or which alternatives may decide.
fn push_worth(
    alloc: Global,
    engine: &Engine,
    node: &Node,
    out: &mut Vec<u8>,
) -> Result<(), NoMemory>
    requires { is_live engine.now.sheet node.now ≡ true }
    ensures { OnOk result (out.new.items ≡ out.old.items
        ++ worth engine.now.factors engine.now.sheet node.now) }
{
    let unit = unit_of(node);
    if unit.is_amount() {
        push_amounts(alloc, engine, node, out)
    } else {
        push_alternatives(unit, size_of(engine, node), out)
    }
}

#[tactic(auto, unfolding(crate::specs::Account::amounts))]
fn push_amounts(
    alloc: Global,
    engine: &Engine,
    node: &Node,
    out: &mut Vec<u8>,
) -> Result<(), NoMemory>
    requires { is_live engine.now.sheet node.now ≡ true }
    ensures { OnOk result (out.new.items ≡ out.old.items
        ++ amounts engine.now.factors engine.now.sheet node.now) }
{
    push_between(alloc, out, &bounds_of(engine, node))?;
    push(out, unit_of(node).mark())?;
    push(out, close_mark(engine.is_close(node)))
}

#[tactic(auto, unfolding(crate::specs::Account::alternatives))]
fn push_alternatives(unit: Unit, mask: u128, out: &mut Vec<u8>) -> Result<(), NoMemory>
    ensures { OnOk result (out.new.items ≡ out.old.items ++ alternatives unit mask) }
{
    push_alternative(unit.first(), mask % 2, out)?;
    push_alternative(unit.second(), mask / 2 % 2, out)?;
    push_alternative(unit.third(), mask / 4 % 2, out)
}

fn push_alternative(name: &str, bit: u128, out: &mut Vec<u8>) -> Result<(), NoMemory>
    ensures { OnOk result (out.new.items ≡ out.old.items ++ alternative name.now bit) }
{
    if bit != 1 {
        return Ok(());
    }
    push(out, " (")?;
    push(out, name)?;
    push(out, ")")
}

/// Appends how a figure comes from its sources, and the articles that it is by.
#[tactic(auto, unfolding(crate::specs::Account::how_line))]
fn push_how(
    alloc: Global,
    engine: &Engine,
    sources: &[Node],
    level: u32,
    node: &Node,
    out: &mut Vec<u8>,
) -> Result<(), NoMemory>
    requires own { is_live engine.now.sheet node.now ≡ true }
    requires sources { sources.now ≡ sources_of engine.now.sheet node.now }
    requires live { All (λ node. is_live engine.now.sheet node ≡ true) sources.now }
    ensures { OnOk result (out.new.items ≡ out.old.items
        ++ how_line engine.now.factors engine.now.sheet level node.now) }
{
    let step = step_of(node);
    push_indent(out, level)?;
    push(out, "  = ")?;
    push(out, step.words())?;
    push_taken(
        alloc,
        step.taking(),
        taken(alloc, engine, sources, node)?,
        out,
    )?;
    push(out, " [")?;
    push(out, article(node))?;
    push(out, "]\n")
}

fn push_taken(
    alloc: Global,
    words: Option<&str>,
    bounds: Option<Bounds>,
    out: &mut Vec<u8>,
) -> Result<(), NoMemory>
    ensures { OnOk result (out.new.items ≡ out.old.items
        ++ taken_text (option_map (λ w. w.now) words.entry) bounds) }
{
    let (Some(words), Some(bounds)) = (words, bounds) else {
        return Ok(());
    };
    push(out, "; ")?;
    push(out, words)?;
    push_between(alloc, out, &bounds)
}
