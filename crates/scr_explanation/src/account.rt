//! The account of a figure: a tree of its sources.
ghost use Rattle.std.specs.Prelude.{◌≡◌, ◌++◌, ◌+◌, ◌≤◌, true, OnOk};
ghost use Rattle.scr_nodes.specs.Live.{is_live};
ghost use Rattle.scr_explanation.specs.Account.{account, rest_text};

use crate::figure::push_figure;
use crate::shown::shown;
use crate::texts::{push, push_indent, push_number};
use scr_nodes::{Node, sources};
use scr_tree::Engine;
use std::alloc::{AllocError as NoMemory, Global};

/// How much of the sources an account tells: so many levels of them, at most 1,000, and of each list
/// that is longer the so many largest.
#[derive(Clone, Copy)]
pub struct Extent {
    pub depth: u32,
    pub top: u32,
}

/// Appends the account of a figure of the engine's book: its bounds, how it comes about and the
/// article, and under it the same of its sources.
pub fn push_account(
    alloc: Global,
    engine: &Engine,
    extent: Extent,
    node: &Node,
    out: &mut Vec<u8>,
) -> Result<(), NoMemory>
    requires live { is_live engine.now.sheet node.now ≡ true }
    requires depth { extent.depth ≤ 1_000 }
    ensures { OnOk result (out.new.items ≡ out.old.items
        ++ account engine.now.factors engine.now.sheet extent.top extent.depth 0 node.now) }
{
    push_tree(alloc, engine, extent, 0, node, out)
}

/// The same, so many levels in.
#[tactic(auto, using(crate::proofs::LiveSources::all_live, crate::proofs::Trees::alone, crate::proofs::Trees::with_sources))]
fn push_tree(
    alloc: Global,
    engine: &Engine,
    extent: Extent,
    level: u32,
    node: &Node,
    out: &mut Vec<u8>,
) -> Result<(), NoMemory>
    requires live { is_live engine.now.sheet node.now ≡ true }
    requires depth { level + extent.depth ≤ 1_000 }
    ensures { OnOk result (out.new.items ≡ out.old.items
        ++ account engine.now.factors engine.now.sheet extent.top extent.depth level node.now) }
{
    let sources = sources(alloc, engine.book().sheet(), node)?;
    push_figure(alloc, engine, &sources, level, node, out)?;
    if extent.depth == 0 {
        return Ok(());
    }
    let count = sources.len();
    let below = Extent {
        depth: extent.depth - 1,
        top: extent.top,
    };
    let told = shown(alloc, engine, extent.top, sources)?;
    for source in &told {
        push_tree(alloc, engine, below, level + 1, source, out)?;
    }
    push_rest(alloc, level + 1, count - told.len(), out)
}

/// Appends how many sources are not told.
fn push_rest(alloc: Global, level: u32, left: usize, out: &mut Vec<u8>) -> Result<(), NoMemory>
    ensures { OnOk result (out.new.items ≡ out.old.items ++ rest_text level left) }
{
    if left == 0 {
        return Ok(());
    }
    push_indent(out, level)?;
    push(out, "and ")?;
    push_number(alloc, out, left)?;
    push(out, " smaller\n")
}
