//! Which of the sources of a figure are told.
ghost use Rattle.std.specs.Prelude.{◌≡◌, ◌≤◌, All, true, filter, length, map, IfOk};
ghost use Rattle.scr_nodes.specs.Live.{is_live};
ghost use Rattle.scr_explanation.specs.Told.{has_fewer_larger, is_among_largest, shown, size};

use crate::bounds::size_of;
use scr_nodes::Node;
use scr_tree::Engine;
use std::alloc::{AllocError as NoMemory, Global};

/// All of the sources, in their order, where there are no more than so many; of more the largest, in that order.
#[tactic(auto, using(crate::proofs::LiveSources::largest_live))]
pub(crate) fn shown(
    alloc: Global,
    engine: &Engine,
    top: u32,
    sources: Vec<Node>,
) -> Result<Vec<Node>, NoMemory>
    requires live { All (λ node. is_live engine.now.sheet node ≡ true) sources.items }
    ensures shown { IfOk result (λ told. told.items
        ≡ shown engine.now.factors engine.now.sheet top sources.items) }
    ensures live { IfOk result (λ told.
        All (λ node. is_live engine.now.sheet node ≡ true) told.items) }
    ensures fewer { IfOk result (λ told. length told.items ≤ length sources.items) }
{
    if sources.len() <= top as usize {
        return Ok(sources);
    }
    largest(alloc, engine, top, &sources)
}

/// The largest of the sources, in their order.
fn largest(
    alloc: Global,
    engine: &Engine,
    top: u32,
    sources: &[Node],
) -> Result<Vec<Node>, NoMemory>
    requires live { All (λ node. is_live engine.now.sheet node ≡ true) sources.now }
    ensures largest { IfOk result (λ told. told.items ≡ filter
        (is_among_largest engine.now.factors engine.now.sheet top sources.now) sources.now) }
    ensures fewer { IfOk result (λ told. length told.items ≤ length sources.now) }
{
    let sizes = sizes_of(alloc, engine, sources)?;
    let mut told = Vec::new(alloc);
    for node in sources {
        let own = size_of(engine, node);
        if own != 0 && has_fewer_larger(&sizes, top, own) {
            told.push(*node)?;
        }
    }
    Ok(told)
}

fn sizes_of(alloc: Global, engine: &Engine, nodes: &[Node]) -> Result<Vec<u128>, NoMemory>
    requires live { All (λ node. is_live engine.now.sheet node ≡ true) nodes.now }
    ensures { IfOk result (λ sizes. sizes.items
        ≡ map (size engine.now.factors engine.now.sheet) nodes.now) }
{
    let mut sizes = Vec::new(alloc);
    for node in nodes {
        sizes.push(size_of(engine, node))?;
    }
    Ok(sizes)
}

/// Whether fewer than so many of the sizes are larger than this one.
fn has_fewer_larger(sizes: &[u128], top: u32, own: u128) -> bool
    ensures { result ≡ has_fewer_larger sizes.now top own }
{
    let mut left = top;
    for other in sizes {
        if own < *other {
            if left <= 1 {
                return false;
            }
            left -= 1;
        }
    }
    left > 0
}
