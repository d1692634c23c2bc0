//! By how much the sources of a figure together exceed it.
ghost use Rattle.std.specs.Prelude.{◌≡◌, ◌+◌, ◌^◌, ◌<◌, ◌≤◌, All, true, unsigned_abs, length, IfOk};
ghost use Rattle.std.specs.List.{list_all};
ghost use Rattle.scr_nodes.specs.Live.{is_live};
ghost use Rattle.scr_explanation.specs.Told.{told_bounds};
ghost use Rattle.scr_explanation.specs.Taken.{added, excess, is_moderate, is_part, less, parts_of, together};

use crate::bounds::bounds_of;
use scr_amounts::Bounds;
use scr_figure_titles::unit_of;
use scr_nodes::Node;
use scr_tree::Engine;
use std::alloc::{AllocError as NoMemory, Global};

/// The most parts that are added up.
const MAX_PARTS: usize = 64;

/// Amounts of at most so many hundredths are added up.
const MODERATE: u128 = 1_000_000_000_000_000_000_000_000_000_000;

/// What the sources that are amounts together have more than the figure: what correlation or
/// absorption takes. None where they are more than 64, or beyond 10^30 hundredths.
pub(crate) fn taken(
    alloc: Global,
    engine: &Engine,
    sources: &[Node],
    node: &Node,
) -> Result<Option<Bounds>, NoMemory>
    requires own { is_live engine.now.sheet node.now ≡ true }
    requires live { All (λ node. is_live engine.now.sheet node ≡ true) sources.now }
    ensures { IfOk result (λ taken. taken ≡ excess
        (parts_of engine.now.factors engine.now.sheet sources.now)
        (told_bounds engine.now.factors engine.now.sheet node.now)) }
{
    let parts = parts_of(alloc, engine, sources)?;
    Ok(excess(&parts, &bounds_of(engine, node)))
}

fn parts_of(alloc: Global, engine: &Engine, sources: &[Node]) -> Result<Vec<Bounds>, NoMemory>
    requires live { All (λ node. is_live engine.now.sheet node ≡ true) sources.now }
    ensures { IfOk result (λ parts. parts.items
        ≡ parts_of engine.now.factors engine.now.sheet sources.now) }
{
    let mut parts = Vec::new(alloc);
    for node in sources {
        if is_part(node) {
            parts.push(bounds_of(engine, node))?;
        }
    }
    Ok(parts)
}

fn is_part(node: &Node) -> bool
    ensures { result ≡ is_part node.now }
{
    unit_of(node).is_amount()
}

/// What the parts together have more than this.
pub(crate) fn excess(parts: &[Bounds], own: &Bounds) -> Option<Bounds>
    ensures { result ≡ excess parts.now own.now }
{
    if parts.len() <= MAX_PARTS && is_moderate(own) && are_moderate(parts) {
        Some(less(&together(parts), own))
    } else {
        None
    }
}

fn are_moderate(parts: &[Bounds]) -> bool
    ensures { result ≡ list_all is_moderate parts.now }
{
    parts.iter().all(|part| is_moderate(part))
}

fn is_moderate(bounds: &Bounds) -> bool
    ensures { result ≡ is_moderate bounds.now }
{
    bounds.low.unsigned_abs() <= MODERATE && bounds.high.unsigned_abs() <= MODERATE
}

fn together(parts: &[Bounds]) -> Bounds
    requires few { length parts.now ≤ 64 }
    requires moderate { list_all is_moderate parts.now ≡ true }
    ensures value { result ≡ together parts.now }
    ensures low { unsigned_abs result.low ≤ 64_000_000_000_000_000_000_000_000_000_000 }
    ensures high { unsigned_abs result.high ≤ 64_000_000_000_000_000_000_000_000_000_000 }
{
    let mut all = Bounds { low: 0, high: 0 };
    for part in parts {
        all = added(&all, part);
    }
    all
}

fn added(a: &Bounds, b: &Bounds) -> Bounds
    requires low { unsigned_abs a.now.low + unsigned_abs b.now.low < 2 ^ 127 }
    requires high { unsigned_abs a.now.high + unsigned_abs b.now.high < 2 ^ 127 }
    ensures { result ≡ added a.now b.now }
{
    Bounds {
        low: a.low + b.low,
        high: a.high + b.high,
    }
}

fn less(a: &Bounds, b: &Bounds) -> Bounds
    requires low { unsigned_abs a.now.low + unsigned_abs b.now.high < 2 ^ 127 }
    requires high { unsigned_abs a.now.high + unsigned_abs b.now.low < 2 ^ 127 }
    ensures { result ≡ less a.now b.now }
{
    Bounds {
        low: a.low - b.high,
        high: a.high - b.low,
    }
}
