//! What is due, reckoned on a board.
ghost use Rattle.std.specs.Prelude.{◌≡◌, ◌<◌, ◌≤◌, ◌^◌, true, length, map, IfOk};
ghost use Rattle.std.specs.List.{AllByRecursion};
ghost use Rattle.scr_num.specs.Rounding.{ends};
ghost use Rattle.scr_reachability.specs.declared.ranks.Due.{Due};
ghost use Rattle.scr_parallel.specs.Workable.{AreWorkable, figures_of};

use crate::due_graph::DueGraph;
use crate::plan::Plan;
use scr_board::{Board, work};
use scr_io::Gate;
use scr_num::Span;
use scr_reachability::Due;
use scr_subgraph::round_of;
use std::alloc::{AllocError as NoMemory, Global};
use std::thread::Threads;

/// A worker more is taken for so many dues.
const DUES_EACH: usize = 32;

/// So many passes a board has at most.
const MOST_PASSES: u32 = 64;

/// What a figure is before it is found.
const NOTHING: Span = Span { low: 0, high: 0 };

/// The figures of what is due, reckoned by so many workers or fewer. Each takes a figure as soon as
/// those of its sources are known, and waits for nobody. The gate is passed before each. Only want
/// of memory is refused, before the first figure is reckoned.
pub fn spans_by<R: Threads + Sync, P: Plan + Sync, G: Gate + Sync>(
    rt: &R,
    alloc: Global,
    workers: u32,
    plan: &P,
    dues: &[Due],
    gate: &G,
) -> Result<Vec<Span>, NoMemory>
    requires due { AreWorkable (P.is_known plan.now) (P.is_due plan.now) dues.now }
    ensures { IfOk result (λ spans. map ends spans.items ≡ figures_of (P.worked plan.now) dues.now) }
{
    if !are_few(dues) {
        return Err(NoMemory);
    }
    let round = round_of(alloc, dues)?;
    let mut spans = Vec::new(alloc);
    spans.resize(dues.len(), NOTHING)?;
    let graph = DueGraph {
        plan,
        dues,
        round: &round,
    };
    let (board, mut passes) = Board::new(alloc, &graph, passes_for(workers, dues.len()))?;
    work(rt, &board, &graph, passes.as_mut_slice(), gate);
    board.close(passes, spans.as_mut_slice());
    Ok(spans)
}

/// Dues and sources of each can be counted in 32 bits.
fn are_few(dues: &[Due]) -> bool
    ensures dues { result ≡ true → length dues.now < 2 ^ 32 }
    ensures sources { result ≡ true
        → AllByRecursion (λ (due : Due). length due.sources.items < 2 ^ 32) dues.now }
{
    if u32::try_from(dues.len()).is_err() {
        return false;
    }
    for due in dues {
        if u32::try_from(due.sources.len()).is_err() {
            return false;
        }
    }
    true
}

/// How many workers are worth their threads for so many dues: one at least, and no more than a board has passes for.
fn passes_for(workers: u32, dues: usize) -> u32
    ensures some { 1 ≤ result }
    ensures most { result ≤ 64 }
{
    let worth = dues / DUES_EACH;
    let passes = if worth < workers as usize {
        worth as u32
    } else {
        workers
    };
    passes.max(1).min(MOST_PASSES)
}
