//! The figures of all rows, by workers who draw pieces.
ghost use Rattle.std.specs.Prelude.{◌≡◌, ◌≤◌, IfOk, length};
ghost use Rattle.scr_parallel.specs.Apart.{AreStarts};
ghost use Rattle.scr_parallel.specs.Rows.{AreAllRows};

use crate::hands::{Desk, hands_of, parts_of, work_all};
use crate::piece_graph::PieceGraph;
use crate::pieces::pieces_of;
use crate::rows::{Part, RowPlan};
use scr_board::Board;
use scr_io::Gate;
use std::alloc::{AllocError as NoMemory, Global};
use std::thread::Threads;

/// So many passes a board has at most.
const MOST_PASSES: u32 = 64;

/// The spans of the figures of all rows, reckoned by so many workers or fewer, but one at least. Each draws a piece of the rows,
/// reckons them, and draws the next until none is left; it waits for nobody. The gate is passed before each figure. Only want of
/// memory is refused.
pub fn reckon_rows<R: Threads + Sync, P: RowPlan + Sync, G: Gate + Sync>(
    rt: &R,
    alloc: Global,
    workers: u32,
    plan: &P,
    gate: &G,
) -> Result<Vec<Part>, NoMemory>
    requires { P.is_plan plan.now }
    ensures { IfOk result (λ parts. AreAllRows (P.count plan.now) (P.is_row plan.now) parts.items) }
{
    let pieces = pieces_of(alloc, plan, workers)?;
    let nodes = pieces.len();
    let starts = starts_of(alloc, nodes)?;
    let graph = PieceGraph {
        starts: starts.as_slice(),
    };
    let (board, passes) = Board::new(alloc, &graph, passes_for(workers, nodes))?;
    let mut hands = hands_of(alloc, passes)?;
    let desk = Desk {
        board: &board,
        plan,
        pieces: pieces.as_slice(),
    };
    work_all(rt, &desk, hands.as_mut_slice(), gate);
    parts_of(alloc, board, hands, plan, pieces.as_slice())
}

/// The numbers below so many, where they can be counted in 32 bits.
fn starts_of(alloc: Global, nodes: usize) -> Result<Vec<u32>, NoMemory>
    ensures count { IfOk result (λ starts. length starts.items ≡ nodes) }
    ensures starts { IfOk result (λ starts. AreStarts starts.items) }
{
    let Ok(nodes) = u32::try_from(nodes) else {
        return Err(NoMemory);
    };
    let mut starts = Vec::with_capacity(alloc, nodes as usize)?;
    for n in 0..nodes {
        starts.push(n)?;
    }
    Ok(starts)
}

/// How many workers have a piece to draw: one at least, and no more than a board has passes for.
fn passes_for(workers: u32, nodes: usize) -> u32
    ensures some { 1 ≤ result }
    ensures most { result ≤ 64 }
{
    let most = if nodes < MOST_PASSES as usize {
        nodes as u32
    } else {
        MOST_PASSES
    };
    workers.min(most).max(1)
}
