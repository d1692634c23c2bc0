//! New ranks where a fund gets components, so that the rank of each is below that of the fund.
ghost use Rattle.std.specs.Prelude.{◌≡◌, ℕ, ◌<◌, All, Contains, IfOk, IfSome, length, true, false};
ghost use Rattle.scr_funds.specs.Components.{components_of};
ghost use Rattle.scr_funds.specs.Edges.{edges_in, ranks_in, rows_in};
ghost use Rattle.scr_funds.specs.Ranks.{rank_of, rank_now, AreRanked, AreWithin, IsRanking};
ghost use Rattle.scr_funds.specs.Ranks.{AreLowered};

use crate::edges::Edges;
use crate::ranks::rank_of;
use indexmap::IndexMap;
use std::alloc::{AllocError as NoMemory, Global};
use std::collections::BTreeSet;

/// Funds that were lowered.
#[derive(Drop)]
struct Lowering {
    /// The new rank of each.
    fresh: IndexMap<u32, u64>,
    /// Those whose components were not looked at since, by their ranks of before.
    pending: BTreeSet<(u64, u32)>,
}

/// New ranks for some funds, by which a rank falls along each edge. What is in order keeps its
/// rank. None where the old ranks are in no order, or no number is left to be a rank.
pub(crate) fn new_ranks(
    alloc: Global,
    edges: &Edges<'_>,
    was_component: bool,
) -> Result<Option<IndexMap<u32, u64>>, NoMemory>
    requires ranked { edges.now.are_ranked ≡ true
        → AreRanked (components_of (rows_in edges.now)) (ranks_in edges.now) }
    requires within { AreWithin edges.now.ranks.now
        (edges_in edges.now) }
    requires fund { edges.now.from < length edges.now.ranks.now }
    requires apart { ¬ Contains edges.now.members.now edges.now.from }
    requires none { was_component ≡ false → (holder : ℕ)
        → ¬ Contains (components_of (rows_in edges.now) holder) edges.now.from }
    ensures { IfOk result (λ found. IfSome found (λ fresh. IsRanking
        (edges_in edges.now)
        edges.now.ranks.now fresh.entries)) }
{
    if !edges.are_ranked {
        return Ok(None);
    }
    if was_component {
        return lowered(alloc, edges);
    }
    raised(alloc, edges)
}

/// Raises a fund, which is no component, above its components.
fn raised(alloc: Global, edges: &Edges<'_>) -> Result<Option<IndexMap<u32, u64>>, NoMemory>
    requires ranked { AreRanked (components_of (rows_in edges.now))
        (ranks_in edges.now) }
    requires fund { edges.now.from < length edges.now.ranks.now }
    requires apart { ¬ Contains edges.now.members.now edges.now.from }
    requires none { (holder : ℕ)
        → ¬ Contains (components_of (rows_in edges.now) holder) edges.now.from }
    ensures { IfOk result (λ found. IfSome found (λ fresh. IsRanking
        (edges_in edges.now)
        edges.now.ranks.now fresh.entries)) }
{
    let Some(above) = rank_above(edges.ranks, edges.members) else {
        return Ok(None);
    };
    let mut fresh = IndexMap::new(alloc);
    if rank_of(edges.ranks, edges.from as usize) < above {
        fresh.insert(edges.from, above)?;
    }
    Ok(Some(fresh))
}

/// The least rank above those of these funds. None where no number is above.
fn rank_above(ranks: &[u64], members: &[u32]) -> Option<u64>
    ensures { IfSome result (λ above. All (λ member. rank_of ranks.now member < above) members.now) }
{
    let mut most = 0;
    for member in members {
        most = rank_of(ranks, *member as usize).max(most);
    }
    most.checked_add(1)
}

/// Lowers the components of a fund below it, where they are not, and in turn those of each fund
/// that was lowered. Taken by their ranks of before, the highest first, none is taken twice: what
/// holds it was taken before. So there are no more turns than funds.
fn lowered(alloc: Global, edges: &Edges<'_>) -> Result<Option<IndexMap<u32, u64>>, NoMemory>
    requires ranked { AreRanked (components_of (rows_in edges.now))
        (ranks_in edges.now) }
    requires within { AreWithin edges.now.ranks.now
        (edges_in edges.now) }
    ensures { IfOk result (λ found. IfSome found (λ fresh. IsRanking
        (edges_in edges.now)
        edges.now.ranks.now fresh.entries)) }
{
    let mut lowering = Lowering {
        fresh: IndexMap::new(alloc),
        pending: BTreeSet::new(alloc),
    };
    let mut is_kept = lowering.lower(edges, edges.from)?;
    for _ in 0..edges.ranks.len() {
        if !is_kept {
            return Ok(None);
        }
        match lowering.pending.pop_last() {
            Some((_, fund)) => is_kept = lowering.lower(edges, fund)?,
            None => return Ok(Some(lowering.fresh)),
        }
    }
    Ok(None)
}

impl Lowering {
    /// The rank of a fund now.
    fn rank(&self, edges: &Edges<'_>, fund: u32) -> u64
        ensures { result ≡ rank_now edges.now.ranks.now self.now.fresh.entries fund }
    {
        match self.fresh.get(&fund) {
            Some(rank) => *rank,
            None => rank_of(edges.ranks, fund as usize),
        }
    }

    /// Lowers those components of a fund that are not below it, and notes them down. Answers
    /// whether a rank is left for them.
    fn lower(&mut self, edges: &Edges<'_>, fund: u32) -> Result<bool, NoMemory>
        requires before { AreLowered
            (edges_in edges.now)
            edges.now.ranks.now (λ holder. holder ≡ fund) self.old.fresh.entries self.old.pending.keys }
        requires within { AreWithin edges.now.ranks.now
            (edges_in edges.now) }
        ensures { IfOk result (λ is_kept. is_kept ≡ true → AreLowered
            (edges_in edges.now)
            edges.now.ranks.now (λ holder. ⊥) self.new.fresh.entries self.new.pending.keys) }
    {
        let Some(below) = self.rank(edges, fund).checked_sub(1) else {
            return Ok(false);
        };
        let components = edges.components_of(fund);
        for component in components {
            if self.rank(edges, *component) > below {
                let before = rank_of(edges.ranks, *component as usize);
                self.fresh.insert(*component, below)?;
                self.pending.insert((before, *component))?;
            }
        }
        Ok(true)
    }
}
