//! The ranks of funds, which fall along each edge.
ghost use Rattle.std.specs.Prelude.{◌≡◌, ℕ, ◌<◌, ◌≤◌, All, IfSome, OnOk, length, true};
ghost use Rattle.scr_funds.specs.Components.{components_of};
ghost use Rattle.scr_funds.specs.Ranks.{rank_of, rank_now, AreRanked, HavePlaces, IsRanking};
ghost use Rattle.scr_funds.specs.Search.{rows_of};

use indexmap::IndexMap;
use std::alloc::AllocError as NoMemory;

/// The rank of a fund that was given none: in the middle, since ranks fall and rise.
const MIDDLE: u64 = 1 << 63;

/// The rank of a fund.
pub(crate) fn rank_of(ranks: &[u64], fund: usize) -> u64
    ensures { result ≡ rank_of ranks.now fund }
{
    match ranks.get(fund) {
        Some(rank) => *rank,
        None => MIDDLE,
    }
}

/// Whether each component of a fund has a lower rank.
pub(crate) fn is_above(ranks: &[u64], fund: usize, components: &[u32]) -> bool
    ensures { result ≡ true
        → All (λ component. rank_of ranks.now component < rank_of ranks.now fund) components.now }
{
    let rank = rank_of(ranks, fund);
    for component in components {
        if rank_of(ranks, *component as usize) >= rank {
            return false;
        }
    }
    true
}

/// Places for the ranks of so many funds.
pub(crate) fn grow_ranks(ranks: &mut Vec<u64>, size: usize) -> Result<(), NoMemory>
    ensures long { OnOk result (size ≤ length ranks.new.items) }
    ensures longer { length ranks.old.items ≤ length ranks.new.items }
    ensures same { (fund : ℕ) → rank_of ranks.new.items fund ≡ rank_of ranks.old.items fund }
{
    if ranks.len() < size {
        ranks.resize(size, MIDDLE)?;
    }
    Ok(())
}

/// Gives some funds new ranks; where these were not found, all are ranked anew. Answers whether a
/// rank then falls along each edge.
pub(crate) fn renew(
    ranks: &mut Vec<u64>,
    rows: &[Vec<u32>],
    fresh: Option<IndexMap<u32, u64>>,
) -> bool
    requires { IfSome fresh
        (λ fresh. IsRanking (components_of (rows_of rows.now)) ranks.old.items fresh.entries) }
    ensures ranked { result ≡ true
        → AreRanked (components_of (rows_of rows.now)) (rank_of ranks.new.items) }
    ensures long { length ranks.new.items ≡ length ranks.old.items }
{
    match fresh {
        Some(fresh) => {
            give(ranks, fresh);
            true
        }
        None => settle(ranks, rows),
    }
}

/// Gives some funds new ranks.
fn give(ranks: &mut Vec<u64>, fresh: IndexMap<u32, u64>)
    requires { HavePlaces ranks.old.items fresh.entries }
    ensures each { (fund : ℕ) → rank_of ranks.new.items fund
        ≡ rank_now ranks.old.items fresh.entries fund }
    ensures long { length ranks.new.items ≡ length ranks.old.items }
{
    let mut left = fresh;
    while let Some((fund, rank)) = left.pop() {
        ranks[fund as usize] = rank;
    }
}

/// Ranks all funds anew, unless the ranks are kept. Answers whether a rank then falls along each
/// edge.
pub(crate) fn keep_or_settle(ranks: &mut Vec<u64>, rows: &[Vec<u32>], is_kept: bool) -> bool
    requires { is_kept ≡ true
        → AreRanked (components_of (rows_of rows.now)) (rank_of ranks.old.items) }
    ensures ranked { result ≡ true
        → AreRanked (components_of (rows_of rows.now)) (rank_of ranks.new.items) }
    ensures long { length ranks.new.items ≡ length ranks.old.items }
{
    is_kept || settle(ranks, rows)
}

/// Ranks all funds anew, in place, and answers whether a rank then falls along each edge. Where
/// nothing holds itself, as many passes as there are funds are enough.
fn settle(ranks: &mut Vec<u64>, rows: &[Vec<u32>]) -> bool
    ensures ranked { result ≡ true
        → AreRanked (components_of (rows_of rows.now)) (rank_of ranks.new.items) }
    ensures long { length ranks.new.items ≡ length ranks.old.items }
{
    ranks.fill(MIDDLE);
    for _ in 0..rows.len() {
        if are_ranked(ranks, rows) {
            return true;
        }
        lower_once(ranks, rows);
    }
    are_ranked(ranks, rows)
}

/// Whether a rank falls along each edge.
fn are_ranked(ranks: &[u64], rows: &[Vec<u32>]) -> bool
    ensures { result ≡ true
        → AreRanked (components_of (rows_of rows.now)) (rank_of ranks.now) }
{
    for fund in 0..rows.len() {
        if !is_above(ranks, fund, &rows[fund]) {
            return false;
        }
    }
    true
}

/// Lowers each component that is not below a fund, fund by fund, once.
fn lower_once(ranks: &mut Vec<u64>, rows: &[Vec<u32>])
    ensures long { length ranks.new.items ≡ length ranks.old.items }
{
    for fund in (0..rows.len()).rev() {
        let below = rank_of(ranks, fund).saturating_sub(1);
        for component in &rows[fund] {
            if let Some(rank) = ranks.get_mut(*component as usize) {
                *rank = below.min(*rank);
            }
        }
    }
}
