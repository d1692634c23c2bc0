//! The edges of all funds, where one of them has other components than those of its row.
ghost use Rattle.std.specs.Prelude.{◌≡◌};
ghost use Rattle.scr_funds.specs.Components.{components_of};
ghost use Rattle.scr_funds.specs.Edges.{edges_in, leads_on};
ghost use Rattle.scr_funds.specs.Search.{rows_of};

use crate::ranks::rank_of;

/// Which funds hold which.
#[derive(Clone, Copy)]
pub(crate) struct Edges<'a> {
    /// The components of each fund, by number.
    pub(crate) rows: &'a [Vec<u32>],
    /// The rank of each fund, by number.
    pub(crate) ranks: &'a [u64],
    /// A rank falls along each edge of the rows.
    pub(crate) are_ranked: bool,
    /// The fund that has other components than those of its row.
    pub(crate) from: u32,
    pub(crate) members: &'a [u32],
}

impl<'a> Edges<'a> {
    /// The components of a fund.
    pub(crate) fn components_of(&self, fund: u32) -> &'a [u32]
        ensures { result.now ≡ edges_in self.now fund }
    {
        if fund == self.from {
            return self.members;
        }
        row_of(self.rows, fund)
    }

    /// Whether a search for chains to a fund has to go on from here: what has no components leads
    /// nowhere, and what is not above the fund does not lead to it.
    pub(crate) fn leads_on(&self, fund: u32, to: u32) -> bool
        ensures { result ≡ leads_on self.now to fund }
    {
        if self.components_of(fund).is_empty() {
            return false;
        }
        !self.are_ranked || rank_of(self.ranks, to as usize) < rank_of(self.ranks, fund as usize)
    }
}

/// The components in the row of a fund: none past the end.
pub(crate) fn row_of(rows: &[Vec<u32>], fund: u32) -> &[u32]
    ensures { result.now ≡ components_of (rows_of rows.now) fund }
{
    match rows.get(fund as usize) {
        Some(row) => row.as_slice(),
        None => &[],
    }
}
