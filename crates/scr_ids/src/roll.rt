//! The ranges of one table.
ghost use Rattle.std.specs.Prelude.{◌≡◌, ◌+◌, ◌<◌, ◌++◌, ◌∷◌, [], length, OnOk, OnErr};
ghost use Rattle.scr_ids.specs.Ranges.{first_in};
ghost use Rattle.scr_ids.specs.Moves.{Sunk};

use std::alloc::{AllocError as NoMemory, Global};
use std::marker::Model;

/// The first ids of a table's ranges: the ranges of its rows in row order, then the free ones. Contracts see the list and the
/// number of rows.
#[derive(Drop)]
pub(crate) struct Roll {
    firsts: Vec<u32>,
    live: usize,
}

impl Model for Roll {
    ghost use Rattle.scr_ids.specs.Ranges.{RangeList};

    ghost Value = { RangeList };

    ghost view = { λ roll. record { firsts = roll.firsts.items; live = roll.live } };
}

impl Roll {
    /// A table without ranges.
    pub(crate) fn new(alloc: Global) -> Roll
        ensures firsts { result.firsts ≡ [] }
        ensures live { result.live ≡ 0 }
    {
        Roll {
            firsts: Vec::new(alloc),
            live: 0,
        }
    }

    /// The number of rows.
    pub(crate) fn live(&self) -> usize
        ensures { result ≡ self.now.live }
    {
        self.live
    }

    /// The number of ranges, free ones included.
    pub(crate) fn len(&self) -> usize
        ensures { result ≡ length self.now.firsts }
    {
        self.firsts.as_slice().len()
    }

    /// The first id of the range at position `k`.
    pub(crate) fn first(&self, k: usize) -> u32
        requires { k < length self.now.firsts }
        ensures { result ≡ first_in self.now.firsts k }
    {
        self.firsts.as_slice()[k]
    }

    /// The first ids of all ranges.
    pub(crate) fn firsts(&self) -> &[u32]
        ensures { result.now ≡ self.now.firsts }
    {
        self.firsts.as_slice()
    }

    /// Sets the number of rows.
    pub(crate) fn set_live(&mut self, live: usize)
        ensures firsts { self.new.firsts ≡ self.old.firsts }
        ensures live { self.new.live ≡ live }
    {
        self.live = live;
    }

    /// Adds a free range; `NoMemory` leaves all as it was.
    pub(crate) fn push(&mut self, first: u32) -> Result<(), NoMemory>
        ensures ok { OnOk result (self.new.firsts ≡ self.old.firsts ++ first ∷ []) }
        ensures live { self.new.live ≡ self.old.live }
        ensures err { OnErr result (self.new ≡ self.old) }
    {
        self.firsts.push(first)?;
        Ok(())
    }

    /// Swaps the ranges at positions `k` and `k` + 1.
    pub(crate) fn exchange(&mut self, k: usize)
        requires { k + 1 < length self.old.firsts }
        ensures moved { Sunk k (k + 1) (first_in self.old.firsts) (first_in self.new.firsts) }
        ensures len { length self.new.firsts ≡ length self.old.firsts }
        ensures live { self.new.live ≡ self.old.live }
    {
        let firsts = self.firsts.as_mut_slice();
        firsts.swap(k, k + 1);
    }
}
