//! Counts by block and place. Those of a block are written where one of them is counted first, so that what is never counted
//! costs no page of memory.
ghost use Rattle.std.specs.Prelude.{◌≡◌, ℕ, ◌+◌, ◌-◌, ◌<◌, ◌≤◌, ◌^◌, IfOk, IfSome};
ghost use Rattle.scr_counters.specs.Blocks.{block_at, count_in, IsCountWritten, IsLastIn};
ghost use Rattle.scr_counters.specs.Counts.{IsLastPlace};

use crate::counts::Counts;
use std::alloc::{AllocError as NoMemory, Global};
use std::marker::Model;

/// The blocks.
const BLOCKS: usize = 251;

/// Counts by block and place. Contracts see the counts of each block; those of a block in which nothing was counted are none.
#[derive(Drop)]
pub(crate) struct Blocks {
    // By block, the seat of its counts, if it has one.
    seats: Vec<Option<u8>>,
    // By seat. There is room for all blocks.
    counts: Vec<Counts>,
}

impl Model for Blocks {
    ghost use Rattle.std.specs.Prelude.{ℕ, List, vec_capacity};
    ghost use Rattle.scr_counters.specs.Seats.{by_block, AreSeated};

    ghost Value = { List (List ℕ) };

    ghost view = { λ blocks. by_block blocks.seats.items blocks.counts.items };

    ghost invariant = { λ blocks. AreSeated blocks.seats.items blocks.counts.items (vec_capacity blocks.counts) };
}

impl Blocks {
    /// Nothing was counted. All memory is taken.
    pub(crate) fn new(alloc: Global) -> Result<Blocks, NoMemory>
        ensures { IfOk result (λ blocks. (block place : ℕ) → count_in blocks block place ≡ 0) }
    {
        let seats = vec![in alloc; None; BLOCKS]?;
        let counts = Vec::with_capacity(alloc, BLOCKS)?;
        Ok(Blocks { seats, counts })
    }

    /// One more at a place of a block.
    pub(crate) fn add(&mut self, block: usize, place: usize)
        requires block { block < 251 }
        requires place { place < 438 }
        requires fits { count_in self.old block place + 1 < 2 ^ 32 }
        ensures { IsCountWritten block place (count_in self.old block place + 1) self.old self.new }
    {
        match self.seats[block] {
            Some(seat) => self.counts[seat as usize].add(place),
            None => {
                let mut counts = Counts::new();
                counts.add(place);
                self.seats[block] = Some(self.counts.len() as u8);
                self.counts.push_reserved(counts);
            }
        }
    }

    /// One less at a place of a block.
    pub(crate) fn take(&mut self, block: usize, place: usize)
        requires block { block < 251 }
        requires place { place < 438 }
        requires some { 1 ≤ count_in self.old block place }
        ensures { IsCountWritten block place (count_in self.old block place - 1) self.old self.new }
    {
        if let Some(seat) = self.seats[block] {
            self.counts[seat as usize].take(place);
        }
    }

    /// The last block and place whose count is not 0.
    pub(crate) fn last(&self) -> Option<(usize, usize)>
        ensures last { IsLastIn self.now result }
        ensures within { IfSome result (λ at. (at.0 < 251) × (at.1 < 438)) }
    {
        for block in (0..self.seats.len()).rev() {
            if let Some(place) = self.last_of(block) {
                return Some((block, place));
            }
        }
        None
    }

    // The last place of a block whose count is not 0.
    fn last_of(&self, block: usize) -> Option<usize>
        requires { block < 251 }
        ensures last { IsLastPlace (block_at self.now block) result }
        ensures within { IfSome result (λ place. place < 438) }
    {
        match self.seats[block] {
            Some(seat) => self.counts[seat as usize].last(),
            None => None,
        }
    }
}
