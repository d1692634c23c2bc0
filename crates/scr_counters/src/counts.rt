//! Counts by place, of which the last that is not 0 is known.
ghost use Rattle.std.specs.Prelude.{◌≡◌, ℕ, ◌+◌, ◌-◌, ◌<◌, ◌≤◌, ◌^◌, length, replicate, slice_set};
ghost use Rattle.scr_counters.specs.Counts.{count_at, IsLastPlace};

use std::marker::Model;

/// The places of a block.
pub(crate) const PLACES: usize = 438;

/// Counts by place. Contracts see the list of the counts.
#[derive(Drop)]
pub(crate) struct Counts {
    counts: [u32; PLACES],
    /// The last place whose count is not 0.
    last: Option<usize>,
}

impl Model for Counts {
    ghost use Rattle.std.specs.Prelude.{ℕ, List};
    ghost use Rattle.scr_counters.specs.Counts.{IsLastPlace};

    ghost Value = { List ℕ };

    ghost view = { λ counts. counts.counts };

    ghost invariant = { λ counts. IsLastPlace counts.counts counts.last };
}

impl Counts {
    /// Each count is 0.
    pub(crate) fn new() -> Counts
        ensures { result ≡ replicate 438 0 }
    {
        Counts {
            counts: [0; PLACES],
            last: None,
        }
    }

    /// One more at a place.
    pub(crate) fn add(&mut self, place: usize)
        requires place { place < 438 }
        requires fits { count_at self.old place + 1 < 2 ^ 32 }
        ensures { self.new ≡ slice_set self.old place (count_at self.old place + 1) }
    {
        self.counts[place] += 1;
        self.last = match self.last {
            Some(last) => Some(last.max(place)),
            None => Some(place),
        };
    }

    /// One less at a place.
    pub(crate) fn take(&mut self, place: usize)
        requires place { place < 438 }
        requires some { 1 ≤ count_at self.old place }
        ensures { self.new ≡ slice_set self.old place (count_at self.old place - 1) }
    {
        self.counts[place] -= 1;
        let end = match self.last {
            Some(last) => last + 1,
            None => 0,
        };
        self.last = last_below(&self.counts, end);
    }

    /// The last place whose count is not 0.
    pub(crate) fn last(&self) -> Option<usize>
        ensures { IsLastPlace self.now result }
    {
        self.last
    }
}

/// The last place whose count is not 0, where those from `end` on are 0.
fn last_below(counts: &[u32], end: usize) -> Option<usize>
    requires within { end ≤ length counts.now }
    requires none { (place : ℕ) → end ≤ place → count_at counts.now place ≡ 0 }
    ensures { IsLastPlace counts.now result }
{
    for place in (0..end).rev() {
        if counts[place] != 0 {
            return Some(place);
        }
    }
    None
}
