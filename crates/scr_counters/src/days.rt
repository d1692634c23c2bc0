//! How many lists of payments end on each day.
ghost use Rattle.std.specs.Prelude.{◌≡◌, ℤ, ℕ, ◌+◌, ◌-◌, ◌*◌, ◌/◌, ◌%◌, ◌<◌, ◌≤◌, ◌^◌, IfOk};
ghost use Rattle.scr_dates.specs.Civil.{IsDay};
ghost use Rattle.scr_counters.specs.Days.{days_to, count_of, ends_on, IsLast, IsDayOrNone};

use crate::blocks::Blocks;
use crate::counts::PLACES;
use scr_dates::Day;
use std::alloc::{AllocError as NoMemory, Global};
use std::marker::Model;

/// The number of 1 January 1900.
const FIRST: i32 = -25_567;

/// How many lists of payments end on each day of the years 1900 to 2200, which stand in blocks. All memory is taken when it is
/// made. Contracts see the counts by block, and read them by day.
#[derive(Drop)]
pub struct DayTally {
    blocks: Blocks,
}

impl Model for DayTally {
    ghost use Rattle.std.specs.Prelude.{ℕ, List};

    ghost Value = { List (List ℕ) };

    ghost view = { λ tally. tally.blocks };
}

impl DayTally {
    /// No list was counted.
    pub fn new(alloc: Global) -> Result<DayTally, NoMemory>
        ensures { IfOk result (λ tally. (day : ℤ) → count_of day tally ≡ 0) }
    {
        let blocks = Blocks::new(alloc)?;
        Ok(DayTally { blocks })
    }

    /// Counts a list with this last day; one without payments ends on no day.
    pub fn add(&mut self, last: Option<Day>)
        requires day { IsDayOrNone last }
        requires fits { (day : ℤ) → IsDay day → count_of day self.old + ends_on day last < 2 ^ 32 }
        ensures { (day : ℤ) → IsDay day → count_of day self.new ≡ count_of day self.old + ends_on day last }
    {
        if let Some(day) = last {
            let (block, place) = place_of(day);
            self.blocks.add(block, place);
        }
    }

    /// Takes away a list with this last day, which was counted.
    pub fn take(&mut self, last: Option<Day>)
        requires day { IsDayOrNone last }
        requires counted { (day : ℤ) → IsDay day → ends_on day last ≤ count_of day self.old }
        ensures { (day : ℤ) → IsDay day → count_of day self.new + ends_on day last ≡ count_of day self.old }
    {
        if let Some(day) = last {
            let (block, place) = place_of(day);
            self.blocks.take(block, place);
        }
    }

    /// The last day on which a list ends.
    pub fn last(&self) -> Option<Day>
        ensures { IsLast self.now result }
    {
        match self.blocks.last() {
            Some((block, place)) => Some(day_at(block, place)),
            None => None,
        }
    }
}

// The block of a day, and its place there.
fn place_of(day: Day) -> (usize, usize)
    requires { IsDay day.number }
    ensures block { result.0 ≡ days_to day.number / 438 }
    ensures place { result.1 ≡ days_to day.number % 438 }
    ensures blocks { result.0 < 251 }
    ensures places { result.1 < 438 }
{
    let days = (day.number - FIRST) as usize;
    (days / PLACES, days % PLACES)
}

// The day of a place in a block.
fn day_at(block: usize, place: usize) -> Day
    requires block { block < 251 }
    requires place { place < 438 }
    ensures is_day { IsDay result.number }
    ensures days { days_to result.number ≡ 438 * block + place }
{
    let days = PLACES * block + place;
    Day {
        number: FIRST + days as i32,
    }
}
