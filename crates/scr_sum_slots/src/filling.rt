//! Fills the first ids of all members of a table's lists.
ghost use Rattle.std.specs.Prelude.{◌≡◌, ◌<◌, ◌≤◌, ℕ, List, [], length, IfOk, OnOk};
ghost use Rattle.std.specs.List.{IsDistinct, position_or_len};
ghost use Rattle.scr_tables.specs.Names.{same_name};
ghost use Rattle.scr_ids.specs.Ranges.{count, first};
ghost use Rattle.scr_member_lists.specs.Seatings.{AreSeated, names_of};
ghost use Rattle.scr_sum_slots.specs.Filling.{AreFirsts, IsEntered, IsWritten};
ghost use Rattle.scr_sum_slots.specs.Firsts.{firsts_in, room_beside};

use crate::Firsts;
use scr_ids::{Places, Table};
use scr_member_lists::{Bench, NOWHERE, SEATS, Seating};
use std::alloc::{AllocError as NoMemory, Global};

impl Firsts {
    /// The first ids beside all member lists of a table, from one pass over the rows and their seats. `NoMemory` if they don't
    /// fit.
    pub fn of<const N: usize>(
        alloc: Global,
        seating: &Seating<N>,
        places: &Places,
        table: Table,
    ) -> Result<Firsts, NoMemory>
        requires { length seating.now.seats ≡ count places.now table }
        ensures { IfOk result (λ firsts. (names : List (List ℕ)) → AreSeated names seating.now → IsDistinct same_name names
            → AreFirsts (λ name. first places.now table (position_or_len (same_name name) names)) seating.now.rolls firsts) }
    {
        // Never so: a `Seating` has at most `SEATS` seats to a row.
        if N > SEATS {
            return Err(NoMemory);
        }
        let mut firsts = Firsts::with_room(alloc, seating)?;
        for k in 0..seating.rows() {
            firsts.enter(alloc, seating.bench(k), places.first(table, k))?;
        }
        Ok(firsts)
    }

    // Empty lists of first ids, each with room for one per member.
    fn with_room<const N: usize>(alloc: Global, seating: &Seating<N>) -> Result<Firsts, NoMemory>
        ensures none { IfOk result (λ firsts. (list : ℕ) → firsts_in list firsts ≡ []) }
        ensures room { IfOk result (λ firsts. (number : ℕ) → number < length seating.now.rolls
            → length (names_of number seating.now.rolls) ≤ room_beside number firsts) }
    {
        let count = seating.len();
        if count > u32::MAX as usize {
            return Err(NoMemory);
        }
        let mut firsts = Firsts::with_capacity(alloc, count)?;
        for number in 0..count as u32 {
            firsts.reserve_many(alloc, number, seating.roll(number).len())?;
        }
        Ok(firsts)
    }

    // Writes the first id of a row at the list and position of each of its taken seats.
    fn enter<const N: usize>(
        &mut self,
        alloc: Global,
        seats: &Bench<N>,
        first: u32,
    ) -> Result<(), NoMemory>
        ensures { OnOk result (IsEntered seats.now first 11 self.old self.new) }
    {
        for seat in 0..seats.width() {
            if seats.roll(seat) != NOWHERE {
                self.write(alloc, seats.roll(seat), seats.place(seat), first)?;
            }
        }
        Ok(())
    }
}
