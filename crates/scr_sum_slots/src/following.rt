//! Keeps the first ids beside the lists in step with the seats of a row.
ghost use Rattle.std.specs.Prelude.{◌≡◌, ◌≢◌, ℕ, ◌<◌, ◌≤◌, length, OnOk};
ghost use Rattle.scr_member_lists.specs.Seatings.{NOWHERE, place_in, roll_in};
ghost use Rattle.scr_sum_slots.specs.Firsts.{firsts_in, room_beside};
ghost use Rattle.scr_sum_slots.specs.Following.{AreSeatsOf, CanReseat, HasCome, HasFollowed, HasLeft, IsReseated, KeepsRoomBeside};

use crate::Firsts;
use scr_member_lists::{NOWHERE, SEATS, Seats};
use std::alloc::{AllocError as NoMemory, Global};

impl Firsts {
    /// Makes room for one further first id beside each list that the seats name. `NoMemory` if there is none; all first ids stay
    /// in either case.
    pub fn make_room(&mut self, alloc: Global, seats: &Seats) -> Result<(), NoMemory>
        ensures ok { OnOk result ((seat : ℕ) → seat < 11 → roll_in seat seats.now ≢ NOWHERE
            → 0 < room_beside (roll_in seat seats.now) self.new) }
        ensures still { (list : ℕ) → firsts_in list self.new ≡ firsts_in list self.old }
        ensures room { (list : ℕ) → room_beside list self.old ≤ room_beside list self.new }
    {
        for seat in 0..SEATS {
            if seats.roll(seat) != NOWHERE {
                self.reserve(alloc, seats.roll(seat))?;
            }
        }
        Ok(())
    }

    /// Moves a row's first id from the lists of the seats `was` to the lists of the seats `now`, without memory. In a list that
    /// both name it keeps its position. Calling it with the seats exchanged undoes it.
    pub fn follow(&mut self, was: &Seats, now: &Seats, first: u32)
        requires own { (seat_of : ℕ → ℕ) × AreSeatsOf seat_of was.now × AreSeatsOf seat_of now.now }
        requires can { (seat : ℕ) → seat < 11 → CanReseat was.now now.now seat self.old }
        ensures followed { (seat_of : ℕ → ℕ) → AreSeatsOf seat_of was.now → AreSeatsOf seat_of now.now
            → HasFollowed seat_of was.now now.now first self.old self.new }
        ensures room { KeepsRoomBeside self.old self.new }
    {
        for seat in 0..SEATS {
            self.reseat(was, now, seat, first);
        }
    }

    // Moves the row's first id in one seat.
    fn reseat(&mut self, was: &Seats, now: &Seats, seat: usize, first: u32)
        requires seat { seat < 11 }
        requires can { CanReseat was.now now.now seat self.old }
        ensures { IsReseated was.now now.now seat first self.old self.new }
    {
        if was.roll(seat) == now.roll(seat) {
            return;
        }
        self.quit(was.roll(seat), was.place(seat));
        self.stand(now.roll(seat), now.place(seat), first);
    }

    // Swap-removes the row's first id from a list; nothing to do for `NOWHERE`.
    fn quit(&mut self, list: u32, place: u32)
        requires { list ≢ NOWHERE → place < length (firsts_in list self.old) }
        ensures { HasLeft list place self.old self.new }
    {
        if list == NOWHERE {
            return;
        }
        self.leave(list, place);
    }

    // Puts the row's first id at a position of a list; nothing to do for `NOWHERE`.
    fn stand(&mut self, list: u32, place: u32, first: u32)
        requires place { list ≢ NOWHERE → place ≤ length (firsts_in list self.old) }
        requires room { list ≢ NOWHERE → 0 < room_beside list self.old }
        ensures { HasCome list place first self.old self.new }
    {
        if list == NOWHERE {
            return;
        }
        self.put_back(list, place, first);
    }
}
