//! The member lists of a table's rows by number, and for each row the lists and positions that hold it: an index in both
//! directions.
ghost use Rattle.std.specs.Prelude.{◌≡◌, ◌≢◌, ◌⊎◌, ℕ, ◌+◌, ◌-◌, ◌<◌, ◌≤◌, ◌==◌, List, [], ◌∷◌, ◌++◌, Some, None, false, true, insert, remove, length, map, slice_get, slice_index_or, IfOk, OnOk, OnErr, if◌then◌else◌};
ghost use Rattle.std.specs.List.{IsDistinct};
ghost use Rattle.std.specs.Option.{option_map};
ghost use Rattle.scr_tables.specs.Names.{same_name};
ghost use Rattle.scr_tables.specs.Tables.{has_row, without};
ghost use Rattle.scr_member_lists.specs.Members.{name_at, come, left, back_at, has, moved, returned};
ghost use Rattle.scr_member_lists.specs.Rosters.{drawn_in, drawn_out};
ghost use Rattle.scr_member_lists.specs.Seatings.{NOWHERE, AreSeated, AwaitsSeats, CanReturn, Grows, IsFor, KeepsRoom, KeepsSeats, RegainsSeats, free, names_of, place_in, roll_in, roll_then, room_of, seat_at, seat_of, seats_now, seats_of, stood, target};

use crate::roster::Roster;
use crate::seats::{Bench, NOWHERE, SEATS, Seats};
use scr_tables::{Name, Row, Rows};
use std::alloc::{AllocError as NoMemory, Global};
use std::marker::Model;

/// A member list, and the seat in which its members have it.
#[derive(Drop)]
pub(crate) struct Numbered {
    seat: usize,
    roster: Roster,
}

/// The member lists of a table, by number from 0, and its rows' seats, by position in the table. Of a row's eleven seats the first
/// `N` are stored, and no list is of a seat beyond.
#[derive(Drop)]
pub struct Seating<const N: usize> {
    rolls: Vec<Numbered>,
    seats: Vec<Bench<N>>,
}

impl<const N: usize> Model for Seating<N> {
    ghost use Rattle.std.specs.Prelude.{◌-◌, ◌≤◌, length};
    ghost use Rattle.std.specs.Vec.{vec_capacity};
    ghost use Rattle.scr_member_lists.specs.Seatings.{Seated};

    ghost Value = { Seated };

    ghost view = { λ seating. record {
      rolls = seating.rolls.items;
      seats = seating.seats.items;
      room = vec_capacity seating.seats - length seating.seats.items;
    } };

    ghost use Rattle.scr_member_lists.specs.Benches.{AreForWidth};

    ghost invariant = { λ seating. (N ≤ 11) × AreForWidth N seating.rolls.items };
}

impl<const N: usize> Seating<N> {
    /// No list and no row.
    pub fn new(alloc: Global) -> Seating<N>
        requires { N ≤ 11 }
        ensures rolls { result.rolls ≡ [] }
        ensures seats { result.seats ≡ [] }
        ensures seated { AreSeated [] result }
    {
        Seating {
            rolls: Vec::new(alloc),
            seats: Vec::new(alloc),
        }
    }

    /// Adds an empty list for each seat in `seats`, with consecutive numbers, and returns the first number. `NoMemory` if there is
    /// no memory or the number would reach 2^32 - 1; then lists and members stay, and some of the new lists may be there.
    pub fn add_all(&mut self, alloc: Global, seats: &[usize]) -> Result<u32, NoMemory>
        requires eleven { (k : ℕ) → slice_index_or seats.now k 0 < 11 }
        requires width { (k : ℕ) → slice_index_or seats.now k 0 < N }
        ensures number { IfOk result (λ number. number ≡ length self.old.rolls) }
        ensures count { OnOk result (length self.new.rolls ≡ length self.old.rolls + length seats.now) }
        ensures few { OnOk result (length self.new.rolls ≤ NOWHERE) }
        ensures own { OnOk result ((k : ℕ) → k < length seats.now
            → seat_of (length self.old.rolls + k) self.new.rolls ≡ slice_index_or seats.now k 0) }
        ensures grows { Grows self.old self.new }
    {
        let first = self.rolls.len();
        if first > NOWHERE as usize {
            return Err(NoMemory);
        }
        for seat in seats {
            self.add(alloc, *seat)?;
        }
        Ok(first as u32)
    }

    // Adds an empty list for a seat and returns its number; `NoMemory` leaves all as it was.
    fn add(&mut self, alloc: Global, seat: usize) -> Result<u32, NoMemory>
        requires { seat < N }
        ensures number { IfOk result (λ number. number ≡ length self.old.rolls) }
        ensures count { OnOk result (length self.new.rolls ≡ length self.old.rolls + 1) }
        ensures few { OnOk result (length self.new.rolls ≤ NOWHERE) }
        ensures seat { IfOk result (λ number. seat_of number self.new.rolls ≡ seat) }
        ensures own { (number : ℕ) → number < length self.old.rolls → seat_of number self.new.rolls ≡ seat_of number self.old.rolls }
        ensures names { (number : ℕ) → names_of number self.new.rolls ≡ names_of number self.old.rolls }
        ensures room { KeepsRoom self.old.rolls self.new.rolls }
        ensures seats { self.new.seats ≡ self.old.seats }
        ensures rows { self.new.room ≡ self.old.room }
        ensures err { OnErr result (self.new ≡ self.old) }
    {
        let number = self.rolls.len();
        if number >= NOWHERE as usize {
            return Err(NoMemory);
        }
        self.rolls.push(Numbered {
            seat,
            roster: Roster::new(alloc),
        })?;
        Ok(number as u32)
    }

    /// The members of a list in the order of their positions, no name twice.
    pub fn roll(&self, number: u32) -> &[Name]
        requires { number < length self.now.rolls }
        ensures names { result.now ≡ names_of number self.now.rolls }
        ensures apart { (names : List (List ℕ)) → AreSeated names self.now → IsDistinct same_name (names_of number self.now.rolls) }
    {
        self.rolls[number as usize].roster.as_slice()
    }

    /// The number of lists.
    pub fn len(&self) -> usize
        ensures { result ≡ length self.now.rolls }
    {
        self.rolls.len()
    }

    /// The number of rows that have seats.
    pub fn rows(&self) -> usize
        ensures { result ≡ length self.now.seats }
    {
        self.seats.len()
    }

    /// The stored seats of the row at a position of the table.
    pub fn bench(&self, place: usize) -> &Bench<N>
        requires { place < length self.now.seats }
        ensures { result.now ≡ seat_at place self.now.seats }
    {
        &self.seats[place]
    }

    /// All eleven seats of the row at a position of the table.
    pub fn seats(&self, place: usize) -> Seats
        requires { place < length self.now.seats }
        ensures { result ≡ seat_at place self.now.seats }
    {
        self.seats[place].seats()
    }

    /// Makes room for the seats of one further row, and for one further member in each list that `rolls` names; `NOWHERE` is
    /// skipped. `NoMemory` leaves all lists and seats as they were.
    pub fn make_room(&mut self, alloc: Global, rolls: &[u32]) -> Result<(), NoMemory>
        requires { (seat : ℕ) → target seat rolls.now ≢ NOWHERE → target seat rolls.now < length self.old.rolls }
        ensures ok { OnOk result ((seat : ℕ) → target seat rolls.now ≢ NOWHERE → 0 < room_of (target seat rolls.now) self.new.rolls) }
        ensures row { OnOk result (0 < self.new.room) }
        ensures own { KeepsSeats self.old.rolls self.new.rolls }
        ensures grows { Grows self.old self.new }
    {
        self.reserve_row(alloc)?;
        for roll in rolls {
            self.reserve(alloc, *roll)?;
        }
        Ok(())
    }

    /// Makes room for one further member in a list; nothing to do for `NOWHERE`. `NoMemory` leaves all lists and seats as they
    /// were.
    pub fn reserve(&mut self, alloc: Global, roll: u32) -> Result<(), NoMemory>
        requires { roll ≢ NOWHERE → roll < length self.old.rolls }
        ensures ok { OnOk result (roll ≢ NOWHERE → 0 < room_of roll self.new.rolls) }
        ensures own { KeepsSeats self.old.rolls self.new.rolls }
        ensures rows { self.new.room ≡ self.old.room }
        ensures grows { Grows self.old self.new }
    {
        if roll == NOWHERE {
            return Ok(());
        }
        self.reserve_in(alloc, roll)
    }

    // Makes room for one further member in a list that exists.
    fn reserve_in(&mut self, alloc: Global, number: u32) -> Result<(), NoMemory>
        requires { number < length self.old.rolls }
        ensures ok { OnOk result (0 < room_of number self.new.rolls) }
        ensures own { KeepsSeats self.old.rolls self.new.rolls }
        ensures names { (other : ℕ) → names_of other self.new.rolls ≡ names_of other self.old.rolls }
        ensures room { (other : ℕ) → room_of other self.old.rolls ≤ room_of other self.new.rolls }
        ensures seats { self.new.seats ≡ self.old.seats }
        ensures rows { self.new.room ≡ self.old.room }
    {
        self.rolls[number as usize].roster.reserve(alloc)
    }

    // Makes room for the seats of one further row.
    fn reserve_row(&mut self, _alloc: Global) -> Result<(), NoMemory>
        ensures ok { OnOk result (0 < self.new.room) }
        ensures rolls { self.new.rolls ≡ self.old.rolls }
        ensures seats { self.new.seats ≡ self.old.seats }
        ensures room { self.old.room ≤ self.new.room }
    {
        self.seats.try_reserve(1)
    }

    /// Stores free seats for the row that was appended to the table. It uses reserved room, so it can't fail.
    pub fn enter(&mut self)
        requires { 0 < self.old.room }
        ensures rolls { self.new.rolls ≡ self.old.rolls }
        ensures seats { self.new.seats ≡ self.old.seats ++ free ∷ [] }
        ensures room { self.old.room ≤ self.new.room + 1 }
    {
        self.seats.push_reserved(Bench::free());
    }

    /// The position of the row of a name in the table. A row without seats yet is the last one: it gets free seats, and no name is
    /// looked up.
    pub fn placed<R: Row>(&mut self, rows: &Rows<R>, name: &Name) -> usize
        requires seated { AwaitsSeats R.name_of name.now rows.now self.old }
        requires there { has_row R.name_of name.now rows.now ≡ true }
        ensures place { result < length rows.now }
        ensures name { name_at result (map R.name_of rows.now) ≡ name.now }
        ensures seated { AreSeated (map R.name_of rows.now) self.new }
        ensures rolls { self.new.rolls ≡ self.old.rolls }
        ensures seats { seat_at result self.new.seats ≡ seats_of (map R.name_of rows.now) self.old.seats name.now }
        ensures rows { self.old.room ≤ self.new.room + 1 }
    {
        let count = self.seats.len();
        if count < rows.len() {
            self.enter();
            return count;
        }
        rows.place(name).unwrap()
    }

    /// Removes the row of a name, about to leave the table, from all its lists, and drops its seats. Nothing changes if no row has
    /// the name. It needs no memory.
    pub fn release<R: Row>(&mut self, rows: &Rows<R>, name: &Name)
        requires { AreSeated (map R.name_of rows.now) self.old }
        ensures seated { AreSeated (map R.name_of (without R.name_of name.now rows.now)) self.new }
        ensures seats { KeepsSeats self.old.rolls self.new.rolls }
        ensures names { (number : ℕ) → names_of number self.new.rolls
            ≡ moved name.now (has name.now (names_of number self.old.rolls)) false (names_of number self.old.rolls) }
        ensures room { KeepsRoom self.old.rolls self.new.rolls }
        ensures rows { has_row R.name_of name.now rows.now ≡ true → self.old.room + 1 ≤ self.new.room }
    {
        let _count = rows.len();
        if let Some(place) = rows.place(name) {
            self.vacate(rows, place);
            self.gone(place);
        }
    }

    /// Undoes an edit of the row of a name: sets it back to the seats `before`, and stores seats again if it had left the table.
    /// It needs no memory.
    pub fn regain<R: Row>(&mut self, rows: &Rows<R>, name: &Name, before: &Seats)
        requires seated { RegainsSeats R.name_of name.now rows.now self.old }
        requires there { has_row R.name_of name.now rows.now ≡ true }
        requires before { (seat : ℕ) → seat < 11
            → CanReturn self.old.rolls (seats_now (map R.name_of rows.now) self.old.seats name.now) before.now seat }
        ensures seated { AreSeated (map R.name_of rows.now) self.new }
        ensures seats { KeepsSeats self.old.rolls self.new.rolls }
        ensures names { (number : ℕ) → number < length self.old.rolls → names_of number self.new.rolls
            ≡ returned name.now (stood (seat_of number self.old.rolls) number before.now) (names_of number self.old.rolls) }
        ensures room { KeepsRoom self.old.rolls self.new.rolls }
        ensures rows { self.old.room ≤ self.new.room + 1 }
    {
        let place = rows.place(name).unwrap();
        self.rejoin_if_gone(rows, name, place);
        self.restore(rows, place, before);
    }

    // Stores free seats for the row at its position of the table, if it has none.
    fn rejoin_if_gone<R: Row>(&mut self, rows: &Rows<R>, _name: &Name, place: usize)
        requires seated { RegainsSeats R.name_of _name.now rows.now self.old }
        requires place { option_map R.name_of (slice_get rows.now place) ≡ Some _name.now }
        ensures seated { AreSeated (map R.name_of rows.now) self.new }
        ensures rolls { self.new.rolls ≡ self.old.rolls }
        ensures seats { seat_at place self.new.seats ≡ seats_now (map R.name_of rows.now) self.old.seats _name.now }
        ensures rows { self.old.room ≤ self.new.room + 1 }
    {
        if self.seats.len() < rows.len() {
            self.rejoin(place);
        }
    }

    /// Moves the row at a position of the table to list `roll` of a seat, or to none for `NOWHERE`. It is swap-removed from the
    /// old list and appended to the new one; nothing changes if they are one list.
    pub fn seat<R: Row>(&mut self, rows: &Rows<R>, place: usize, seat: usize, roll: u32)
        requires seated { AreSeated (map R.name_of rows.now) self.old }
        requires place { place < length rows.now }
        requires seat { seat < 11 }
        requires roll { IsFor self.old.rolls seat roll }
        requires room { roll ≢ NOWHERE → roll ≢ roll_in seat (seat_at place self.old.seats) → 0 < room_of roll self.old.rolls }
        ensures seated { AreSeated (map R.name_of rows.now) self.new }
        ensures seats { KeepsSeats self.old.rolls self.new.rolls }
        ensures own { (s : ℕ) → roll_in s (seat_at place self.new.seats)
            ≡ (if seat == s then roll else roll_in s (seat_at place self.old.seats)) }
        ensures names { (number : ℕ) → number < length self.old.rolls → names_of number self.new.rolls
            ≡ (if seat_of number self.old.rolls == seat then moved (name_at place (map R.name_of rows.now))
            (has (name_at place (map R.name_of rows.now)) (names_of number self.old.rolls)) (roll == number) (names_of number self.old.rolls)
            else names_of number self.old.rolls) }
        ensures room { KeepsRoom self.old.rolls self.new.rolls }
        ensures rows { self.new.room ≡ self.old.room }
    {
        let _count = rows.len();
        if self.seats[place].roll(seat) == roll {
            return;
        }
        self.clear(rows, place, seat);
        if roll != NOWHERE {
            self.occupy(rows, place, seat, roll);
        }
    }

    /// Moves the row at a position of the table to the lists that `rolls` names, seat by seat from 0; seats beyond its end stay. A
    /// list that holds the row already keeps it where it is.
    pub fn arrange<R: Row>(&mut self, rows: &Rows<R>, place: usize, rolls: &[u32])
        requires seated { AreSeated (map R.name_of rows.now) self.old }
        requires place { place < length rows.now }
        requires few { length rolls.now ≤ 11 }
        requires rolls { (seat : ℕ) → seat < length rolls.now → IsFor self.old.rolls seat (roll_then seat rolls.now (seat_at place self.old.seats)) }
        requires room { (seat : ℕ) → seat < length rolls.now → roll_then seat rolls.now (seat_at place self.old.seats) ≢ NOWHERE
            → roll_then seat rolls.now (seat_at place self.old.seats) ≢ roll_in seat (seat_at place self.old.seats)
            → 0 < room_of (roll_then seat rolls.now (seat_at place self.old.seats)) self.old.rolls }
        ensures seated { AreSeated (map R.name_of rows.now) self.new }
        ensures seats { KeepsSeats self.old.rolls self.new.rolls }
        ensures own { (seat : ℕ) → roll_in seat (seat_at place self.new.seats) ≡ roll_then seat rolls.now (seat_at place self.old.seats) }
        ensures names { (number : ℕ) → number < length self.old.rolls → names_of number self.new.rolls
            ≡ moved (name_at place (map R.name_of rows.now)) (has (name_at place (map R.name_of rows.now)) (names_of number self.old.rolls))
            (roll_then (seat_of number self.old.rolls) rolls.now (seat_at place self.old.seats) == number) (names_of number self.old.rolls) }
        ensures room { KeepsRoom self.old.rolls self.new.rolls }
        ensures rows { self.new.room ≡ self.old.room }
    {
        let _count = rows.len();
        for seat in 0..rolls.len() {
            self.seat(rows, place, seat, rolls[seat]);
        }
    }

    /// Swap-removes the row at a position of the table from all its lists. It needs no memory.
    pub fn vacate<R: Row>(&mut self, rows: &Rows<R>, place: usize)
        requires seated { AreSeated (map R.name_of rows.now) self.old }
        requires place { place < length rows.now }
        ensures seated { AreSeated (map R.name_of rows.now) self.new }
        ensures seats { KeepsSeats self.old.rolls self.new.rolls }
        ensures own { (seat : ℕ) → roll_in seat (seat_at place self.new.seats) ≡ NOWHERE }
        ensures names { (number : ℕ) → names_of number self.new.rolls
            ≡ moved (name_at place (map R.name_of rows.now)) (has (name_at place (map R.name_of rows.now)) (names_of number self.old.rolls))
            false (names_of number self.old.rolls) }
        ensures room { KeepsRoom self.old.rolls self.new.rolls }
        ensures rows { self.new.room ≡ self.old.room }
    {
        let _count = rows.len();
        self.arrange(rows, place, &[NOWHERE; 11]);
    }

    /// Sets the row at a position of the table back to the seats `before`, without memory. It leaves each list that they do not
    /// name. It gets its position back in each list that it had left; the member that had taken it goes last.
    pub fn restore<R: Row>(&mut self, rows: &Rows<R>, place: usize, before: &Seats)
        requires seated { AreSeated (map R.name_of rows.now) self.old }
        requires place { place < length rows.now }
        requires before { (seat : ℕ) → seat < 11 → CanReturn self.old.rolls (seat_at place self.old.seats) before.now seat }
        ensures seated { AreSeated (map R.name_of rows.now) self.new }
        ensures seats { KeepsSeats self.old.rolls self.new.rolls }
        ensures own { (seat : ℕ) → seat < 11 → roll_in seat (seat_at place self.new.seats) ≡ roll_in seat before.now }
        ensures names { (number : ℕ) → number < length self.old.rolls → names_of number self.new.rolls
            ≡ returned (name_at place (map R.name_of rows.now)) (stood (seat_of number self.old.rolls) number before.now) (names_of number self.old.rolls) }
        ensures room { KeepsRoom self.old.rolls self.new.rolls }
        ensures rows { self.new.room ≡ self.old.room }
    {
        for seat in 0..SEATS {
            self.put_back(rows, place, seat, before.roll(seat), before.place(seat));
        }
    }

    // Removes the row at a position of the table from its list of a seat, if it has one.
    fn clear<R: Row>(&mut self, rows: &Rows<R>, place: usize, seat: usize)
        requires seated { AreSeated (map R.name_of rows.now) self.old }
        requires apart { IsDistinct same_name (map R.name_of rows.now) }
        requires place { place < length rows.now }
        requires seat { seat < 11 }
        ensures seated { AreSeated (map R.name_of rows.now) self.new }
        ensures seats { KeepsSeats self.old.rolls self.new.rolls }
        ensures own { (s : ℕ) → roll_in s (seat_at place self.new.seats)
            ≡ (if seat == s then NOWHERE else roll_in s (seat_at place self.old.seats)) }
        ensures names { roll_in seat (seat_at place self.old.seats) ≢ NOWHERE
            → names_of (roll_in seat (seat_at place self.old.seats)) self.new.rolls
            ≡ left (place_in seat (seat_at place self.old.seats)) (names_of (roll_in seat (seat_at place self.old.seats)) self.old.rolls) }
        ensures rolls { (other : ℕ) → other ≢ roll_in seat (seat_at place self.old.seats)
            → names_of other self.new.rolls ≡ names_of other self.old.rolls }
        ensures room { KeepsRoom self.old.rolls self.new.rolls }
        ensures rows { self.new.room ≡ self.old.room }
    {
        if self.seats[place].roll(seat) != NOWHERE {
            self.quit(rows, place, seat);
        }
    }

    // Swap-removes the row from its list of a seat. Not inlined, since few records come here.
    #[inline(never)]
    fn quit<R: Row>(&mut self, rows: &Rows<R>, place: usize, seat: usize)
        requires seated { AreSeated (map R.name_of rows.now) self.old }
        requires apart { IsDistinct same_name (map R.name_of rows.now) }
        requires place { place < length rows.now }
        requires seat { seat < 11 }
        requires some { roll_in seat (seat_at place self.old.seats) ≢ NOWHERE }
        ensures seated { AreSeated (map R.name_of rows.now) self.new }
        ensures seats { KeepsSeats self.old.rolls self.new.rolls }
        ensures own { (s : ℕ) → roll_in s (seat_at place self.new.seats)
            ≡ (if seat == s then NOWHERE else roll_in s (seat_at place self.old.seats)) }
        ensures names { names_of (roll_in seat (seat_at place self.old.seats)) self.new.rolls
            ≡ left (place_in seat (seat_at place self.old.seats)) (names_of (roll_in seat (seat_at place self.old.seats)) self.old.rolls) }
        ensures rolls { (other : ℕ) → other ≢ roll_in seat (seat_at place self.old.seats)
            → names_of other self.new.rolls ≡ names_of other self.old.rolls }
        ensures room { KeepsRoom self.old.rolls self.new.rolls }
        ensures rows { self.new.room ≡ self.old.room }
    {
        let own = &self.seats[place];
        let roll = own.roll(seat);
        let at = own.place(seat);
        self.leave(rows, seat, roll, at);
        self.seats[place].set_free(seat);
    }

    // Appends the row, whose seat is free, to a list.
    fn occupy<R: Row>(&mut self, rows: &Rows<R>, place: usize, seat: usize, roll: u32)
        requires seated { AreSeated (map R.name_of rows.now) self.old }
        requires apart { IsDistinct same_name (map R.name_of rows.now) }
        requires place { place < length rows.now }
        requires seat { seat < 11 }
        requires none { roll_in seat (seat_at place self.old.seats) ≡ NOWHERE }
        requires number { roll < length self.old.rolls }
        requires kind { seat_of roll self.old.rolls ≡ seat }
        requires room { 0 < room_of roll self.old.rolls }
        ensures seated { AreSeated (map R.name_of rows.now) self.new }
        ensures seats { KeepsSeats self.old.rolls self.new.rolls }
        ensures own { (s : ℕ) → roll_in s (seat_at place self.new.seats)
            ≡ (if seat == s then roll else roll_in s (seat_at place self.old.seats)) }
        ensures names { names_of roll self.new.rolls
            ≡ come (name_at place (map R.name_of rows.now)) (names_of roll self.old.rolls) }
        ensures rolls { (other : ℕ) → other ≢ roll → names_of other self.new.rolls ≡ names_of other self.old.rolls }
        ensures room { KeepsRoom self.old.rolls self.new.rolls }
        ensures rows { self.new.room ≡ self.old.room }
    {
        let name = rows.at(place).name();
        let at = self.come(roll, name);
        self.seats[place].put(seat, roll, at);
    }

    /// Drops the seats of the row that was removed from a position of the table and was in no list. Room grows by one.
    pub fn gone(&mut self, place: usize)
        requires { place < length self.old.seats }
        ensures rolls { self.new.rolls ≡ self.old.rolls }
        ensures seats { self.new.seats ≡ remove self.old.seats place }
        ensures room { self.old.room + 1 ≤ self.new.room }
    {
        self.seats.remove(place);
    }

    /// Stores free seats for a row that is back at a position of the table. It uses reserved room, so it can't fail.
    pub fn rejoin(&mut self, place: usize)
        requires place { place ≤ length self.old.seats }
        requires room { 0 < self.old.room }
        ensures rolls { self.new.rolls ≡ self.old.rolls }
        ensures seats { self.new.seats ≡ insert self.old.seats place free }
        ensures room { self.old.room ≤ self.new.room + 1 }
    {
        self.seats.insert(place, Bench::free()).unwrap();
    }

    /// Sets one seat of the row back to list `roll` and position `at`, or to free for `NOWHERE`, without memory. The row leaves
    /// its present list, and the member at position `at` goes last. Nothing changes if the row is in list `roll` already.
    pub fn put_back<R: Row>(
        &mut self,
        rows: &Rows<R>,
        place: usize,
        seat: usize,
        roll: u32,
        at: u32,
    )
        requires seated { AreSeated (map R.name_of rows.now) self.old }
        requires place { place < length rows.now }
        requires seat { seat < 11 }
        requires roll { IsFor self.old.rolls seat roll }
        requires room { roll ≢ NOWHERE → roll ≢ roll_in seat (seat_at place self.old.seats)
            → (at ≤ length (names_of roll self.old.rolls)) × (0 < room_of roll self.old.rolls) }
        ensures seated { AreSeated (map R.name_of rows.now) self.new }
        ensures seats { KeepsSeats self.old.rolls self.new.rolls }
        ensures own { (s : ℕ) → roll_in s (seat_at place self.new.seats)
            ≡ (if seat == s then roll else roll_in s (seat_at place self.old.seats)) }
        ensures names { (number : ℕ) → number < length self.old.rolls → names_of number self.new.rolls
            ≡ (if seat_of number self.old.rolls == seat then returned (name_at place (map R.name_of rows.now))
            (if roll == number then Some at else None) (names_of number self.old.rolls) else names_of number self.old.rolls) }
        ensures room { KeepsRoom self.old.rolls self.new.rolls }
        ensures rows { self.new.room ≡ self.old.room }
    {
        let _count = rows.len();
        if self.seats[place].roll(seat) == roll {
            return;
        }
        self.clear(rows, place, seat);
        if roll != NOWHERE {
            self.go_back(rows, place, seat, roll, at);
        }
    }

    // Undoes the row's swap-removal from a list; its seat is free before.
    fn go_back<R: Row>(&mut self, rows: &Rows<R>, place: usize, seat: usize, roll: u32, at: u32)
        requires seated { AreSeated (map R.name_of rows.now) self.old }
        requires apart { IsDistinct same_name (map R.name_of rows.now) }
        requires place { place < length rows.now }
        requires seat { seat < 11 }
        requires none { roll_in seat (seat_at place self.old.seats) ≡ NOWHERE }
        requires number { roll < length self.old.rolls }
        requires kind { seat_of roll self.old.rolls ≡ seat }
        requires at { at ≤ length (names_of roll self.old.rolls) }
        requires room { 0 < room_of roll self.old.rolls }
        ensures seated { AreSeated (map R.name_of rows.now) self.new }
        ensures seats { KeepsSeats self.old.rolls self.new.rolls }
        ensures own { (s : ℕ) → roll_in s (seat_at place self.new.seats)
            ≡ (if seat == s then roll else roll_in s (seat_at place self.old.seats)) }
        ensures names { names_of roll self.new.rolls
            ≡ back_at at (name_at place (map R.name_of rows.now)) (names_of roll self.old.rolls) }
        ensures rolls { (other : ℕ) → other ≢ roll → names_of other self.new.rolls ≡ names_of other self.old.rolls }
        ensures room { KeepsRoom self.old.rolls self.new.rolls }
        ensures rows { self.new.room ≡ self.old.room }
    {
        let name = rows.at(place).name();
        self.give_back(rows, seat, roll, at, name);
        self.seats[place].put(seat, roll, at);
    }

    // Inserts a name at its old position of a list. The member there goes last, and its seat follows.
    fn give_back<R: Row>(
        &mut self,
        rows: &Rows<R>,
        seat: usize,
        number: u32,
        place: u32,
        name: Name,
    )
        requires beside { length self.old.seats ≡ length rows.now }
        requires apart { IsDistinct same_name (map R.name_of rows.now) }
        requires seat { seat < 11 }
        requires number { number < length self.old.rolls }
        requires kind { seat_of number self.old.rolls ≡ seat }
        requires place { place ≤ length (names_of number self.old.rolls) }
        requires room { 0 < room_of number self.old.rolls }
        requires there { place < length (names_of number self.old.rolls)
            → has_row R.name_of (name_at place (names_of number self.old.rolls)) rows.now ≡ true }
        ensures beside { length self.new.seats ≡ length self.old.seats }
        ensures seats { KeepsSeats self.old.rolls self.new.rolls }
        ensures names { names_of number self.new.rolls ≡ back_at place name (names_of number self.old.rolls) }
        ensures rolls { (other : ℕ) → other ≢ number → names_of other self.new.rolls ≡ names_of other self.old.rolls }
        ensures room { KeepsRoom self.old.rolls self.new.rolls }
        ensures rows { self.new.room ≡ self.old.room }
        ensures at { (other : List ℕ) (s : ℕ) → roll_in s (seats_of (map R.name_of rows.now) self.new.seats other)
            ≡ roll_in s (seats_of (map R.name_of rows.now) self.old.seats other) }
        ensures drawn { place < length (names_of number self.old.rolls) → place_in seat (seats_of (map R.name_of rows.now) self.new.seats
            (name_at place (names_of number self.old.rolls))) ≡ length (names_of number self.old.rolls) }
        ensures still { (other : List ℕ) (s : ℕ)
            → ((place < length (names_of number self.old.rolls) → other ≢ name_at place (names_of number self.old.rolls)) ⊎ (s ≢ seat))
            → place_in s (seats_of (map R.name_of rows.now) self.new.seats other) ≡ place_in s (seats_of (map R.name_of rows.now) self.old.seats other) }
    {
        let last = self.count(number);
        if let Some(drawn) = self.put_at(number, place, name) {
            self.move_to(rows, &drawn, seat, last);
        }
    }

    // The number of members of a list; its seat is one that is stored.
    fn count(&self, number: u32) -> u32
        requires { number < length self.now.rolls }
        ensures count { result ≡ length (names_of number self.now.rolls) }
        ensures width { seat_of number self.now.rolls < N }
    {
        self.rolls[number as usize].roster.len()
    }

    // Inserts a name at its old position of a list. Returns the member that goes last for it; `None` if the position is the end.
    fn put_at(&mut self, number: u32, place: u32, name: Name) -> Option<Name>
        requires number { number < length self.old.rolls }
        requires place { place ≤ length (names_of number self.old.rolls) }
        requires room { 0 < room_of number self.old.rolls }
        ensures drawn { result ≡ drawn_out place (names_of number self.old.rolls) }
        ensures seats { KeepsSeats self.old.rolls self.new.rolls }
        ensures names { names_of number self.new.rolls ≡ back_at place name (names_of number self.old.rolls) }
        ensures rolls { (other : ℕ) → other ≢ number → names_of other self.new.rolls ≡ names_of other self.old.rolls }
        ensures room { KeepsRoom self.old.rolls self.new.rolls }
        ensures own { self.new.seats ≡ self.old.seats }
        ensures rows { self.new.room ≡ self.old.room }
    {
        self.rolls[number as usize].roster.put_back(place, name)
    }

    // Swap-removes the member at a position of a list; the seat of the member that moves there follows.
    fn leave<R: Row>(&mut self, rows: &Rows<R>, seat: usize, number: u32, place: u32)
        requires beside { length self.old.seats ≡ length rows.now }
        requires apart { IsDistinct same_name (map R.name_of rows.now) }
        requires seat { seat < 11 }
        requires number { number < length self.old.rolls }
        requires kind { seat_of number self.old.rolls ≡ seat }
        requires place { place < length (names_of number self.old.rolls) }
        requires there { place + 1 < length (names_of number self.old.rolls)
            → has_row R.name_of (name_at (length (names_of number self.old.rolls) - 1) (names_of number self.old.rolls)) rows.now ≡ true }
        ensures beside { length self.new.seats ≡ length self.old.seats }
        ensures seats { KeepsSeats self.old.rolls self.new.rolls }
        ensures names { names_of number self.new.rolls ≡ left place (names_of number self.old.rolls) }
        ensures rolls { (other : ℕ) → other ≢ number → names_of other self.new.rolls ≡ names_of other self.old.rolls }
        ensures room { KeepsRoom self.old.rolls self.new.rolls }
        ensures rows { self.new.room ≡ self.old.room }
        ensures at { (name : List ℕ) (s : ℕ) → roll_in s (seats_of (map R.name_of rows.now) self.new.seats name)
            ≡ roll_in s (seats_of (map R.name_of rows.now) self.old.seats name) }
        ensures drawn { place + 1 < length (names_of number self.old.rolls) → place_in seat (seats_of (map R.name_of rows.now) self.new.seats
            (name_at (length (names_of number self.old.rolls) - 1) (names_of number self.old.rolls))) ≡ place }
        ensures still { (name : List ℕ) (s : ℕ)
            → ((name ≢ name_at (length (names_of number self.old.rolls) - 1) (names_of number self.old.rolls)) ⊎ (s ≢ seat))
            → place_in s (seats_of (map R.name_of rows.now) self.new.seats name) ≡ place_in s (seats_of (map R.name_of rows.now) self.old.seats name) }
    {
        if let Some(drawn) = self.draw(number, place) {
            self.move_to(rows, &drawn, seat, place);
        }
    }

    // Swap-removes the member at a position of a list. Returns the member that took the position; `None` if the last was removed.
    // The list's seat is one that is stored.
    fn draw(&mut self, number: u32, place: u32) -> Option<Name>
        requires number { number < length self.old.rolls }
        requires place { place < length (names_of number self.old.rolls) }
        ensures drawn { result ≡ drawn_in place (names_of number self.old.rolls) }
        ensures seats { KeepsSeats self.old.rolls self.new.rolls }
        ensures names { names_of number self.new.rolls ≡ left place (names_of number self.old.rolls) }
        ensures rolls { (other : ℕ) → other ≢ number → names_of other self.new.rolls ≡ names_of other self.old.rolls }
        ensures room { KeepsRoom self.old.rolls self.new.rolls }
        ensures own { self.new.seats ≡ self.old.seats }
        ensures rows { self.new.room ≡ self.old.room }
        ensures width { seat_of number self.old.rolls < N }
    {
        self.rolls[number as usize].roster.leave(place)
    }

    // Appends a name to a list and returns its position.
    fn come(&mut self, number: u32, name: Name) -> u32
        requires number { number < length self.old.rolls }
        requires room { 0 < room_of number self.old.rolls }
        ensures place { result ≡ length (names_of number self.old.rolls) }
        ensures seats { KeepsSeats self.old.rolls self.new.rolls }
        ensures names { names_of number self.new.rolls ≡ come name (names_of number self.old.rolls) }
        ensures rolls { (other : ℕ) → other ≢ number → names_of other self.new.rolls ≡ names_of other self.old.rolls }
        ensures room { KeepsRoom self.old.rolls self.new.rolls }
        ensures own { self.new.seats ≡ self.old.seats }
        ensures rows { self.new.room ≡ self.old.room }
    {
        self.rolls[number as usize].roster.come(name)
    }

    // Sets the position in a seat of the row of a name.
    fn move_to<R: Row>(&mut self, rows: &Rows<R>, name: &Name, seat: usize, place: u32)
        requires beside { length self.old.seats ≡ length rows.now }
        requires apart { IsDistinct same_name (map R.name_of rows.now) }
        requires seat { seat < 11 }
        requires width { seat < N }
        requires there { has_row R.name_of name.now rows.now ≡ true }
        ensures rolls { self.new.rolls ≡ self.old.rolls }
        ensures beside { length self.new.seats ≡ length self.old.seats }
        ensures rows { self.new.room ≡ self.old.room }
        ensures at { (other : List ℕ) (s : ℕ) → roll_in s (seats_of (map R.name_of rows.now) self.new.seats other)
            ≡ roll_in s (seats_of (map R.name_of rows.now) self.old.seats other) }
        ensures own { place_in seat (seats_of (map R.name_of rows.now) self.new.seats name.now) ≡ place }
        ensures others { (other : List ℕ) (s : ℕ) → ((other ≢ name.now) ⊎ (s ≢ seat))
            → place_in s (seats_of (map R.name_of rows.now) self.new.seats other) ≡ place_in s (seats_of (map R.name_of rows.now) self.old.seats other) }
    {
        if let Some(k) = rows.place(name) {
            self.seats[k].set_place(seat, place);
        }
    }
}
