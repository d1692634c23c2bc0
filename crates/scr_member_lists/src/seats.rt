//! The seats of a row: which lists hold it, and where.
ghost use Rattle.std.specs.Prelude.{◌≡◌, ℕ, ◌<◌, ◌≤◌, ◌==◌, if◌then◌else◌};
ghost use Rattle.scr_member_lists.specs.Seatings.{NOWHERE, free, place_in, roll_in};

use std::marker::Model;

/// The list number of a free seat.
pub const NOWHERE: u32 = u32::MAX;

/// The number of seats of a row.
pub const SEATS: usize = 11;

/// The eleven seats of a row. Seat `s` (0 to 10) is free, or names one list of its kind and the row's position there.
#[derive(Clone, Copy)]
pub struct Seats {
    rolls: [u32; 11],
    places: [u32; 11],
}

impl Seats {
    /// Eleven free seats.
    pub fn free() -> Seats
        ensures { result ≡ free }
    {
        Seats {
            rolls: [NOWHERE; 11],
            places: [0; 11],
        }
    }

    /// The number of the list that holds the row in a seat; `NOWHERE` if the seat is free.
    pub fn roll(&self, seat: usize) -> u32
        requires { seat < 11 }
        ensures { result ≡ roll_in seat self.now }
    {
        self.rolls[seat]
    }

    /// The list numbers of seats 0 to 10; `NOWHERE` for each free seat.
    pub fn rolls(&self) -> [u32; 11]
        ensures { result ≡ self.now.rolls }
    {
        self.rolls
    }

    /// The row's position, counted from 0, in the list of a seat; without meaning if the seat is free.
    pub fn place(&self, seat: usize) -> u32
        requires { seat < 11 }
        ensures { result ≡ place_in seat self.now }
    {
        self.places[seat]
    }
}

/// The seats of a row as they are stored: the first `N`, which its table uses. Contracts see all eleven, with the others free.
#[derive(Drop)]
pub struct Bench<const N: usize> {
    rolls: [u32; N],
    places: [u32; N],
}

impl<const N: usize> Model for Bench<N> {
    ghost use Rattle.std.specs.Prelude.{◌≡◌, length};
    ghost use Rattle.scr_member_lists.specs.Benches.{widened};
    ghost use Rattle.scr_member_lists.specs.Seatings.{NOWHERE};
    ghost use Rattle.scr_member_lists.specs.declared.seats.Seats.{Seats};

    ghost Value = { Seats };

    ghost view = { λ bench. record { rolls = widened NOWHERE bench.rolls; places = widened 0 bench.places } };

    ghost invariant = { λ bench. (length bench.rolls ≡ N) × (length bench.places ≡ N) };
}

impl<const N: usize> Bench<N> {
    /// `N` free seats.
    pub(crate) fn free() -> Bench<N>
        ensures { result ≡ free }
    {
        Bench {
            rolls: [NOWHERE; N],
            places: [0; N],
        }
    }

    /// The number of seats that are stored, at most 11; all others are free.
    pub fn width(&self) -> usize
        ensures few { result ≤ 11 }
        ensures beyond { (seat : ℕ) → result ≤ seat → roll_in seat self.now ≡ NOWHERE }
    {
        // Brings the invariant into sight: `N` seats are stored, and the view has eleven.
        let _ = &self.rolls;
        N.min(SEATS)
    }

    /// The number of the list that holds the row in a seat; `NOWHERE` if the seat is free.
    pub fn roll(&self, seat: usize) -> u32
        requires { seat < 11 }
        ensures { result ≡ roll_in seat self.now }
    {
        if seat < N { self.rolls[seat] } else { NOWHERE }
    }

    /// The row's position, counted from 0, in the list of a seat; without meaning if the seat is free.
    pub fn place(&self, seat: usize) -> u32
        requires { seat < 11 }
        ensures { result ≡ place_in seat self.now }
    {
        if seat < N { self.places[seat] } else { 0 }
    }

    /// All eleven seats; free ones beyond the stored.
    pub(crate) fn seats(&self) -> Seats
        ensures { result ≡ self.now }
    {
        // Brings the invariant into sight: `N` seats are stored, and the view has eleven.
        let _ = &self.rolls;
        let mut seats = Seats::free();
        for seat in 0..SEATS {
            seats.rolls[seat] = self.roll(seat);
            seats.places[seat] = self.place(seat);
        }
        seats
    }

    /// Frees a seat.
    pub(crate) fn set_free(&mut self, seat: usize)
        requires width { seat < N }
        requires seat { seat < 11 }
        ensures rolls { (other : ℕ) → roll_in other self.new ≡ (if seat == other then NOWHERE else roll_in other self.old) }
        ensures places { (other : ℕ) → place_in other self.new ≡ place_in other self.old }
    {
        self.rolls[seat] = NOWHERE;
    }

    /// Sets list and position of a seat.
    pub(crate) fn put(&mut self, seat: usize, roll: u32, place: u32)
        requires width { seat < N }
        requires seat { seat < 11 }
        ensures rolls { (other : ℕ) → roll_in other self.new ≡ (if seat == other then roll else roll_in other self.old) }
        ensures places { (other : ℕ) → place_in other self.new ≡ (if seat == other then place else place_in other self.old) }
    {
        self.rolls[seat] = roll;
        self.places[seat] = place;
    }

    /// Sets the position of a seat and keeps its list.
    pub(crate) fn set_place(&mut self, seat: usize, place: u32)
        requires width { seat < N }
        requires seat { seat < 11 }
        ensures places { (other : ℕ) → place_in other self.new ≡ (if seat == other then place else place_in other self.old) }
        ensures rolls { (other : ℕ) → roll_in other self.new ≡ roll_in other self.old }
    {
        self.places[seat] = place;
    }
}
