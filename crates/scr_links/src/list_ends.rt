//! The ends of lists, of which few have any.
ghost use Rattle.std.specs.Prelude.{◌≡◌, ℕ, ◌+◌, ◌*◌, ◌^◌, ◌<◌, ◌≤◌, ◌==◌, ◌++◌, length, replicate, if◌then◌else◌, vec_capacity, OnOk};
ghost use Rattle.scr_links.specs.Chains.{empty, ends_at, ends_in, written_at};
ghost use Rattle.scr_links.specs.ListEnds.{AreSeated, HasSeat};

use crate::chains::{Ends, NONE};
use crate::seats::{Seats, reserve_total};
use std::alloc::{AllocError as NoMemory, Global};
use std::marker::Model;

/// The number of neighbouring lists whose ends are one block.
const BLOCK: usize = 4;

/// The ends of lists by number, in blocks of neighbours. A block is written when one of its lists first gets a slot. There is room
/// for all blocks, and room that is not written takes no page of memory.
#[derive(Drop)]
pub(crate) struct ListEnds {
    seats: Seats,
    ends: Vec<Ends>,
    /// The number of blocks with room.
    blocks: usize,
}

impl Model for ListEnds {
    ghost use Rattle.scr_links.specs.Chains.{EndsByList};

    ghost Value = { EndsByList };

    ghost use Rattle.scr_links.specs.ListEndsInside.{ends_by_list, IsKept};

    ghost view = { ends_by_list };

    ghost invariant = { IsKept };
}

impl ListEnds {
    /// No list has ends, and there is room for none.
    pub(crate) fn new(alloc: Global) -> ListEnds
        ensures { (list : ℕ) → ends_at result list ≡ empty }
    {
        ListEnds {
            seats: Seats::new(alloc),
            ends: Vec::new(alloc),
            blocks: 0,
        }
    }

    /// Makes room for the ends of `lists` lists; `NoMemory` if there is none. All ends stay in either case.
    pub(crate) fn reserve(&mut self, lists: u32) -> Result<(), NoMemory>
        ensures at { (list : ℕ) → ends_at self.new list ≡ ends_at self.old list }
        ensures room { self.old.room ≤ self.new.room }
        ensures ok { OnOk result (lists ≤ self.new.room) }
    {
        let blocks = lists as usize / BLOCK + 1;
        if blocks <= self.blocks {
            return Ok(());
        }
        self.seats.reserve(blocks)?;
        reserve_total(&mut self.ends, blocks * BLOCK)?;
        self.blocks = blocks;
        Ok(())
    }

    /// The ends of a list; the ends of an empty one if there is no room for it.
    pub(crate) fn at(&self, list: u32) -> Ends
        ensures at { result ≡ ends_at self.now list }
        ensures past { self.now.room ≤ list → result ≡ empty }
    {
        let seat = self.seats.at(list as usize / BLOCK);
        written(&self.ends, seat as usize * BLOCK + list as usize % BLOCK)
    }

    /// Sets the ends of a list.
    pub(crate) fn set(&mut self, list: u32, ends: Ends)
        requires { list < self.old.room }
        ensures at { (number : ℕ) → ends_at self.new number ≡ (if number == list then ends else ends_at self.old number) }
        ensures room { self.new.room ≡ self.old.room }
    {
        let seat = seat_for(&mut self.seats, &mut self.ends, list as usize / BLOCK);
        self.ends[seat as usize * BLOCK + list as usize % BLOCK] = ends;
    }
}

/// The ends at an index of the written ones; the ends of an empty list past the end.
fn written(ends: &[Ends], place: usize) -> Ends
    ensures { result ≡ written_at ends.now place }
{
    match ends.get(place) {
        Some(ends) => *ends,
        None => none_yet(),
    }
}

/// The seat of a block, which is written if it was not.
fn seat_for(seats: &mut Seats, ends: &mut Vec<Ends>, block: usize) -> u32
    requires seated { AreSeated seats.old.items ends.old.items }
    requires few { length seats.old.items ≤ 2 ^ 30 }
    requires block { block < 2 ^ 30 }
    requires seats { block < seats.old.room }
    requires within { length seats.old.items ≤ seats.old.room }
    requires ends { block * 4 + 4 ≤ vec_capacity ends.old }
    requires all { length seats.old.items * 4 ≤ vec_capacity ends.old }
    ensures seated { AreSeated seats.new.items ends.new.items }
    ensures same { (list : ℕ) → ends_in seats.new.items ends.new.items list ≡ ends_in seats.old.items ends.old.items list }
    ensures seat { HasSeat seats.new.items ends.new.items block result }
    ensures longest { (most : ℕ) → block < most → length seats.old.items ≤ most → length seats.new.items ≤ most }
    ensures seats { seats.old.room ≤ seats.new.room }
    ensures ends { vec_capacity ends.old ≤ vec_capacity ends.new }
{
    let seat = seats.at(block);
    if seat != NONE {
        return seat;
    }
    seats.fill(block);
    let next = (ends.len() / BLOCK) as u32;
    write(ends);
    seats.set(block, next);
    next
}

/// Writes one further block, of empty lists, into reserved room.
fn write(ends: &mut Vec<Ends>)
    requires { length ends.old.items + 4 ≤ vec_capacity ends.old }
    ensures items { ends.new.items ≡ ends.old.items ++ replicate 4 empty }
    ensures longer { vec_capacity ends.old ≤ vec_capacity ends.new }
{
    let size = ends.len();
    ends.resize(size + BLOCK, none_yet()).unwrap();
}

/// The ends of an empty list.
fn none_yet() -> Ends
    ensures { result ≡ empty }
{
    Ends {
        first: NONE,
        last: NONE,
    }
}
