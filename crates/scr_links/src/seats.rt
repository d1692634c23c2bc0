//! The seats of blocks: each block's index among the written ones.
ghost use Rattle.std.specs.Prelude.{◌≡◌, ◌+◌, ◌-◌, ◌<◌, ◌≤◌, ◌++◌, [], length, map, replicate, slice_set, vec_capacity, IfOk, OnOk, OnErr};
ghost use Rattle.scr_links.specs.Chains.{none, seat_at};
ghost use Rattle.scr_links.specs.Seats.{long_seat};

use crate::chains::NONE;
use std::alloc::{AllocError as NoMemory, Global};
use std::marker::Model;

/// The 16 bits of a block that is not written.
const SHORT_NONE: u16 = u16::MAX;

/// The largest number of blocks with seats of 16 bits: none of them is `SHORT_NONE`.
const SHORT_ROOM: usize = SHORT_NONE as usize;

/// The seat of each block, and `NONE` for one that is not written. The width follows the room, not the blocks that are written, so
/// a block gets its seat without memory.
#[derive(Drop)]
pub(crate) struct Seats {
    kept: Kept,
}

/// Seats in 16 bits, where `SHORT_NONE` stands for `NONE`, or in 32.
#[derive(Drop)]
enum Kept {
    Short(Vec<u16>),
    Long(Vec<u32>),
}

impl Model for Seats {
    ghost use Rattle.scr_links.specs.Seats.{Seating};

    ghost Value = { Seating };

    ghost use Rattle.scr_links.specs.SeatsInside.{seating};

    ghost view = { seating };
}

impl Seats {
    /// No block has a seat, and there is room for none.
    pub(crate) fn new(alloc: Global) -> Seats
        ensures { result.items ≡ [] }
    {
        Seats {
            kept: Kept::Short(Vec::new(alloc)),
        }
    }

    /// Makes room for the seats of `blocks` blocks; `NoMemory` leaves all as it was.
    pub(crate) fn reserve(&mut self, blocks: usize) -> Result<(), NoMemory>
        ensures items { self.new.items ≡ self.old.items }
        ensures room { self.old.room ≤ self.new.room }
        ensures ok { OnOk result (blocks ≤ self.new.room) }
        ensures err { OnErr result (self.new ≡ self.old) }
    {
        match &mut self.kept {
            Kept::Long(seats) => reserve_total(seats, blocks),
            Kept::Short(seats) if blocks <= SHORT_ROOM => reserve_total(seats, blocks),
            Kept::Short(seats) => {
                let alloc = *seats.allocator();
                self.kept = Kept::Long(long_seats(alloc, seats, blocks)?);
                Ok(())
            }
        }
    }

    /// The seat of a block; `NONE` if it isn't written.
    pub(crate) fn at(&self, block: usize) -> u32
        ensures { result ≡ seat_at self.now.items block }
    {
        match &self.kept {
            Kept::Short(seats) => short_at(seats, block),
            Kept::Long(seats) => long_at(seats, block),
        }
    }

    /// Adds seats up to this block, for which there is room. New ones are `NONE`.
    pub(crate) fn fill(&mut self, block: usize)
        requires { block < self.old.room }
        ensures filled { self.new.items ≡ self.old.items ++ replicate (block + 1 - length self.old.items) none }
        ensures room { self.old.room ≤ self.new.room }
    {
        match &mut self.kept {
            Kept::Short(seats) => fill_up(seats, block, SHORT_NONE),
            Kept::Long(seats) => fill_up(seats, block, NONE),
        }
    }

    /// Sets the seat of a block.
    pub(crate) fn set(&mut self, block: usize, seat: u32)
        requires block { block < length self.old.items }
        requires seat { seat < self.old.room }
        ensures items { self.new.items ≡ slice_set self.old.items block seat }
        ensures room { self.old.room ≤ self.new.room }
    {
        match &mut self.kept {
            Kept::Short(seats) => seats[block] = seat as u16,
            Kept::Long(seats) => seats[block] = seat,
        }
    }
}

/// Makes room for `count` items in all.
pub(crate) fn reserve_total<T>(items: &mut Vec<T>, count: usize) -> Result<(), NoMemory>
    ensures items { items.new.items ≡ items.old.items }
    ensures longer { vec_capacity items.old ≤ vec_capacity items.new }
    ensures ok { OnOk result (count ≤ vec_capacity items.new) }
    ensures err { OnErr result (vec_capacity items.new ≡ vec_capacity items.old) }
{
    if count > items.len() {
        items.reserve(count - items.len())?;
    }
    Ok(())
}

/// The seats in 32 bits, with room for `blocks`.
fn long_seats(alloc: Global, seats: &[u16], blocks: usize) -> Result<Vec<u32>, NoMemory>
    ensures items { IfOk result (λ long. long.items ≡ map long_seat seats.now) }
    ensures room { IfOk result (λ long. blocks ≤ vec_capacity long) }
{
    let mut long = Vec::with_capacity(alloc, blocks)?;
    long.extend(seats.iter().map(|seat| long_of(*seat)))?;
    Ok(long)
}

/// The seat that 16 bits stand for.
fn long_of(seat: u16) -> u32
    ensures { result ≡ long_seat seat }
{
    if seat == SHORT_NONE {
        NONE
    } else {
        u32::from(seat)
    }
}

/// The seat of a block, from seats in 16 bits.
fn short_at(seats: &[u16], block: usize) -> u32
    ensures { result ≡ seat_at (map long_seat seats.now) block }
{
    match seats.get(block) {
        Some(seat) => long_of(*seat),
        None => NONE,
    }
}

/// The seat of a block, from seats in 32 bits.
fn long_at(seats: &[u32], block: usize) -> u32
    ensures { result ≡ seat_at seats.now block }
{
    match seats.get(block) {
        Some(seat) => *seat,
        None => NONE,
    }
}

/// Adds `unwritten` up to this block, for which there is room.
fn fill_up<T: Copy>(seats: &mut Vec<T>, block: usize, unwritten: T)
    requires { block < vec_capacity seats.old }
    ensures filled { seats.new.items ≡ seats.old.items ++ replicate (block + 1 - length seats.old.items) unwritten }
    ensures longer { vec_capacity seats.old ≤ vec_capacity seats.new }
{
    let size = seats.len();
    let more = (block + 1).saturating_sub(size);
    seats.resize(size + more, unwritten).unwrap();
}
