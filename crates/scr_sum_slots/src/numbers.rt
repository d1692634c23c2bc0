//! A list of 32-bit numbers, with swap-removal and its undo.
ghost use Rattle.std.specs.Prelude.{◌≡◌, ◌≢◌, ℕ, ◌+◌, ◌-◌, ◌<◌, ◌≤◌, ◌++◌, ◌∷◌, [], length, replicate, slice_set, OnOk};
ghost use Rattle.scr_sum_slots.specs.Parts.{list_at};
ghost use Rattle.scr_sum_slots.specs.Firsts.{back_at, left};
ghost use Rattle.scr_sum_slots.specs.Moves.{AreOthers, Roomier};

use std::alloc::{AllocError as NoMemory, Global};
use std::marker::Model;

/// The largest length of a list.
const MOST: usize = u32::MAX as usize;

/// A list of numbers. Contracts see its items, and how many further ones fit without new memory.
#[derive(Drop)]
pub(crate) struct Numbers {
    numbers: Vec<u32>,
}

impl Model for Numbers {
    ghost use Rattle.std.specs.Prelude.{◌≤◌, ◌-◌, length, min};
    ghost use Rattle.std.specs.Vec.{vec_capacity};
    ghost use Rattle.scr_sum_slots.specs.Parts.{MOST, NumberList};

    ghost Value = { NumberList };

    ghost view = { λ list. record {
      items = list.numbers.items;
      room = min (vec_capacity list.numbers) MOST - length list.numbers.items;
    } };

    ghost invariant = { λ list. length list.numbers.items ≤ MOST };
}

impl Numbers {
    /// An empty list.
    pub(crate) fn new(alloc: Global) -> Numbers
        ensures { result.items ≡ [] }
    {
        Numbers {
            numbers: Vec::new(alloc),
        }
    }

    /// The numbers in order.
    pub(crate) fn as_slice(&self) -> &[u32]
        ensures { result.now ≡ self.now.items }
    {
        self.numbers.as_slice()
    }

    /// Makes room for `more` further numbers; `NoMemory` if there is none or the list would exceed 2^32 - 1. The numbers stay in
    /// either case.
    pub(crate) fn reserve(&mut self, more: usize) -> Result<(), NoMemory>
        ensures ok { OnOk result (more ≤ self.new.room) }
        ensures items { self.new.items ≡ self.old.items }
        ensures room { self.old.room ≤ self.new.room }
    {
        if more > MOST - self.numbers.len() {
            return Err(NoMemory);
        }
        self.numbers.try_reserve(more)
    }

    /// Pushes a number and returns its position. It uses reserved room, so it can't fail.
    pub(crate) fn put(&mut self, number: u32) -> u32
        requires { 0 < self.old.room }
        ensures place { result ≡ length self.old.items }
        ensures items { self.new.items ≡ self.old.items ++ number ∷ [] }
        ensures room { self.old.room ≤ self.new.room + 1 }
    {
        let place = self.numbers.len() as u32;
        self.numbers.push_reserved(number);
        place
    }

    /// Pops the last number. Room grows by one.
    pub(crate) fn take(&mut self) -> u32
        requires { 0 < length self.old.items }
        ensures items { self.old.items ≡ self.new.items ++ result ∷ [] }
        ensures room { self.old.room + 1 ≤ self.new.room }
    {
        match self.numbers.pop() {
            Some(number) => number,
            None => unreachable!(),
        }
    }

    /// Writes a number at a position, and extends the list up to it with 0 if it was shorter.
    fn write(&mut self, place: u32, number: u32) -> Result<(), NoMemory>
        ensures { OnOk result (self.new.items
            ≡ slice_set (self.old.items ++ replicate (place + 1 - length self.old.items) 0) place number) }
    {
        let size = self.numbers.len();
        // Rows that come in the order of their positions append, the common case.
        if place as usize == size {
            return self.push(number);
        }
        let most = size.max(place as usize + 1);
        if most > MOST {
            return Err(NoMemory);
        }
        self.numbers.resize(most, 0)?;
        self.numbers[place as usize] = number;
        Ok(())
    }

    /// Appends a number; `NoMemory` at 2^32 - 1 numbers.
    fn push(&mut self, number: u32) -> Result<(), NoMemory>
        ensures { OnOk result (self.new.items ≡ self.old.items ++ number ∷ []) }
    {
        if self.numbers.len() == MOST {
            return Err(NoMemory);
        }
        self.numbers.push(number)?;
        Ok(())
    }

    /// Swap-removes the number at a position. Room grows by one.
    fn leave(&mut self, place: u32)
        requires { place < length self.old.items }
        ensures items { self.new.items ≡ left place self.old.items }
        ensures room { self.old.room + 1 ≤ self.new.room }
    {
        self.numbers.swap_remove(place as usize);
    }

    /// Undoes a swap-removal at a position; the number that had taken it goes last. It uses reserved room, so it can't fail.
    fn put_back(&mut self, place: u32, number: u32)
        requires place { place ≤ length self.old.items }
        requires room { 0 < self.old.room }
        ensures items { self.new.items ≡ back_at place number self.old.items }
        ensures room { self.old.room ≤ self.new.room + 1 }
    {
        let last = self.numbers.len();
        self.numbers.push_reserved(number);
        self.numbers.swap(place as usize, last);
    }
}

/// Makes room for `more` further numbers in a list, and the list if there is none.
pub(crate) fn make_room(
    lists: &mut Vec<Numbers>,
    alloc: Global,
    key: usize,
    more: usize,
) -> Result<(), NoMemory>
    ensures ok { OnOk result (more ≤ (list_at key lists.new.items).room) }
    ensures roomier { Roomier lists.old.items lists.new.items }
{
    reach(lists, alloc, key)?;
    room_for(lists, key, more)
}

/// Adds empty lists up to number `key`.
fn reach(lists: &mut Vec<Numbers>, alloc: Global, key: usize) -> Result<(), NoMemory>
    ensures ok { OnOk result (key < length lists.new.items) }
    ensures roomier { Roomier lists.old.items lists.new.items }
{
    if key > u32::MAX as usize {
        return Err(NoMemory);
    }
    let more = (key + 1).saturating_sub(lists.len());
    for _ in 0..more {
        lists.push(Numbers::new(alloc))?;
    }
    Ok(())
}

/// Makes room for `more` further numbers in a list that exists.
pub(crate) fn room_for(lists: &mut Vec<Numbers>, key: usize, more: usize) -> Result<(), NoMemory>
    requires { key < length lists.old.items }
    ensures ok { OnOk result (more ≤ (list_at key lists.new.items).room) }
    ensures roomier { Roomier lists.old.items lists.new.items }
{
    lists[key].reserve(more)
}

/// Pops the last number of a list.
pub(crate) fn take_last(lists: &mut Vec<Numbers>, key: usize) -> u32
    requires { 0 < length (list_at key lists.old.items).items }
    ensures slots { (list_at key lists.old.items).items ≡ (list_at key lists.new.items).items ++ result ∷ [] }
    ensures room { (list_at key lists.old.items).room + 1 ≤ (list_at key lists.new.items).room }
    ensures others { AreOthers key lists.old.items lists.new.items }
{
    lists[key].take()
}

/// Pushes a number to a list that has room, and returns its position there.
pub(crate) fn put_last(lists: &mut Vec<Numbers>, key: usize, number: u32) -> u32
    requires { 0 < (list_at key lists.old.items).room }
    ensures place { result ≡ length (list_at key lists.old.items).items }
    ensures slots { (list_at key lists.new.items).items ≡ (list_at key lists.old.items).items ++ number ∷ [] }
    ensures room { (list_at key lists.old.items).room ≤ (list_at key lists.new.items).room + 1 }
    ensures others { AreOthers key lists.old.items lists.new.items }
{
    lists[key].put(number)
}

/// Swap-removes the number at a position of a list.
pub(crate) fn leave(lists: &mut Vec<Numbers>, key: usize, place: u32)
    requires { place < length (list_at key lists.old.items).items }
    ensures items { (list_at key lists.new.items).items ≡ left place (list_at key lists.old.items).items }
    ensures room { (list_at key lists.old.items).room + 1 ≤ (list_at key lists.new.items).room }
    ensures others { AreOthers key lists.old.items lists.new.items }
{
    lists[key].leave(place);
}

/// Undoes a swap-removal at a position of a list; the number that had taken it goes last.
pub(crate) fn put_back(lists: &mut Vec<Numbers>, key: usize, place: u32, number: u32)
    requires place { place ≤ length (list_at key lists.old.items).items }
    requires room { 0 < (list_at key lists.old.items).room }
    ensures items { (list_at key lists.new.items).items ≡ back_at place number (list_at key lists.old.items).items }
    ensures room { (list_at key lists.old.items).room ≤ (list_at key lists.new.items).room + 1 }
    ensures others { AreOthers key lists.old.items lists.new.items }
{
    lists[key].put_back(place, number);
}

/// Writes a number at a position of a list, extended with 0 up to it if it was shorter.
pub(crate) fn write(
    lists: &mut Vec<Numbers>,
    alloc: Global,
    key: usize,
    place: u32,
    number: u32,
) -> Result<(), NoMemory>
    ensures items { OnOk result ((list_at key lists.new.items).items
        ≡ slice_set ((list_at key lists.old.items).items ++ replicate (place + 1 - length (list_at key lists.old.items).items) 0) place number) }
    ensures others { OnOk result ((other : ℕ) → other ≢ key → (list_at other lists.new.items).items ≡ (list_at other lists.old.items).items) }
{
    if key >= lists.len() {
        reach(lists, alloc, key)?;
    }
    lists[key].write(place, number)
}
