//! The first ids of members, beside the member lists.
ghost use Rattle.std.specs.Prelude.{◌≡◌, ℕ, ◌<◌, ◌≤◌, [], length, IfOk, OnOk};
ghost use Rattle.scr_sum_slots.specs.Filling.{IsWritten};
ghost use Rattle.scr_sum_slots.specs.Firsts.{Becomes, back_at, firsts_in, joined, left, room_beside};

use crate::numbers::{Numbers, leave, make_room, put_back, put_last, write};
use std::alloc::{AllocError as NoMemory, Global};
use std::marker::Model;

/// Beside each member list, position by position, the first id of the member's row. So a member's figure costs one addition. The
/// lists move as the member lists do.
#[derive(Drop)]
pub struct Firsts {
    lists: Vec<Numbers>,
}

impl Model for Firsts {
    ghost use Rattle.scr_sum_slots.specs.Firsts.{FirstLists};

    ghost Value = { FirstLists };

    ghost view = { λ firsts. record { lists = firsts.lists.items } };
}

impl Firsts {
    /// No first id in any list.
    pub fn new(alloc: Global) -> Firsts
        ensures { (list : ℕ) → firsts_in list result ≡ [] }
    {
        Firsts {
            lists: Vec::new(alloc),
        }
    }

    /// No first id in any list, and room for `lists` lists.
    pub(crate) fn with_capacity(alloc: Global, lists: usize) -> Result<Firsts, NoMemory>
        ensures { IfOk result (λ firsts. (list : ℕ) → firsts_in list firsts ≡ []) }
    {
        let lists = Vec::with_capacity(alloc, lists)?;
        Ok(Firsts { lists })
    }

    /// The number of lists that are stored; all beyond are empty.
    pub fn len(&self) -> usize
        ensures { result ≡ length self.now.lists }
    {
        self.lists.as_slice().len()
    }

    /// The first ids of a list's members, in the order of their positions; empty if the list is not stored.
    pub fn list(&self, list: u32) -> &[u32]
        ensures { result.now ≡ firsts_in list self.now }
    {
        match self.lists.as_slice().get(list as usize) {
            Some(numbers) => numbers.as_slice(),
            None => &[],
        }
    }

    /// Makes room beside a list for one further first id. `NoMemory` if there is none; all first ids stay in either case.
    pub fn reserve(&mut self, alloc: Global, list: u32) -> Result<(), NoMemory>
        ensures ok { OnOk result (0 < room_beside list self.new) }
        ensures still { Becomes list (firsts_in list self.old) self.old self.new }
    {
        make_room(&mut self.lists, alloc, list as usize, 1)
    }

    /// Makes room beside a list for `members` further first ids. `NoMemory` if there is none; all first ids stay in either case.
    pub(crate) fn reserve_many(
        &mut self,
        alloc: Global,
        list: u32,
        members: usize,
    ) -> Result<(), NoMemory>
        ensures ok { OnOk result (members ≤ room_beside list self.new) }
        ensures still { (other : ℕ) → firsts_in other self.new ≡ firsts_in other self.old }
        ensures room { (other : ℕ) → room_beside other self.old ≤ room_beside other self.new }
    {
        make_room(&mut self.lists, alloc, list as usize, members)
    }

    /// Appends a first id. It uses reserved room, so it can't fail.
    pub fn come(&mut self, list: u32, first: u32)
        requires { 0 < room_beside list self.old }
        ensures { Becomes list (joined first (firsts_in list self.old)) self.old self.new }
    {
        put_last(&mut self.lists, list as usize, first);
    }

    /// Swap-removes the first id at a position. Room grows by one.
    pub fn leave(&mut self, list: u32, place: u32)
        requires { place < length (firsts_in list self.old) }
        ensures { Becomes list (left place (firsts_in list self.old)) self.old self.new }
    {
        leave(&mut self.lists, list as usize, place);
    }

    /// Undoes a swap-removal at a position; the first id that had taken it goes last. It uses reserved room, so it can't fail.
    pub fn put_back(&mut self, list: u32, place: u32, first: u32)
        requires place { place ≤ length (firsts_in list self.old) }
        requires room { 0 < room_beside list self.old }
        ensures { Becomes list (back_at place first (firsts_in list self.old)) self.old self.new }
    {
        put_back(&mut self.lists, list as usize, place, first);
    }

    /// Writes a first id at a position of a list, extended with 0 up to it if it was shorter; `NoMemory` if it can't be.
    pub(crate) fn write(
        &mut self,
        alloc: Global,
        list: u32,
        place: u32,
        first: u32,
    ) -> Result<(), NoMemory>
        ensures { OnOk result (IsWritten list place first self.old self.new) }
    {
        write(&mut self.lists, alloc, list as usize, place, first)
    }
}
