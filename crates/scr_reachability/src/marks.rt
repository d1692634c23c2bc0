//! A set of numbers with a list of them.
ghost use Rattle.std.specs.Prelude.{◌≡◌, ◌<◌, ◌≤◌, [], All, IfSome, OnOk, OnErr};
ghost use Rattle.std.specs.Prelude.{ℕ, Some, max, nat_eq, slice_get};
ghost use Rattle.std.specs.List.{IsDistinct};
ghost use Rattle.indexmap.specs.IndexSet.{insert_key};
ghost use Rattle.scr_reachability.specs.Marks.{MarkedNumbers};

use std::alloc::{AllocError as NoMemory, Global};
use std::marker::Model;

/// A sparse set of numbers, in the order in which they were marked. Contracts see the list, and the bound of numbers that can be
/// marked (`size`).
///
/// A number is marked if the list has it at the index that is stored for it. So clearing the list clears the set.
#[derive(Drop)]
pub struct Marked {
    list: Vec<u32>,
    places: Vec<u32>,
}

impl Model for Marked {
    ghost use Rattle.scr_reachability.specs.Marks.{AreMarked, MarkedNumbers, marked_of};

    ghost Value = { MarkedNumbers };

    ghost view = { marked_of };

    ghost invariant = { AreMarked };
}

impl Marked {
    /// The empty set, which can hold no number yet.
    pub fn new(alloc: Global) -> Marked
        ensures size { result.size ≡ 0 }
        ensures list { result.list ≡ [] }
    {
        Marked {
            list: Vec::new(alloc),
            places: Vec::new(alloc),
        }
    }

    /// The bound of numbers that can be marked.
    pub fn size(&self) -> usize
        ensures size { result ≡ self.now.size }
        ensures once { IsDistinct nat_eq self.now.list }
    {
        self.places.len()
    }

    /// Raises the bound to `size`, if it is lower. `NoMemory` leaves the bound as it was. Marks stay in either case.
    pub fn grow(&mut self, size: usize) -> Result<(), NoMemory>
        ensures list { self.new.list ≡ self.old.list }
        ensures ok { OnOk result (self.new.size ≡ max self.old.size size) }
        ensures err { OnErr result (self.new.size ≡ self.old.size) }
    {
        if size > self.places.len() {
            self.places.resize(size, 0)?;
        }
        Ok(())
    }

    /// The index of a number among the marked ones; `None` if it is not marked.
    pub fn place(&self, number: u32) -> Option<u32>
        requires { number < self.now.size }
        ensures there { IfSome result (λ place. slice_get self.now.list place ≡ Some number) }
        ensures only { (place : ℕ) → slice_get self.now.list place ≡ Some number
            → result ≡ Some place }
    {
        let place = self.places[number as usize];
        if place as usize >= self.list.len() {
            return None;
        }
        if self.list[place as usize] != number {
            return None;
        }
        Some(place)
    }

    /// Marks a number, if it is not marked yet. `NoMemory` if the list can't grow or has 2^32 numbers; all stays as it was.
    pub fn insert(&mut self, number: u32) -> Result<(), NoMemory>
        requires { number < self.old.size }
        ensures size { self.new.size ≡ self.old.size }
        ensures ok { OnOk result (self.new.list ≡ insert_key nat_eq self.old.list number) }
        ensures err { OnErr result (self.new.list ≡ self.old.list) }
    {
        if self.place(number).is_some() {
            return Ok(());
        }
        let Ok(place) = u32::try_from(self.list.len()) else {
            return Err(NoMemory);
        };
        self.list.push(number)?;
        self.places[number as usize] = place;
        Ok(())
    }

    /// The marked numbers, in the order of marking.
    pub fn as_slice(&self) -> &[u32]
        ensures list { result.now ≡ self.now.list }
        ensures once { IsDistinct nat_eq self.now.list }
        ensures within { All (λ number. number < self.now.size) self.now.list }
    {
        self.list.as_slice()
    }

    /// Clears all marks, without memory.
    pub fn clear(&mut self)
        ensures size { self.new.size ≡ self.old.size }
        ensures list { self.new.list ≡ [] }
    {
        self.list.clear();
    }
}
