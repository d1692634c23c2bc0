//! Lists of slots by key, stored sparsely.
ghost use Rattle.std.specs.Prelude.{◌≡◌, ℕ, ◌+◌, ◌<◌, ◌≤◌, ◌^◌, ◌++◌, ◌∷◌, [], length, IfOk, OnOk};
ghost use Rattle.scr_sum_slots.specs.Parts.{list_at};
ghost use Rattle.scr_sum_slots.specs.Moves.{AreOthers, Roomier};
ghost use Rattle.scr_sum_slots.specs.SlotLists.{ArePlaced, lists_by, place_of};

use crate::numbers::{Numbers, put_last, room_for, take_last};
use std::alloc::{AllocError as NoMemory, Global};
use std::marker::Model;

/// The position of a key that has no list.
const NONE: u32 = 0;

/// Lists of slots by key. Few keys have slots: a key costs 32 bits, and gets a list when it first needs room. Contracts see a list
/// for each key.
#[derive(Drop)]
pub(crate) struct SlotLists {
    /// For each key the position of its list; 0 if it has none.
    places: Vec<u32>,
    /// The stored lists. List 0 is empty, and shared by all keys without a list.
    lists: Vec<Numbers>,
}

impl Model for SlotLists {
    ghost use Rattle.std.specs.Prelude.{List};
    ghost use Rattle.scr_sum_slots.specs.Parts.{NumberList};
    ghost use Rattle.scr_sum_slots.specs.SlotLists.{ArePlaced, lists_by};

    ghost Value = { List NumberList };

    ghost view = { λ kept. lists_by kept.places.items kept.lists.items };

    ghost invariant = { λ kept. ArePlaced kept.places.items kept.lists.items };
}

impl SlotLists {
    /// No key has a list.
    pub(crate) fn new(alloc: Global) -> Result<SlotLists, NoMemory>
        ensures { IfOk result (λ lists. lists ≡ []) }
    {
        let mut lists = Vec::new(alloc);
        lists.push(Numbers::new(alloc))?;
        Ok(SlotLists {
            places: Vec::new(alloc),
            lists,
        })
    }

    /// The slots in the list of a key.
    pub(crate) fn at(&self, key: usize) -> &[u32]
        ensures { result.now ≡ (list_at key self.now).items }
    {
        match self.places.get(key) {
            Some(place) => self.lists[*place as usize].as_slice(),
            None => &[],
        }
    }

    /// Makes room for `more` further slots in the list of a key, and the list if there is none; `NoMemory` keeps all slots as they
    /// were.
    pub(crate) fn make_room(
        &mut self,
        alloc: Global,
        key: usize,
        more: usize,
    ) -> Result<(), NoMemory>
        ensures ok { OnOk result (more ≤ (list_at key self.new).room) }
        ensures roomier { Roomier self.old self.new }
    {
        let place = place_for(&mut self.places, &mut self.lists, alloc, key)?;
        room_for(&mut self.lists, place as usize, more)
    }

    /// Pops the last slot of a list.
    pub(crate) fn take_last(&mut self, key: usize) -> u32
        requires { 0 < length (list_at key self.old).items }
        ensures slots { (list_at key self.old).items ≡ (list_at key self.new).items ++ result ∷ [] }
        ensures room { (list_at key self.old).room + 1 ≤ (list_at key self.new).room }
        ensures others { AreOthers key self.old self.new }
    {
        let place = self.places[key];
        take_last(&mut self.lists, place as usize)
    }

    /// Pushes a slot to a list that has room, and returns its position there.
    pub(crate) fn put_last(&mut self, key: usize, slot: u32) -> u32
        requires { 0 < (list_at key self.old).room }
        ensures place { result ≡ length (list_at key self.old).items }
        ensures slots { (list_at key self.new).items ≡ (list_at key self.old).items ++ slot ∷ [] }
        ensures room { (list_at key self.old).room ≤ (list_at key self.new).room + 1 }
        ensures others { AreOthers key self.old self.new }
    {
        let place = self.places[key];
        put_last(&mut self.lists, place as usize, slot)
    }
}

/// The position of a key's list, which is made if there is none.
fn place_for(
    places: &mut Vec<u32>,
    lists: &mut Vec<Numbers>,
    alloc: Global,
    key: usize,
) -> Result<u32, NoMemory>
    requires { ArePlaced places.old.items lists.old.items }
    ensures place { IfOk result (λ place. place ≡ place_of key places.new.items) }
    ensures some { IfOk result (λ place. 0 < place) }
    ensures placed { ArePlaced places.new.items lists.new.items }
    ensures roomier { Roomier (lists_by places.old.items lists.old.items) (lists_by places.new.items lists.new.items) }
{
    reach(places, key)?;
    if places[key] != NONE {
        return Ok(places[key]);
    }
    let Ok(place) = u32::try_from(lists.len()) else {
        return Err(NoMemory);
    };
    lists.push(Numbers::new(alloc))?;
    places[key] = place;
    Ok(place)
}

/// Extends the keys up to `key`; new ones have no list.
fn reach(places: &mut Vec<u32>, key: usize) -> Result<(), NoMemory>
    ensures there { OnOk result (key < length places.new.items) }
    ensures still { (other : ℕ) → place_of other places.new.items ≡ place_of other places.old.items }
    ensures more { length places.old.items ≤ length places.new.items }
    ensures few { length places.old.items ≤ 2 ^ 32 → length places.new.items ≤ 2 ^ 32 }
{
    if key > u32::MAX as usize {
        return Err(NoMemory);
    }
    if key >= places.len() {
        places.resize(key + 1, NONE)?;
    }
    Ok(())
}
