//! The parts of all lists and their slots.
ghost use Rattle.std.specs.Prelude.{◌≡◌, ◌≢◌, ℕ, ◌+◌, ◌-◌, ◌<◌, ◌≤◌, ◌^◌, ◌++◌, ◌∷◌, [], length, max, min, nat_eq, slice_set, IfOk, OnOk, OnErr, Some};
ghost use Rattle.scr_sum_tree.specs.Blocks.{blocks_at};
ghost use Rattle.scr_sum_tree.specs.declared.blocks.Level.{Level};
ghost use Rattle.scr_sum_tree.specs.declared.blocks.Level.TheVariants as levels;
ghost use Rattle.scr_sum_slots.specs.Parts.{FREE, AreOwn, count_of, key_of, part_at, part_of, room_in, size_of, slot_of, slots_in, slots_of};
ghost use Rattle.scr_sum_slots.specs.declared.parts.Part.{Part as ThePart};
ghost use Rattle.scr_sum_slots.specs.Moves.{AreSame, Came, Freed, HaveGone, IsFront, KeepsOthers, KeepsParts, KeepsRoom, Made, Moved};

use crate::slot_lists::SlotLists;
use scr_sum_tree::{Level, blocks_at};
use std::alloc::{AllocError as NoMemory, Global};
use std::marker::Model;

/// The key of the free list.
const FREE: usize = 0;

/// A node of the sum tree over a list: 32 neighbouring members (first level), or 32 neighbouring parts of the first level (second
/// level).
#[derive(Clone, Copy)]
pub struct Part {
    /// The number of the list.
    pub list: u32,
    pub level: Level,
    /// Its index on its level, from 0.
    pub index: u32,
}

/// The list of slots that holds a slot, by key, and the position there.
#[derive(Clone, Copy)]
pub(crate) struct Owner {
    list: u32,
    index: u32,
}

/// A slot for each part of each list. Slots are never given up: a removed part's slot goes to the free list and serves the next
/// part. Contracts see the slots of each list's parts in order, and the part of each slot.
#[derive(Drop)]
pub struct Parts {
    /// The free list at key 0, then one list of slots for each list and level.
    lists: SlotLists,
    owner: Vec<Owner>,
}

impl Model for Parts {
    ghost use Rattle.scr_sum_slots.specs.Parts.{Parted};

    ghost Value = { Parted };

    ghost use Rattle.scr_sum_slots.specs.Kept.{IsKept, parted_of};

    ghost view = { parted_of };

    ghost invariant = { IsKept };
}

impl Parts {
    /// No part and no slot; `NoMemory` if the free list can't be made.
    pub fn new(alloc: Global) -> Result<Parts, NoMemory>
        ensures none { IfOk result (λ parts. (key : ℕ) → slots_in key parts ≡ []) }
        ensures size { IfOk result (λ parts. size_of parts ≡ 0) }
    {
        let lists = SlotLists::new(alloc)?;
        Ok(Parts {
            lists,
            owner: Vec::new(alloc),
        })
    }

    /// The number of slots, free ones included.
    pub fn len(&self) -> u32
        ensures size { result ≡ size_of self.now }
        ensures own { AreOwn self.now }
        ensures lists { (part : ThePart) (slot : ℕ) → slot_of part self.now ≡ Some slot → part.list < 2 ^ 31 }
    {
        self.owner.as_slice().len() as u32
    }

    /// The number of parts of a list on a level.
    pub fn count(&self, list: u32, level: Level) -> usize
        ensures { result ≡ count_of list level self.now }
    {
        self.lists.at(key_of(list, level)).len()
    }

    /// The slot of a part; `None` if the list has no such part.
    pub fn slot(&self, part: &Part) -> Option<u32>
        ensures { result ≡ slot_of part.now self.now }
    {
        let slots = self.lists.at(key_of(part.list, part.level));
        slots.get(part.index as usize).copied()
    }

    /// The part that has a slot; `None` if the slot is free or there is none such.
    pub fn part(&self, slot: u32) -> Option<Part>
        ensures { result ≡ part_at slot self.now }
    {
        let owner = self.owner.as_slice().get(slot as usize)?;
        part_of(owner)
    }

    /// Adds the parts that a list of `members` members needs: one for each Block, appended on both levels; the 33rd member brings
    /// the first two. `NoMemory` leaves the number of parts of each list as it was.
    pub fn grow(&mut self, alloc: Global, list: u32, members: usize) -> Result<(), NoMemory>
        ensures ok { OnOk result ((level : Level)
            → count_of list level self.new ≡ max (count_of list level self.old) (blocks_at members level)) }
        ensures err { OnErr result ((level : Level) → count_of list level self.new ≡ count_of list level self.old) }
        ensures others { KeepsOthers list self.old self.new }
        ensures kept { KeepsParts self.old self.new }
    {
        let first = self.count(list, Level::First);
        let second = self.count(list, Level::Second);
        let grown = self.add_both(alloc, list, members);
        if grown.is_err() {
            self.cut(list, Level::First, first);
            self.cut(list, Level::Second, second);
        }
        grown
    }

    /// Removes the last parts, those that a list of `members` members does not need. It needs no memory, so it can undo `grow`.
    pub fn shrink(&mut self, list: u32, members: usize)
        ensures count { (level : Level) → count_of list level self.new ≡ min (count_of list level self.old) (blocks_at members level) }
        ensures gone { HaveGone list (count_of list levels.First self.old - blocks_at members levels.First)
            (count_of list levels.Second self.old - blocks_at members levels.Second) self.old self.new }
        ensures room { KeepsRoom self.old self.new }
        ensures size { size_of self.new ≡ size_of self.old }
        ensures others { KeepsOthers list self.old self.new }
        ensures kept { KeepsParts self.new self.old }
    {
        self.cut(list, Level::First, blocks_at(members, Level::First));
        self.cut(list, Level::Second, blocks_at(members, Level::Second));
    }

    /// Undoes `shrink`, without memory: adds parts up to what `members` members need, each with the slot that was freed last. So
    /// each part has its old slot.
    pub fn grow_back(&mut self, list: u32, members: usize)
        requires free { (blocks_at members levels.First - count_of list levels.First self.old)
            + (blocks_at members levels.Second - count_of list levels.Second self.old) ≤ length (slots_in FREE self.old) }
        requires room { (level : Level) → blocks_at members level ≤ count_of list level self.old + room_in (key_of list level) self.old }
        ensures count { (level : Level) → count_of list level self.new ≡ max (count_of list level self.old) (blocks_at members level) }
        ensures gone { HaveGone list (blocks_at members levels.First - count_of list levels.First self.old)
            (blocks_at members levels.Second - count_of list levels.Second self.old) self.new self.old }
        ensures room { KeepsRoom self.old self.new }
        ensures size { size_of self.new ≡ size_of self.old }
        ensures others { KeepsOthers list self.old self.new }
        ensures kept { KeepsParts self.old self.new }
    {
        self.regain(list, Level::Second, blocks_at(members, Level::Second));
        self.regain(list, Level::First, blocks_at(members, Level::First));
    }

    /// Removes the last part of a list on a level; its slot goes to the end of the free list. It needs no memory.
    pub fn go(&mut self, list: u32, level: Level)
        requires { 0 < count_of list level self.old }
        ensures { Moved (key_of list level) FREE self.old self.new }
    {
        // Brings the invariant into sight: the free list has room.
        let _ = &self.lists;
        self.move_last(key_of(list, level), FREE);
    }

    /// Appends a part to a list on a level, with the slot that was freed last. It needs no memory where a part was removed before.
    pub fn go_back(&mut self, list: u32, level: Level)
        requires free { 0 < length (slots_in FREE self.old) }
        requires room { 0 < room_in (key_of list level) self.old }
        ensures { Moved FREE (key_of list level) self.old self.new }
    {
        self.move_last(FREE, key_of(list, level));
    }

    /// Appends a part to a list on a level, with the slot freed last or a new one. `NoMemory` leaves all parts as they were.
    pub fn come(&mut self, alloc: Global, list: u32, level: Level) -> Result<(), NoMemory>
        ensures ok { OnOk result (Came list level self.old self.new) }
        ensures err { OnErr result (AreSame self.old self.new) }
    {
        self.reserve(alloc, key_of(list, level))?;
        if self.is_full() {
            self.make(alloc)?;
        }
        self.go_back(list, level);
        Ok(())
    }

    // Appends parts on both levels until there is one for each Block of `members` members.
    fn add_both(&mut self, alloc: Global, list: u32, members: usize) -> Result<(), NoMemory>
        ensures ok { OnOk result ((level : Level)
            → count_of list level self.new ≡ max (count_of list level self.old) (blocks_at members level)) }
        ensures others { KeepsOthers list self.old self.new }
        ensures kept { KeepsParts self.old self.new }
    {
        self.add(alloc, list, Level::First, blocks_at(members, Level::First))?;
        self.add(
            alloc,
            list,
            Level::Second,
            blocks_at(members, Level::Second),
        )
    }

    // Appends parts on a level until there are `many`.
    fn add(&mut self, alloc: Global, list: u32, level: Level, many: usize) -> Result<(), NoMemory>
        ensures ok { OnOk result (count_of list level self.new ≡ max (count_of list level self.old) many) }
        ensures front { IsFront (key_of list level) self.old self.new }
    {
        let more = many.saturating_sub(self.count(list, level));
        for _ in 0..more {
            self.come(alloc, list, level)?;
        }
        Ok(())
    }

    // Appends parts on a level from freed slots until there are `many`.
    fn regain(&mut self, list: u32, level: Level, many: usize)
        requires free { many - count_of list level self.old ≤ length (slots_in FREE self.old) }
        requires room { many ≤ count_of list level self.old + room_in (key_of list level) self.old }
        ensures count { count_of list level self.new ≡ max (count_of list level self.old) many }
        ensures front { IsFront (key_of list level) self.old self.new }
        ensures gone { Freed (key_of list level) (many - count_of list level self.old) self.new self.old }
        ensures room { KeepsRoom self.old self.new }
        ensures size { size_of self.new ≡ size_of self.old }
    {
        let more = many.saturating_sub(self.count(list, level));
        for _ in 0..more {
            self.go_back(list, level);
        }
    }

    // Removes the last parts on a level until at most `many` are left.
    fn cut(&mut self, list: u32, level: Level, many: usize)
        ensures count { count_of list level self.new ≡ min (count_of list level self.old) many }
        ensures front { IsFront (key_of list level) self.new self.old }
        ensures gone { Freed (key_of list level) (count_of list level self.old - many) self.old self.new }
        ensures room { KeepsRoom self.old self.new }
        ensures size { size_of self.new ≡ size_of self.old }
    {
        let fewer = self.count(list, level).saturating_sub(many);
        for _ in 0..fewer {
            self.go(list, level);
        }
    }

    // Whether no slot is free.
    fn is_full(&self) -> bool
        ensures { result ≡ nat_eq (length (slots_in FREE self.now)) 0 }
    {
        self.lists.at(FREE).is_empty()
    }

    // Makes room for one further slot in a list.
    fn reserve(&mut self, alloc: Global, key: usize) -> Result<(), NoMemory>
        ensures ok { OnOk result (0 < room_in key self.new) }
        ensures same { AreSame self.old self.new }
    {
        self.lists.make_room(alloc, key, 1)
    }

    // Makes one new slot, which is free, and room in the free list for all slots.
    fn make(&mut self, alloc: Global) -> Result<(), NoMemory>
        requires { slots_in FREE self.old ≡ [] }
        ensures ok { OnOk result (Made self.old self.new) }
        ensures err { OnErr result (AreSame self.old self.new) }
    {
        let slot = self.len();
        if slot == u32::MAX {
            return Err(NoMemory);
        }
        self.owner.reserve(1)?;
        self.lists.make_room(alloc, FREE, slot as usize + 1)?;
        self.owner.push_reserved(Owner { list: 0, index: 0 });
        self.lists.put_last(FREE, slot);
        Ok(())
    }

    // Pops the last slot of a list and pushes it to another.
    fn move_last(&mut self, from: usize, to: usize)
        requires apart { from ≢ to }
        requires some { 0 < length (slots_in from self.old) }
        requires room { 0 < room_in to self.old }
        ensures { Moved from to self.old self.new }
    {
        let slot = self.lists.take_last(from);
        let index = self.lists.put_last(to, slot);
        set_owner(
            &mut self.owner,
            slot,
            Owner {
                list: to as u32,
                index,
            },
        );
    }
}

/// The key of the slots of a list's parts on a level.
fn key_of(list: u32, level: Level) -> usize
    ensures { result ≡ key_of list level }
{
    match level {
        Level::First => 2 * list as usize + 1,
        Level::Second => 2 * list as usize + 2,
    }
}

/// The part that an owner entry names; `None` if it is of the free list.
fn part_of(owner: &Owner) -> Option<Part>
    ensures { result ≡ part_of owner.now }
{
    let key = owner.list.checked_sub(1)?;
    let level = if key.is_multiple_of(2) {
        Level::First
    } else {
        Level::Second
    };
    Some(Part {
        list: key / 2,
        level,
        index: owner.index,
    })
}

/// Sets the owner entry of a slot.
fn set_owner(owners: &mut Vec<Owner>, slot: u32, owner: Owner)
    requires { slot < length owners.old.items }
    ensures { owners.new.items ≡ slice_set owners.old.items slot owner }
{
    owners[slot as usize] = owner;
}
