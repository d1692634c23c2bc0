//! One member list, without an index of where each name is.
ghost use Rattle.std.specs.Prelude.{◌≡◌, ◌+◌, ◌<◌, ◌≤◌, [], length, OnOk};
ghost use Rattle.scr_member_lists.specs.Members.{come, left, back_at};
ghost use Rattle.scr_member_lists.specs.Rosters.{MOST, drawn_in, drawn_out};

use scr_tables::Name;
use std::alloc::{AllocError as NoMemory, Global};
use std::marker::Model;

/// The largest number of members of a list.
const MOST: usize = u32::MAX as usize;

/// The members of one list in the order of their positions. Contracts see the names, and how many further members fit without new
/// memory.
#[derive(Drop)]
pub(crate) struct Roster {
    names: Vec<Name>,
}

impl Model for Roster {
    ghost use Rattle.std.specs.Prelude.{◌≤◌, ◌-◌, length, min};
    ghost use Rattle.std.specs.Vec.{vec_capacity};
    ghost use Rattle.scr_member_lists.specs.Members.{MemberList};
    ghost use Rattle.scr_member_lists.specs.Rosters.{MOST};

    ghost Value = { MemberList };

    ghost view = { λ roster. record {
      names = roster.names.items;
      room = min (vec_capacity roster.names) MOST - length roster.names.items;
    } };

    ghost invariant = { λ roster. length roster.names.items ≤ MOST };
}

impl Roster {
    /// A list without members.
    pub(crate) fn new(alloc: Global) -> Roster
        ensures { result.names ≡ [] }
    {
        Roster {
            names: Vec::new(alloc),
        }
    }

    /// The members in the order of their positions.
    pub(crate) fn as_slice(&self) -> &[Name]
        ensures { result.now ≡ self.now.names }
    {
        self.names.as_slice()
    }

    /// The number of members.
    pub(crate) fn len(&self) -> u32
        ensures { result ≡ length self.now.names }
    {
        self.names.len() as u32
    }

    /// Makes room for one further member; `NoMemory` if there is none or the list is full. The members stay in either case.
    pub(crate) fn reserve(&mut self, _alloc: Global) -> Result<(), NoMemory>
        ensures ok { OnOk result (0 < self.new.room) }
        ensures names { self.new.names ≡ self.old.names }
        ensures room { self.old.room ≤ self.new.room }
    {
        if self.names.len() >= MOST {
            return Err(NoMemory);
        }
        self.names.try_reserve(1)
    }

    /// Appends a name and returns its position. It uses reserved room, so it can't fail.
    pub(crate) fn come(&mut self, name: Name) -> u32
        requires { 0 < self.old.room }
        ensures place { result ≡ length self.old.names }
        ensures names { self.new.names ≡ come name self.old.names }
        ensures room { self.old.room ≤ self.new.room + 1 }
    {
        let place = self.names.len() as u32;
        self.names.push_reserved(name);
        place
    }

    /// Swap-removes the member at a position. Returns the member that took the position; `None` if the last was removed. Room
    /// grows by one.
    pub(crate) fn leave(&mut self, place: u32) -> Option<Name>
        requires { place < length self.old.names }
        ensures names { self.new.names ≡ left place self.old.names }
        ensures drawn { result ≡ drawn_in place self.old.names }
        ensures room { self.old.room + 1 ≤ self.new.room }
    {
        self.names.swap_remove(place as usize);
        self.names.as_slice().get(place as usize).copied()
    }

    /// Undoes a swap-removal: the name has its position again. Returns the member that goes to the end for it; `None` if the
    /// position is the end. It uses reserved room, so it can't fail.
    pub(crate) fn put_back(&mut self, place: u32, name: Name) -> Option<Name>
        requires place { place ≤ length self.old.names }
        requires room { 0 < self.old.room }
        ensures names { self.new.names ≡ back_at place name self.old.names }
        ensures drawn { result ≡ drawn_out place self.old.names }
        ensures room { self.old.room ≤ self.new.room + 1 }
    {
        let last = self.names.len();
        let drawn = self.names.as_slice().get(place as usize).copied();
        self.names.push_reserved(name);
        self.names.swap(place as usize, last);
        drawn
    }
}
