//! What stood in a table under a name before a change, kept so that it can be put back without memory.
ghost use Rattle.std.specs.Prelude.{◌≡◌, IfOk};
ghost use Rattle.scr_tables.specs.Tables.{without};
ghost use Rattle.scr_tables.specs.Pasts.{restored, HasPlace, LeadsBack};

use crate::{Name, Room, Row, Rows};
use std::alloc::{AllocError as NoMemory, Global};

/// A value of which another can be made.
pub trait Copied: Drop {
    /// The same value once more.
    fn copied(&self, alloc: Global) -> Result<Self, NoMemory>
        ensures { IfOk result (λ copy. copy ≡ self.now) };
}

/// What stood in a table under a name.
#[derive(Drop)]
pub enum Past<R: Row> {
    /// Nothing: a row of this name was made since.
    New(Name),
    /// This row, which was replaced.
    Replaced(R),
    /// This row at this place, from which it was taken out; its room is kept.
    Dropped { place: usize, row: R, room: Room<R> },
}

impl<R: Row> Rows<R> {
    /// Puts back what stood in the table, without memory.
    pub fn put_back(&mut self, past: Past<R>)
        requires { HasPlace R.name_of past self.old }
        ensures { self.new ≡ restored R.name_of past self.old }
    {
        match past {
            Past::New(name) => self.remove(&name),
            Past::Replaced(row) => self.insert(row).unwrap(),
            Past::Dropped { place, row, room } => self.put_at(place, row, room),
        }
    }
}

impl<R: Row + Copied> Rows<R> {
    /// What stands under this name, kept before a row of the name is made or changed.
    pub fn before_put(&self, alloc: Global, name: &Name) -> Result<Past<R>, NoMemory>
        ensures { IfOk result (λ past. LeadsBack R.name_of name.now past self.now) }
    {
        match self.get(name) {
            Some(row) => Ok(Past::Replaced(row.copied(alloc)?)),
            None => Ok(Past::New(*name)),
        }
    }

    /// What stands under this name, kept before the row is taken out.
    pub fn before_remove(&self, alloc: Global, name: &Name) -> Result<Past<R>, NoMemory>
        ensures back { IfOk result (λ past.
            restored R.name_of past (without R.name_of name.now self.now) ≡ self.now) }
        ensures place { IfOk result (λ past. HasPlace R.name_of past (without R.name_of name.now self.now)) }
    {
        let Some(place) = self.place(name) else {
            return Ok(Past::New(*name));
        };
        let row = self.at(place).copied(alloc)?;
        let room = Room::new(alloc, self.len())?;
        Ok(Past::Dropped { place, row, room })
    }
}
