//! Room for a table with a row more, taken before it is needed.
ghost use Rattle.std.specs.Prelude.{◌≡◌, ◌<◌, ◌≤◌, length, false, insert, IfOk};
ghost use Rattle.std.specs.HashMap.{values};
ghost use Rattle.indexmap.specs.IndexMap.{spare, index_map_len};
ghost use Rattle.scr_tables.specs.ByName.{by_name};
ghost use Rattle.scr_tables.specs.Tables.{has_row};

use crate::{Name, Row, Rows};
use indexmap::IndexMap;
use std::alloc::{AllocError as NoMemory, Global};
use std::marker::Model;

/// Memory for a table, in which nothing stands yet. Contracts see the number of rows for which there is room.
#[derive(Drop)]
pub struct Room<R: Row> {
    map: IndexMap<Name, R>,
}

impl<R: Row> Model for Room<R> {
    ghost use Rattle.std.specs.Prelude.{ℕ};
    ghost use Rattle.indexmap.specs.IndexMap.{spare, IsEmpty};

    ghost Value = { ℕ };

    ghost view = { λ room. spare room.map };

    ghost invariant = { λ room. IsEmpty room.map };
}

impl<R: Row> Room<R> {
    /// Room for so many rows.
    pub fn new(alloc: Global, rows: usize) -> Result<Room<R>, NoMemory>
        ensures { IfOk result (λ room. rows ≤ room) }
    {
        Ok(Room {
            map: IndexMap::with_capacity(alloc, rows)?,
        })
    }
}

impl<R: Row> Rows<R> {
    /// Puts a row of a new name in at place `k`, without memory: where the table itself has no room for it, the rows move into the
    /// one that was kept.
    pub fn put_at(&mut self, k: usize, row: R, room: Room<R>)
        requires place { k ≤ length self.old }
        requires new_name { has_row R.name_of (R.name_of row) self.old ≡ false }
        requires fits { length self.old < room }
        ensures { self.new ≡ insert self.old k row }
    {
        make_room(&mut self.map, room);
        self.map.shift_insert(k, row.name(), row).unwrap();
    }
}

// Room for an entry more: the map has it, or its entries move into what was kept.
fn make_room<R: Row>(map: &mut IndexMap<Name, R>, room: Room<R>)
    requires fits { index_map_len map.old < room }
    requires named { map.old.entries ≡ by_name R.name_of (values map.old) }
    ensures entries { map.new.entries ≡ map.old.entries }
    ensures spare { 0 < spare map.new }
{
    if map.len() == map.capacity() {
        let Room { map: mut kept } = room;
        kept.append(map).unwrap();
        *map = kept;
    }
}
