//! A table of rows, each under its own name.
ghost use Rattle.std.specs.Prelude.{◌≡◌, ℕ, ◌<◌, ◌^◌, ◌↔◌, IsTrue, List, [], length, map};
ghost use Rattle.std.specs.Prelude.{slice_get, is_some, Some, IfSome, false, OnOk, OnErr};
ghost use Rattle.std.specs.Prelude.{MatchOption};
ghost use Rattle.std.specs.List.{IsDistinct};
ghost use Rattle.std.specs.Option.{option_copied, option_map};
ghost use Rattle.std.specs.Map.Iter.{deref, ShowsInOrder};
ghost use Rattle.std.specs.Fn.{FnOnceReturnsAtMut};
ghost use Rattle.scr_tables.specs.Names.{same_name};
ghost use Rattle.scr_tables.specs.Tables.{row_of, has_row, with_row, without};

use crate::Name;
use indexmap::IndexMap;
use indexmap::map::Values;
use std::alloc::{AllocError as NoMemory, Global};
use std::marker::Model;

/// What stands in a table under a name of its own.
pub trait Row: Drop {
    ghost name_of: { Self → List ℕ };

    /// The name of the row.
    fn name(&self) -> Name
        ensures { result ≡ name_of self.now };
}

/// The rows of a table, in the order in which their names first came. Contracts see the list of the
/// rows.
#[derive(Drop)]
pub struct Rows<R: Row> {
    pub(crate) map: IndexMap<Name, R>,
}

impl<R: Row> Model for Rows<R> {
    ghost use Rattle.std.specs.Prelude.{◌≡◌, List};
    ghost use Rattle.std.specs.HashMap.{values};
    ghost use Rattle.scr_tables.specs.ByName.{by_name};

    ghost Value = { List R };

    ghost view = { λ rows. values rows.map };

    ghost invariant = { λ rows. rows.map.entries ≡ by_name R.name_of (values rows.map) };
}

impl<R: Row> Rows<R> {
    /// A table in which there is nothing.
    pub fn new(alloc: Global) -> Rows<R>
        ensures { result ≡ [] }
    {
        Rows {
            map: IndexMap::new(alloc),
        }
    }

    /// The number of rows, of which no two have one name.
    pub fn len(&self) -> usize
        ensures count { result ≡ length self.now }
        ensures apart { IsDistinct same_name (map R.name_of self.now) }
    {
        self.map.len()
    }

    /// There is no row.
    pub fn is_empty(&self) -> bool
        ensures { IsTrue result ↔ (length self.now ≡ 0) }
    {
        self.map.is_empty()
    }

    /// There is a row of this name.
    pub fn contains(&self, name: &Name) -> bool
        ensures { result ≡ has_row R.name_of name.now self.now }
    {
        // A table in which there is nothing is not worth a name's hash.
        if self.map.is_empty() {
            return false;
        }
        self.map.contains_key(name)
    }

    /// The row of this name.
    pub fn get(&self, name: &Name) -> Option<&R>
        ensures { option_copied result ≡ row_of R.name_of name.now self.now }
    {
        if self.map.is_empty() {
            return None;
        }
        self.map.get(name)
    }

    /// The place of the row of this name.
    pub fn place(&self, name: &Name) -> Option<usize>
        ensures there { is_some result ≡ has_row R.name_of name.now self.now }
        ensures place { IfSome result
            (λ k. option_map R.name_of (slice_get self.now k) ≡ Some name.now) }
    {
        self.map.get_index_of(name)
    }

    /// The row at place `k`.
    pub fn at(&self, k: usize) -> &R
        requires { k < length self.now }
        ensures { slice_get self.now k ≡ Some result.now }
    {
        &self.map[k]
    }

    /// The row takes the place of the one of its name, and one of a new name goes last. Memory is
    /// taken for a new name alone.
    pub fn put(&mut self, alloc: Global, row: R) -> Result<(), NoMemory>
        ensures ok { OnOk result (self.new ≡ with_row R.name_of row self.old) }
        ensures err { OnErr result (self.new ≡ self.old) }
        ensures new_name { OnErr result (has_row R.name_of (R.name_of row) self.old ≡ false) }
    {
        // The table grows by its own allocator.
        let _ = alloc;
        self.insert(row)
    }

    /// As `put`, for a caller that knows the name: no memory is then taken.
    pub(crate) fn insert(&mut self, row: R) -> Result<(), NoMemory>
        ensures ok { OnOk result (self.new ≡ with_row R.name_of row self.old) }
        ensures err { OnErr result (self.new ≡ self.old) }
        ensures new_name { OnErr result (has_row R.name_of (R.name_of row) self.old ≡ false) }
    {
        let name = row.name();
        self.map.insert(name, row)?;
        Ok(())
    }

    /// Takes out the row of this name.
    pub fn remove(&mut self, name: &Name)
        ensures { self.new ≡ without R.name_of name.now self.old }
    {
        self.map.shift_remove(name);
    }

    /// The rows in order.
    pub fn iter(&self) -> Values<'_, Name, R>
        ensures rest { result ≡ self.now }
        ensures runs { ShowsInOrder (deref {X = R}) }
        ensures fits { length self.now < 2 ^ 63 }
    {
        self.map.values()
    }

    /// Changes the row of this name in its place, where there is one. The change must leave the row
    /// its name.
    pub fn change<F: FnOnce(&mut R)>(&mut self, name: &Name, change: F)
        requires callable { F.IsAlwaysCallable change }
        requires named { (old new : R) → FnOnceReturnsAtMut F.FnOnce change old tt new
            → R.name_of new ≡ R.name_of old }
        ensures { MatchOption (row_of R.name_of name.now self.old) (self.new ≡ self.old)
            (λ old. (new : R) × FnOnceReturnsAtMut F.FnOnce change old tt new
            × (self.new ≡ with_row R.name_of new self.old)) }
    {
        if self.map.is_empty() {
            return;
        }
        let Some(row) = self.map.get_mut(name) else {
            return;
        };
        change(row);
    }
}
