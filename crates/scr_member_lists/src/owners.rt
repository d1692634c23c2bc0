//! First list numbers of owners, which are groups and currencies.
ghost use Rattle.std.specs.Prelude.{◌≡◌, [], Some, OnOk, OnErr};
ghost use Rattle.scr_member_lists.specs.Owned.{Gives, number_of};

use indexmap::IndexMap;
use scr_tables::Name;
use std::alloc::{AllocError as NoMemory, Global};
use std::marker::Model;

/// The first number of the member lists of each owner that has any, by name. An owner keeps its number for good.
#[derive(Drop)]
pub struct Owners {
    numbers: IndexMap<Name, u32>,
}

impl Model for Owners {
    ghost use Rattle.scr_member_lists.specs.Owned.{Owned};

    ghost Value = { Owned };

    ghost view = { λ owners. record {
      numbers = owners.numbers.entries;
    } };
}

impl Owners {
    /// An empty map: no owner has a list.
    pub fn new(alloc: Global) -> Owners
        ensures { result.numbers ≡ [] }
    {
        Owners {
            numbers: IndexMap::new(alloc),
        }
    }

    /// The first number of the owner's lists; `None` if it owns none.
    pub fn number(&self, owner: &Name) -> Option<u32>
        ensures { result ≡ number_of owner.now self.now }
    {
        self.numbers.get(owner).copied()
    }

    /// Sets the first number of the owner's lists; `NoMemory` if the map can't grow, and it stays as it was.
    pub fn put(&mut self, _alloc: Global, owner: Name, number: u32) -> Result<(), NoMemory>
        ensures ok { OnOk result (Gives owner (Some number) self.old self.new) }
        ensures err { OnErr result (self.new.numbers ≡ self.old.numbers) }
    {
        self.numbers.insert(owner, number)?;
        Ok(())
    }
}
