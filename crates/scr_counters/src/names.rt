//! How many rows use each name.
ghost use Rattle.std.specs.Prelude.{◌≡◌, ◌↔◌, ◌<◌, ◌+◌, ◌^◌, ℕ, true, IfSome};
ghost use Rattle.scr_counters.specs.Users.{users_under, uses, uses_one, uses_each, came, nothing, IsFresh, Moves, IsWritten, IsUnused};

use scr_tables::{Name, Row, Rows};
use std::alloc::{AllocError as NoMemory, Global};
use std::marker::Model;

/// A name, and how many rows use it.
#[derive(Drop)]
pub(crate) struct Used {
    name: Name,
    users: u32,
}

impl Row for Used {
    ghost use Rattle.scr_counters.specs.Users.{used_name};

    ghost name_of = { used_name };

    fn name(&self) -> Name {
        self.name
    }
}

/// How many rows use each name. A name that came stays. Where memory is refused the tally is lost: nothing is known of it until
/// the rows are counted anew, and until then nothing is counted. Contracts see whether it is lost, and each name with its number
/// of users.
#[derive(Drop)]
pub struct NameTally {
    used: Rows<Used>,
    is_lost: bool,
}

impl Model for NameTally {
    ghost use Rattle.scr_counters.specs.Users.{Tallied};

    ghost Value = { Tallied };

    ghost view = { λ tally. record { used = tally.used; is_lost = tally.is_lost } };
}

impl NameTally {
    /// No row was counted.
    pub fn new(alloc: Global) -> NameTally
        ensures { IsFresh result }
    {
        NameTally {
            used: Rows::new(alloc),
            is_lost: false,
        }
    }

    /// Counts a row that uses each of these names.
    pub fn add_each(&mut self, alloc: Global, names: &[(Name, i64)])
        ensures { Moves nothing (uses_each names.now) self.old self.new }
    {
        for (name, _) in names {
            self.add(alloc, Some(*name));
        }
    }

    /// Takes away a row that uses each of these names, without memory.
    pub fn take_each(&mut self, names: &[(Name, i64)])
        ensures { Moves (uses_each names.now) nothing self.old self.new }
    {
        for (name, _) in names {
            self.take(Some(*name));
        }
    }

    /// Counts a row again that uses each of these names, without memory.
    pub fn put_back_each(&mut self, names: &[(Name, i64)])
        ensures { Moves nothing (uses_each names.now) self.old self.new }
    {
        for (name, _) in names {
            self.put_back(Some(*name));
        }
    }

    /// Counts a row that uses this name, if it uses one.
    pub fn add(&mut self, alloc: Global, name: Option<Name>)
        ensures { Moves nothing (uses_one name) self.old self.new }
    {
        let Some(name) = name else {
            return;
        };
        if self.is_lost {
            return;
        }
        match self.users(&name).checked_add(1) {
            Some(users) => self.write(alloc, name, users),
            None => self.is_lost = true,
        }
    }

    /// Takes away a row that uses this name, if it uses one, without memory.
    pub fn take(&mut self, name: Option<Name>)
        ensures moves { Moves (uses_one name) nothing self.old self.new }
        ensures kept { IfSome name (λ own. 0 < users_under own self.old) → self.new.is_lost ≡ self.old.is_lost }
    {
        let Some(name) = name else {
            return;
        };
        if self.is_lost {
            return;
        }
        match self.users(&name).checked_sub(1) {
            Some(users) => self.rewrite(name, users),
            None => self.is_lost = true,
        }
    }

    /// Counts a row again that uses this name, if it uses one, without memory: the name came before.
    pub fn put_back(&mut self, name: Option<Name>)
        ensures moves { Moves nothing (uses_one name) self.old self.new }
        ensures kept { IfSome name (λ own. (came own self.old ≡ true) × (users_under own self.old + 1 < 2 ^ 32))
            → self.new.is_lost ≡ self.old.is_lost }
    {
        let Some(name) = name else {
            return;
        };
        if self.is_lost {
            return;
        }
        if !self.used.contains(&name) {
            self.is_lost = true;
            return;
        }
        match self.users(&name).checked_add(1) {
            Some(users) => self.rewrite(name, users),
            None => self.is_lost = true,
        }
    }

    /// The tally is not lost, and no row uses the name.
    pub fn is_unused(&self, name: &Name) -> bool
        ensures { result ≡ true ↔ IsUnused name.now self.now }
    {
        !self.is_lost && self.users(name) == 0
    }

    /// The tally is lost.
    pub fn is_lost(&self) -> bool
        ensures { result ≡ self.now.is_lost }
    {
        self.is_lost
    }

    /// From now on nothing is known of the tally.
    pub fn lose(&mut self)
        ensures { self.new.is_lost ≡ true }
    {
        self.is_lost = true;
    }

    // How many rows use this name.
    fn users(&self, name: &Name) -> u32
        ensures { result ≡ users_under name.now self.now }
    {
        match self.used.get(name) {
            Some(used) => used.users,
            None => 0,
        }
    }

    // Writes how many rows use a name, or loses the tally.
    fn write(&mut self, alloc: Global, name: Name, users: u32)
        ensures { IsWritten name users self.old self.new }
    {
        match self.used.put(alloc, Used { name, users }) {
            Ok(()) => (),
            Err(NoMemory) => self.is_lost = true,
        }
    }

    // Writes how many rows use a name that came before, without memory.
    fn rewrite(&mut self, name: Name, users: u32)
        requires { came name self.old ≡ true }
        ensures written { IsWritten name users self.old self.new }
        ensures kept { self.new.is_lost ≡ self.old.is_lost }
    {
        self.used.change(&name, |used| used.users = users);
    }
}
