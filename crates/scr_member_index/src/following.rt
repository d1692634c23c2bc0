//! Keeps the index of member lists in step with the row of a record.
ghost use Rattle.std.specs.Prelude.{◌≡◌, ◌≤◌, OnErr, OnOk};
ghost use Rattle.scr_ids.specs.Ranges.{count};
ghost use Rattle.scr_ids.specs.declared.table.Table.TheVariants as ranged;
ghost use Rattle.scr_sum_slots.specs.Firsts.{FirstLists};
ghost use Rattle.scr_sum_slots.specs.Parts.{Parted, size_of};
ghost use Rattle.scr_member_index.specs.Following.{AreFollowed, AreStill, CanBeTakenBack, CanFollow, CanMove, CanTakeBack, HasMoved, IsStill};
ghost use Rattle.scr_member_index.specs.Parting.{HasMoreParts};
ghost use Rattle.scr_member_index.specs.declared.lists.Lists.{Lists as TheLists};

use crate::parting::{cut, extend, regain_all};
use crate::{Lists, Move};
use scr_book::Table;
use scr_ids::Places;
use scr_sum_slots::{Firsts, Parts};
use std::alloc::{AllocError as NoMemory, Global};

impl Lists {
    /// Moves the row's first id from its old lists to its new ones, and adds and removes parts with it. `NoMemory` leaves all as
    /// before, but for further rows of ids.
    pub fn follow(
        &mut self,
        alloc: Global,
        places: &mut Places,
        change: &Move,
    ) -> Result<(), NoMemory>
        requires { CanFollow change.now self.old }
        ensures ok { OnOk result (AreFollowed change.now self.old self.new) }
        ensures back { OnOk result (CanBeTakenBack change.now self.old self.new) }
        ensures rows { OnOk result (size_of self.new.parts ≤ count places.new ranged.Part) }
        ensures err { OnErr result (AreStill self.old self.new) }
        ensures more { HasMoreParts places.old places.new }
    {
        let parts = &mut self.parts;
        match change.table {
            Table::Security => follow(alloc, &mut self.securities, parts, places, change),
            Table::Liability => follow(alloc, &mut self.liabilities, parts, places, change),
            Table::Fund => follow(alloc, &mut self.funds, parts, places, change),
            Table::Group => follow(alloc, &mut self.groups, parts, places, change),
            Table::Bank | Table::Rein | Table::Curve => unreachable!(),
        }
    }

    /// Undoes `follow`, without memory: each part has its old slot again.
    pub fn take_back(&mut self, change: &Move)
        requires { (before : TheLists) × CanBeTakenBack change.now before self.old }
        ensures { (before : TheLists) → CanBeTakenBack change.now before self.old → AreStill before self.new }
    {
        let parts = &mut self.parts;
        match change.table {
            Table::Security => take_back(&mut self.securities, parts, change),
            Table::Liability => take_back(&mut self.liabilities, parts, change),
            Table::Fund => take_back(&mut self.funds, parts, change),
            Table::Group => take_back(&mut self.groups, parts, change),
            Table::Bank | Table::Rein | Table::Curve => unreachable!(),
        }
    }
}

// Moves the row's first id in the lists of its table, and adds and removes their parts.
fn follow(
    alloc: Global,
    firsts: &mut Firsts,
    parts: &mut Parts,
    places: &mut Places,
    change: &Move,
) -> Result<(), NoMemory>
    requires { CanMove change.now firsts.old parts.old }
    ensures ok { OnOk result (HasMoved change.now firsts.old firsts.new parts.old parts.new) }
    ensures back { OnOk result (CanTakeBack change.now firsts.old firsts.new parts.old parts.new) }
    ensures rows { OnOk result (size_of parts.new ≤ count places.new ranged.Part) }
    ensures err { OnErr result (IsStill firsts.old firsts.new parts.old parts.new) }
    ensures more { HasMoreParts places.old places.new }
{
    firsts.make_room(alloc, &change.after)?;
    extend(alloc, parts, places, firsts, change)?;
    firsts.follow(&change.before, &change.after, change.first);
    cut(parts, change.table, firsts, &change.before);
    Ok(())
}

// Undoes `follow` in the lists of the row's table.
fn take_back(firsts: &mut Firsts, parts: &mut Parts, change: &Move)
    requires { (was : FirstLists) × (old : Parted) × CanTakeBack change.now was firsts.old old parts.old }
    ensures { (was : FirstLists) (old : Parted) → CanTakeBack change.now was firsts.old old parts.old → IsStill was firsts.new old parts.new }
{
    firsts.follow(&change.after, &change.before, change.first);
    regain_all(parts, change.table, firsts, &change.before);
    cut(parts, change.table, firsts, &change.after);
}
