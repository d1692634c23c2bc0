//! Adds and removes the parts of lists with their members.
ghost use Rattle.std.specs.Prelude.{◌≡◌, ◌≤◌, ℕ, OnErr, OnOk};
ghost use Rattle.scr_sum_tree.specs.declared.blocks.Level.{Level as TheLevel};
ghost use Rattle.scr_ids.specs.Ranges.{count};
ghost use Rattle.scr_ids.specs.declared.table.Table.TheVariants as ranged;
ghost use Rattle.scr_sum_slots.specs.Following.{AreSeatsOf};
ghost use Rattle.scr_sum_slots.specs.Moves.{KeepsOthers, KeepsParts, KeepsRoom};
ghost use Rattle.scr_sum_slots.specs.Parts.{Parted, count_of, size_of};
ghost use Rattle.scr_member_index.specs.Lists as spec;
ghost use Rattle.scr_member_index.specs.Parting.{AreCut, AreExtended, AreGrown, AreSameParts, AreSameSlots, CanRegain, CanRegainAll, HasLost, HasMoreParts, HaveLost, HavePartsAt, IsCut, IsGrown};

use crate::Move;
use crate::naming::list_in;
use scr_book::Table;
use scr_ids::{Places, Table as Ranged};
use scr_member_lists::{NOWHERE, SEATS, Seats};
use scr_sum_slots::{Firsts, Parts};
use std::alloc::{AllocError as NoMemory, Global};

/// Adds the parts that a list lacks for `members` members. `NoMemory` if memory is refused or the list's number is 2^31 or more;
/// its parts stay as they were.
pub(crate) fn grow(
    alloc: Global,
    parts: &mut Parts,
    table: Table,
    number: u32,
    members: usize,
) -> Result<(), NoMemory>
    ensures ok { OnOk result (IsGrown (spec.list_in table number) members parts.old parts.new) }
    ensures err { OnErr result ((level : TheLevel)
        → count_of (spec.list_in table number) level parts.new ≡ count_of (spec.list_in table number) level parts.old) }
    ensures others { KeepsOthers (spec.list_in table number) parts.old parts.new }
    ensures kept { KeepsParts parts.old parts.new }
{
    // Brings the invariant into sight: no list with a number of 2^31 or more has parts.
    let _slots = parts.len();
    match list_in(table, number) {
        Some(list) => parts.grow(alloc, list, members),
        None if members > 32 => Err(NoMemory),
        None => Ok(()),
    }
}

/// Adds the parts that the lists of a table lack for their members.
pub(crate) fn grow_all(
    alloc: Global,
    parts: &mut Parts,
    table: Table,
    firsts: &Firsts,
) -> Result<(), NoMemory>
    ensures { OnOk result (AreGrown table firsts.now parts.old parts.new) }
{
    let count = firsts.len();
    if count > u32::MAX as usize {
        return Err(NoMemory);
    }
    for number in 0..count as u32 {
        grow(alloc, parts, table, number, firsts.list(number).len())?;
    }
    Ok(())
}

/// Removes the parts that a list does not need for `members` members. It needs no memory.
pub(crate) fn shrink(parts: &mut Parts, table: Table, number: u32, members: usize)
    ensures cut { IsCut (spec.list_in table number) members parts.old parts.new }
    ensures others { KeepsOthers (spec.list_in table number) parts.old parts.new }
    ensures kept { KeepsParts parts.new parts.old }
    ensures room { KeepsRoom parts.old parts.new }
    ensures size { size_of parts.new ≡ size_of parts.old }
    ensures lost { HasLost (spec.list_in table number) parts.old parts.new }
{
    // Brings the invariant into sight: no list with a number of 2^31 or more has parts.
    let _slots = parts.len();
    if let Some(list) = list_in(table, number) {
        parts.shrink(list, members);
    }
}

/// Removes the parts that the lists of these seats do not need for their members. It needs no memory.
pub(crate) fn cut(parts: &mut Parts, table: Table, firsts: &Firsts, at: &Seats)
    requires { (seat_of : ℕ → ℕ) × AreSeatsOf seat_of at.now }
    ensures cut { AreCut table firsts.now at.now 11 parts.old parts.new }
    ensures kept { KeepsParts parts.new parts.old }
    ensures room { KeepsRoom parts.old parts.new }
    ensures size { size_of parts.new ≡ size_of parts.old }
    ensures lost { HaveLost table at.now 11 parts.old parts.new }
{
    for seat in 0..SEATS {
        let number = at.roll(seat);
        if number != NOWHERE {
            shrink(parts, table, number, firsts.list(number).len());
        }
    }
}

/// Adds the parts back that a list of `members` members had, each with its old slot. It needs no memory.
pub(crate) fn regain(parts: &mut Parts, table: Table, number: u32, members: usize)
    requires { (before : Parted) × CanRegain (spec.list_in table number) members before parts.old }
    ensures slots { (before : Parted) → CanRegain (spec.list_in table number) members before parts.old → AreSameSlots before parts.new }
    ensures room { KeepsRoom parts.old parts.new }
    ensures size { size_of parts.new ≡ size_of parts.old }
{
    // Brings the invariant into sight: no list with a number of 2^31 or more has parts.
    let _slots = parts.len();
    if let Some(list) = list_in(table, number) {
        parts.grow_back(list, members);
    }
}

/// Adds the parts back that the lists of these seats had, each with its old slot. It needs no memory.
pub(crate) fn regain_all(parts: &mut Parts, table: Table, firsts: &Firsts, at: &Seats)
    requires { (before : Parted) × CanRegainAll table firsts.now at.now before parts.old }
    ensures slots { (before : Parted) → CanRegainAll table firsts.now at.now before parts.old → AreSameSlots before parts.new }
    ensures room { KeepsRoom parts.old parts.new }
{
    for seat in (0..SEATS).rev() {
        let number = at.roll(seat);
        if number != NOWHERE {
            regain(parts, table, number, firsts.list(number).len());
        }
    }
}

/// Adds the parts for one further member to each list that the row joins. `NoMemory` leaves each list the parts that it had.
pub(crate) fn extend(
    alloc: Global,
    parts: &mut Parts,
    places: &mut Places,
    firsts: &Firsts,
    change: &Move,
) -> Result<(), NoMemory>
    requires parts { HavePartsAt change.now.table firsts.now parts.old }
    requires own { (seat_of : ℕ → ℕ) × AreSeatsOf seat_of change.now.after }
    ensures ok { OnOk result (AreExtended change.now.table firsts.now change.now.before change.now.after 11 parts.old parts.new) }
    ensures rows { OnOk result (size_of parts.new ≤ count places.new ranged.Part) }
    ensures kept { KeepsParts parts.old parts.new }
    ensures err { OnErr result (AreSameParts parts.old parts.new) }
    ensures more { HasMoreParts places.old places.new }
{
    let extended = extend_all(alloc, parts, places, firsts, change);
    if extended.is_err() {
        cut(parts, change.table, firsts, &change.after);
    }
    extended
}

// Adds the parts seat by seat, and then rows of ids for new slots.
fn extend_all(
    alloc: Global,
    parts: &mut Parts,
    places: &mut Places,
    firsts: &Firsts,
    change: &Move,
) -> Result<(), NoMemory>
    requires { (seat_of : ℕ → ℕ) × AreSeatsOf seat_of change.now.after }
    ensures ok { OnOk result (AreExtended change.now.table firsts.now change.now.before change.now.after 11 parts.old parts.new) }
    ensures rows { OnOk result (size_of parts.new ≤ count places.new ranged.Part) }
    ensures part { (seats : ℕ) × (seats ≤ 11) × AreExtended change.now.table firsts.now change.now.before change.now.after seats parts.old parts.new }
    ensures kept { KeepsParts parts.old parts.new }
    ensures more { HasMoreParts places.old places.new }
{
    for seat in 0..SEATS {
        let number = change.after.roll(seat);
        if number != NOWHERE && number != change.before.roll(seat) {
            let members = firsts.list(number).len() + 1;
            grow(alloc, parts, change.table, number, members)?;
        }
    }
    number_parts(parts, places)
}

/// Appends rows of ids until each slot has one.
pub(crate) fn number_parts(parts: &Parts, places: &mut Places) -> Result<(), NoMemory>
    ensures ok { OnOk result (size_of parts.now ≤ count places.new ranged.Part) }
    ensures more { HasMoreParts places.old places.new }
    ensures most { (bound : ℕ) → count places.old ranged.Part ≤ bound → size_of parts.now ≤ bound → count places.new ranged.Part ≤ bound }
{
    let rows = places.count(Ranged::Part);
    let more = (parts.len() as usize).saturating_sub(rows);
    for _ in 0..more {
        places.come(Ranged::Part)?;
    }
    Ok(())
}
