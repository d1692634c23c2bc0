//! The index of member lists.
ghost use Rattle.std.specs.Prelude.{◌≡◌};
ghost use Rattle.scr_member_index.specs.Lists.{firsts_at, members_of};

use scr_book::{Book, Roll, Table};
use scr_sum_slots::{Firsts, Parts};

/// Beside each member list of a table the first ids of its members' rows, by position; and a slot for each part of each list.
#[derive(Drop)]
pub struct Lists {
    pub(crate) securities: Firsts,
    pub(crate) liabilities: Firsts,
    pub(crate) funds: Firsts,
    pub(crate) groups: Firsts,
    pub(crate) parts: Parts,
}

impl Lists {
    /// The first ids beside the lists of a table.
    pub fn of(&self, table: Table) -> &Firsts
        ensures { result.now ≡ firsts_at table self.now }
    {
        match table {
            Table::Security => &self.securities,
            Table::Liability => &self.liabilities,
            Table::Fund => &self.funds,
            Table::Group | Table::Bank | Table::Rein | Table::Curve => &self.groups,
        }
    }

    /// The parts of all lists and their slots.
    pub fn parts(&self) -> &Parts
        ensures { result.now ≡ self.now.parts }
    {
        &self.parts
    }

    /// The first ids of a list's members, in the order of their positions; empty if the list has no number.
    pub fn members(&self, book: &Book, roll: Roll) -> &[u32]
        ensures { result.now ≡ members_of roll book.now.rolls self.now }
    {
        match book.roll_number(roll) {
            Some(number) => self.of(roll.table()).list(number),
            None => &[],
        }
    }
}
