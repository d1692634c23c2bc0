//! One step of the rows that have ids, by a record.
ghost use Rattle.std.specs.Prelude.{◌≡◌, OnOk, OnErr};
ghost use Rattle.scr_figure_ids.specs.Steps.{CanTake, CanTakeBack, Takes, TakesBack};

use scr_ids::{Places, Table};
use std::alloc::AllocError as NoMemory;

/// A row is appended to a table, the row at an index is removed, or each stays where it is.
#[derive(Clone, Copy, PartialEq, Eq)]
pub enum Step {
    Stays,
    Comes(Table),
    Goes(Table, usize),
}

/// Takes the step. Only an appended row needs memory; `NoMemory` leaves all as it was.
pub fn follow(places: &mut Places, step: Step) -> Result<(), NoMemory>
    requires { CanTake step places.old }
    ensures ok { OnOk result (Takes step places.old places.new) }
    ensures err { OnErr result (places.new ≡ places.old) }
{
    match step {
        Step::Stays => Ok(()),
        Step::Comes(table) => places.come(table),
        Step::Goes(table, k) => {
            places.go(table, k);
            Ok(())
        }
    }
}

/// Undoes the step, without memory.
pub fn take_back(places: &mut Places, step: Step)
    requires { CanTakeBack step places.old }
    ensures { TakesBack step places.old places.new }
{
    match step {
        Step::Stays => (),
        Step::Comes(table) => places.retire(table),
        Step::Goes(table, k) => places.put_back(table, k),
    }
}
