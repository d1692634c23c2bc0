//! What holds of books, whatever a program does.
ghost use Rattle.std.specs.Prelude.{◌≡◌, []};
ghost use Rattle.scr_sheet.specs.BalanceSheet.{euro};
ghost use Rattle.scr_sheet.specs.Records.{applied};
ghost use Rattle.scr_sheet.specs.Validity.{Valid};
ghost use Rattle.scr_sheet.specs.declared.edit.Edit.{Edit as Record};
ghost use Rattle.scr_sheet.specs.declared.roll.Roll.TheVariants as rolls;
ghost use Rattle.scr_sheet.specs.declared.rows.Class.TheVariants as classes;
ghost use Rattle.scr_book.specs.RolledSheets.{AreListsMoved, AreListsStill, AreRolled, AreStill, RolledSheet};
ghost use Rattle.scr_book.specs.Rolls.{AreRollsOf, KeepsNumbers};
ghost use Rattle.scr_book.specs.WorkedRolls.{members_after, thirds_dropped, thirds_left};

use crate::{Book, Edit, Undo};

/// Compiles only where threads may share a `T` and hand it on.
fn shared<T: Send + Sync>() {}

/// Threads may share a book, a record and what takes a record back, and hand them on.
pub fn sharing() {
    shared::<Book>();
    shared::<Edit>();
    shared::<Undo>();
}

/// Where each third of a hundred securities of one class is dropped, the last of the roll of the class, and so of that of the
/// currency, take the places of those that leave; all others stay at theirs. None has a group, and none is in the roll of those
/// that have one.
pub fn thirds()
    ensures class { members_after (rolls.Class classes.Property) thirds_dropped ≡ thirds_left }
    ensures currency { members_after (rolls.Assets euro) thirds_dropped ≡ thirds_left }
    ensures groups { members_after rolls.Grouped thirds_dropped ≡ [] }
{}

/// Where rolls keep their numbers, each list by its number, also one whose number no roll has yet, is moved by a record as the
/// rolls are, and is the same where they are.
pub fn lists()
    ensures moved { (edit : Record) (old new : RolledSheet) → Valid new.sheet → new.sheet ≡ applied edit old.sheet
        → AreRollsOf old.sheet old.rolls → AreRollsOf new.sheet new.rolls → AreRolled edit old new → KeepsNumbers old.rolls new.rolls
        → AreListsMoved edit old new }
    ensures still { (old new : RolledSheet) → AreRollsOf old.sheet old.rolls → AreRollsOf new.sheet new.rolls → AreStill old new
        → KeepsNumbers old.rolls new.rolls → AreListsStill old new }
{}
