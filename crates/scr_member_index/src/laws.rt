//! Laws of the index of member lists, for proofs above to cite.
ghost use Rattle.std.specs.Prelude.{◌≡◌, map};
ghost use Rattle.scr_ids.specs.Ranges.{Numbered as Ranges};
ghost use Rattle.scr_sheet.specs.Members.{table_of};
ghost use Rattle.scr_sheet.specs.declared.roll.Roll.{Roll};
ghost use Rattle.scr_book.specs.RolledSheets.{RolledSheet};
ghost use Rattle.scr_book.specs.Rolls.{roll_of};
ghost use Rattle.scr_member_index.specs.Lists.{AreListsOf, first_of, members_of};
ghost use Rattle.scr_member_index.specs.declared.lists.Lists.{Lists};

/// Beside a list stand the first ids of its members' rows, position by position.
pub fn members()
    ensures { (book : RolledSheet) (places : Ranges) (lists : Lists) → AreListsOf book places lists → (roll : Roll)
        → members_of roll book.rolls lists ≡ map (first_of book.sheet places (table_of roll)) (roll_of roll book.rolls) }
{}
