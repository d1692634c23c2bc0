//! Laws of member lists, for proofs above to cite.
ghost use Rattle.std.specs.Prelude.{◌≡◌, ℕ, ◌<◌, ◌≤◌, ◌==◌, ◌++◌, ◌∷◌, [], Bool, List, Option, Some, false, if◌then◌else◌, insert, is_some, length, map, remove, slice_get, true};
ghost use Rattle.std.specs.List.{IsDistinct};
ghost use Rattle.std.specs.Option.{option_map};
ghost use Rattle.scr_tables.specs.Names.{same_name};
ghost use Rattle.scr_tables.specs.Tables.{has_row, with_row, without};
ghost use Rattle.scr_member_lists.specs.Members.{has, name_at, come, left, back_at, moved, returned};
ghost use Rattle.scr_member_lists.specs.Seatings.{NOWHERE, AreSeated, CanReturn, KeepsRoom, KeepsSeats, Seated, free, names_of, roll_in, seat_at, seat_of, stood};
ghost use Rattle.scr_member_lists.specs.declared.seating.Numbered.{Numbered};
ghost use Rattle.scr_member_lists.specs.declared.seats.Seats.{Seats};

use crate::{Owners, Seating};

/// Appending and then removing the last gives the list back. So does swap-removing at a position and undoing it.
pub fn moves_back()
    ensures came { (name : List ℕ) (roll : List (List ℕ)) → left (length roll) (come name roll) ≡ roll }
    ensures left { (place : ℕ) (roll : List (List ℕ)) → place < length roll
        → back_at place (name_at place roll) (left place roll) ≡ roll }
{}

/// The members of a list without doubles, after a name joined or left, or was set back to where it was.
pub fn members()
    ensures moved { (name other : List ℕ) (is : Bool) (roll : List (List ℕ)) → IsDistinct same_name roll
        → has other (moved name (has name roll) is roll) ≡ (if same_name name other then is else has other roll) }
    ensures returned { (name other : List ℕ) (before : Option ℕ) (roll : List (List ℕ)) → IsDistinct same_name roll
        → ((place : ℕ) → before ≡ Some place → has name roll ≡ false → place ≤ length roll)
        → has other (returned name before roll) ≡ (if same_name name other then is_some before else has other roll) }
{}

/// Lists and seats still agree after the table changes by one row. A row replaces the one of its name; a new row gets free seats;
/// a row in no list goes with its seats; a removed row is inserted with free seats.
pub fn tables<R>()
    ensures replaced { (name_of : R → List ℕ) (row : R) (rows : List R) (seated : Seated) → AreSeated (map name_of rows) seated
        → has_row name_of (name_of row) rows ≡ true → AreSeated (map name_of (with_row name_of row rows)) seated }
    ensures entered { (name_of : R → List ℕ) (row : R) (rows : List R) (old new : Seated) → AreSeated (map name_of rows) old
        → has_row name_of (name_of row) rows ≡ false → new.rolls ≡ old.rolls → new.seats ≡ old.seats ++ free ∷ []
        → AreSeated (map name_of (with_row name_of row rows)) new }
    ensures gone { (name_of : R → List ℕ) (name : List ℕ) (place : ℕ) (rows : List R) (old new : Seated) → AreSeated (map name_of rows) old
        → IsDistinct same_name (map name_of rows) → option_map name_of (slice_get rows place) ≡ Some name
        → ((seat : ℕ) → roll_in seat (seat_at place old.seats) ≡ NOWHERE) → new.rolls ≡ old.rolls → new.seats ≡ remove old.seats place
        → AreSeated (map name_of (without name_of name rows)) new }
    ensures rejoined { (name_of : R → List ℕ) (row : R) (place : ℕ) (rows : List R) (old new : Seated) → AreSeated (map name_of rows) old
        → has_row name_of (name_of row) rows ≡ false → place ≤ length rows → new.rolls ≡ old.rolls → new.seats ≡ insert old.seats place free
        → AreSeated (map name_of (insert rows place row)) new }
{}

/// Setting a row back by its earlier seats undoes its own moves, if no other name moved since. It needs no memory.
pub fn returns()
    ensures names { (names : List (List ℕ)) (old : Seated) (place : ℕ) → AreSeated names old → IsDistinct same_name names → place < length names
        → (number : ℕ) → number < length old.rolls → (is : Bool)
        → returned (name_at place names) (stood (seat_of number old.rolls) number (seat_at place old.seats))
        (moved (name_at place names) (has (name_at place names) (names_of number old.rolls)) is (names_of number old.rolls))
        ≡ names_of number old.rolls }
    ensures can { (names : List (List ℕ)) (old : Seated) (place : ℕ) → AreSeated names old → IsDistinct same_name names → place < length names
        → (rolls : List Numbered) → KeepsSeats old.rolls rolls → KeepsRoom old.rolls rolls
        → (now : Seats) → ((number : ℕ) → number < length old.rolls → names_of number rolls
        ≡ moved (name_at place names) (has (name_at place names) (names_of number old.rolls)) (roll_in (seat_of number old.rolls) now == number)
        (names_of number old.rolls))
        → (seat : ℕ) → CanReturn rolls now (seat_at place old.seats) seat }
    ensures never { (names : List (List ℕ)) (old : Seated) (name : List ℕ) → AreSeated names old → has name names ≡ false
        → (number : ℕ) → has name (names_of number old.rolls) ≡ false }
    ensures one { (names : List (List ℕ)) (old : Seated) (place : ℕ) → AreSeated names old → IsDistinct same_name names → place < length names
        → (number : ℕ) → number < length old.rolls
        → has (name_at place names) (names_of number old.rolls) ≡ (roll_in (seat_of number old.rolls) (seat_at place old.seats) == number) }
{}

/// Member lists and owners may be shared between threads and sent to them.
pub fn sharing() {
    shared::<Seating<1>>();
    shared::<Owners>();
}

// Compiles only where threads may share a `T` and hand it on.
fn shared<T: Send + Sync>() {}
