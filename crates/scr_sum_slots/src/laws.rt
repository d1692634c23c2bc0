//! Laws of slots and of first ids, for proofs above to cite.
ghost use Rattle.std.specs.Prelude.{◌≡◌, ◌≢◌, ℕ, ◌<◌, ◌≤◌, List, Option, Some, length, map};
ghost use Rattle.scr_member_lists.specs.Members as members;
ghost use Rattle.scr_sum_slots.specs.Firsts.{back_at, joined, left};
ghost use Rattle.scr_sum_slots.specs.Parts.{AreOwn, FREE, Parted, part_at, slot_of, slots_in};
ghost use Rattle.scr_sum_slots.specs.Moves.{HaveGone, Moved};
ghost use Rattle.scr_sum_slots.specs.declared.parts.Part.{Part};

use crate::{Firsts, Part, Parts};

/// No two parts share a slot, and no part's slot is free.
pub fn apart()
    ensures own { (parts : Parted) → AreOwn parts → (one two : Part) (slot : ℕ) → slot_of one parts ≡ Some slot → slot_of two parts ≡ Some slot → one ≡ two }
    ensures free { (parts : Parted) → AreOwn parts → (part : Part) (slot : ℕ) → slot_of part parts ≡ Some slot → part_at slot parts ≢ Option.None }
{}

/// Moving a slot to another list and back leaves each list as it was.
pub fn moves_back()
    ensures { (from to : ℕ) (before between after : Parted) → Moved from to before between → Moved to from between after
        → (key : ℕ) → slots_in key after ≡ slots_in key before }
{}

/// Removing parts and adding the number removed on each level gives every part its old slot.
pub fn comes_back()
    ensures { (list firsts seconds : ℕ) (before now after : Parted) → HaveGone list firsts seconds before now → HaveGone list firsts seconds after now
        → (key : ℕ) → slots_in key after ≡ slots_in key before }
{}

/// First ids agree with a list's members after one is appended, swap-removed or set back, if they did before.
pub fn firsts()
    ensures came { (first : List ℕ → ℕ) (name : List ℕ) (roll : List (List ℕ))
        → map first (members.come name roll) ≡ joined (first name) (map first roll) }
    ensures left { (first : List ℕ → ℕ) (place : ℕ) (roll : List (List ℕ)) → place < length roll
        → map first (members.left place roll) ≡ left place (map first roll) }
    ensures back { (first : List ℕ → ℕ) (place : ℕ) (name : List ℕ) (roll : List (List ℕ)) → place ≤ length roll
        → map first (members.back_at place name roll) ≡ back_at place (first name) (map first roll) }
{}

/// Slots and first ids may be shared between threads and sent to them.
pub fn sharing() {
    shared::<Firsts>();
    shared::<Parts>();
    shared::<Part>();
}

// Compiles only where threads may share a `T` and hand it on.
fn shared<T: Send + Sync>() {}
