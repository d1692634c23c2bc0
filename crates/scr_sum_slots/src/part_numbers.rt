//! The ids of parts, which are the ids of their slots.
ghost use Rattle.std.specs.Prelude.{◌≡◌, ◌<◌, ℕ, IfSome, IsNone};
ghost use Rattle.scr_sum_slots.specs.PartNumbers.{PartAt};
ghost use Rattle.scr_sum_slots.specs.declared.parts.Part.{Part as ThePart};

use crate::{Part, Parts};
use scr_ids::{Places, Table};

impl Parts {
    /// The id of sum `place` (0 to 2) at tree node `part`; `None` if the list has no such part, or its slot has no ids.
    pub fn number(&self, places: &Places, part: &Part, place: u32) -> Option<u32>
        requires { place < 3 }
        ensures there { IfSome result (λ number. PartAt self.now places.now part.now place number) }
        ensures absent { IsNone result → (number : ℕ) → PartAt self.now places.now part.now place number → ⊥ }
    {
        let slot = self.slot(part)? as usize;
        if slot >= places.count(Table::Part) {
            return None;
        }
        Some(places.first(Table::Part, slot) + place)
    }

    /// The part whose id this is, and the sum (0 to 2) that the id stands for; `None` if it is no part's id.
    pub fn numbered(&self, places: &Places, number: u32) -> Option<(Part, u32)>
        ensures there { IfSome result (λ found. PartAt self.now places.now found.0 found.1 number) }
        ensures absent { IsNone result → (part : ThePart) (place : ℕ) → PartAt self.now places.now part place number → ⊥ }
    {
        // Brings the invariant of `places` into sight: no id is of two rows.
        let _numbers = places.len();
        let slots = self.len() as usize;
        let place = places.at(number)?;
        if place.table != Table::Part {
            return None;
        }
        if place.row >= slots {
            return None;
        }
        let part = self.part(place.row as u32)?;
        Some((part, place.family))
    }
}
