//! Names of rows, and of currencies.
ghost use Rattle.std.specs.Prelude.{◌≡◌, ℕ, ◌≤◌, List, [], ◌∷◌, length, Some, None, IfSome, IsTrue};
ghost use Rattle.std.specs.Prelude.{if◌then◌else◌, nat_eq, refl};
ghost use Rattle.std.specs.Ordering.{nat_cmp};
ghost use Rattle.std.specs.Cmp.{on_equiv, on_total, on_po, on_per, partial_equiv_from_equiv};
ghost use Rattle.std.specs.Cmp.Lexicographic.{pointwise, slice_cmp, nat_list_eq_equiv, nat_list_cmp_total};
ghost use Rattle.std.specs.Cmp.Lexicographic.{texts_po, texts_ties};
ghost use Rattle.std.specs.Cmp.Rules.{hashing};
ghost use Rattle.std.proofs.Common.{rules};
ghost use Rattle.std.specs.List.{take_while};
ghost use Rattle.scr_tables.specs.Names.{is_name, is_name_byte, begins_name, leading_name, padded, same_name};

use std::cmp::Ordering;
use std::hash::{Hash, Hasher};
use std::marker::Model;
use std::simd::prelude::*;

/// The most bytes that a name has.
const MAX_LEN: usize = 32;

/// A name of at most 32 bytes, held in place and copied. Contracts see it as the list of its bytes.
#[derive(Clone, Copy, Debug)]
pub struct Name {
    cells: [u8; 32],
    // Of two bytes: a value of an odd size is copied in parts that overlap, and their reading waits for all writes.
    len: u16,
}

impl Model for Name {
    ghost use Rattle.std.specs.Prelude.{◌≡◌, ℕ, ◌-◌, ◌≤◌, List, length, take, drop, replicate};
    ghost use Rattle.scr_tables.specs.Names.{padded};

    ghost Value = { List ℕ };

    ghost view = { λ n. take n.len n.cells };

    ghost invariant = { λ n. (n.len ≤ 32)
        × (n.cells ≡ padded (take n.len n.cells)) × (length n.cells ≡ 32) };

    ghost inverse = { λ bytes. record { cells = padded bytes; len = length bytes } };
}

impl Name {
    /// The name that the text spells: 1 to 32 letters, digits, `_`, `.` and `-`, of which the first
    /// is a letter or a digit. None exactly where the text has another form.
    #[tactic(auto, using(crate::proofs::Leading::told_name, crate::proofs::Leading::told_otherwise, crate::proofs::Leading::told_long, crate::proofs::Leading::told_byte))]
    pub fn parse(text: &[u8]) -> Option<Name>
        ensures cases { result ≡ (if is_name text.now then Some text.now else None) }
        ensures formed { IfSome result (λ name. IsTrue (is_name name)) }
    {
        if !begins_name(text) || text.len() > MAX_LEN {
            return None;
        }
        // One pass tests the bytes and copies them.
        let (name, count) = Name::of_front(text);
        if count == text.len() {
            Some(name)
        } else {
            None
        }
    }

    /// The name that the bytes in front of a text spell, as many as a name may have and 32 at most, and how many they are. None
    /// where the text does not begin with a letter or a digit.
    #[tactic(auto, using(crate::proofs::Leading::found_name, crate::proofs::Leading::found_none))]
    #[inline(always)]
    pub fn leading(text: &[u8]) -> Option<(Name, usize)>
        ensures { result ≡ leading_name text.now }
    {
        let front = &text[..text.len().min(MAX_LEN)];
        if begins_name(front) {
            Some(Name::of_front(front))
        } else {
            None
        }
    }

    // The bytes of a name in front of a text of at most 32, and how many they are.
    fn of_front(text: &[u8]) -> (Name, usize)
        requires few { length text.now ≤ 32 }
        ensures name { result.0 ≡ take_while is_name_byte text.now }
        ensures count { result.1 ≡ length (take_while is_name_byte text.now) }
    {
        let mut cells = [0; 32];
        let mut count = 0;
        'bytes: while count < text.len() && is_name_byte(text[count]) {
            cells[count] = text[count];
            count += 1;
        }
        let len = count as u16;
        (Name { cells, len }, count)
    }

    /// The bytes of the name.
    pub fn as_bytes(&self) -> &[u8]
        ensures value { result.now ≡ self.now }
        ensures fits { length self.now ≤ 32 }
    {
        &self.cells[..usize::from(self.len)]
    }
}

// The text begins with a letter or a digit.
fn begins_name(text: &[u8]) -> bool
    ensures { result ≡ begins_name text.now }
{
    match text {
        [first, ..] => first.is_ascii_alphanumeric(),
        [] => false,
    }
}

fn is_name_byte(b: u8) -> bool
    ensures { result ≡ is_name_byte b }
{
    b.is_ascii_alphanumeric() || b == b'_' || b == b'.' || b == b'-'
}

impl PartialEq for Name {
    ghost eq = { same_name };

    ghost laws = { partial_equiv_from_equiv nat_list_eq_equiv };

    #[inline(always)]
    fn eq(&self, other: &Self) -> bool {
        // The bytes behind the end are 0, so all 32 are compared at once.
        self.len == other.len && are_same(&self.cells, &other.cells)
    }
}

// All places have the same bytes.
#[inline(always)]
fn are_same(cells: &[u8; 32], others: &[u8; 32]) -> bool
    ensures { result ≡ pointwise nat_eq cells.now others.now }
{
    let apart = u8x32::from_array(*cells).simd_ne(u8x32::from_array(*others));
    apart.to_bitmask() == 0
}

impl Eq for Name {
    ghost laws = { nat_list_eq_equiv };
}

impl PartialOrd for Name {
    ghost partial_cmp = { λ a b. Some (slice_cmp nat_cmp a b) };

    ghost laws = { texts_po };

    fn partial_cmp(&self, other: &Self) -> Option<Ordering> {
        Some(self.cmp(other))
    }
}

impl Ord for Name {
    ghost cmp = { slice_cmp nat_cmp };

    ghost total = { nat_list_cmp_total };

    ghost matches_partial_cmp = { λ a b. refl };

    ghost matches_eq = { texts_ties };

    fn cmp(&self, other: &Self) -> Ordering {
        self.as_bytes().cmp(other.as_bytes())
    }
}

impl Hash for Name {
    ghost hash_input = { λ name. padded name ∷ [] };

    ghost respects_eq = { Prim.search (hashing, rules) };

    fn hash<H: Hasher>(&self, state: &mut H) {
        // All 32 bytes in one write, which a hasher takes by words.
        state.write(&self.cells);
    }
}
