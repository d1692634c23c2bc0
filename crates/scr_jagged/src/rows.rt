//! Rows of items in one list.
ghost use Rattle.std.specs.Prelude.{◌≡◌, ◌+◌, [], ◌∷◌, ◌++◌, IfOk, OnErr, OnOk, length, slice_get, slice_index_or};

use std::alloc::{AllocError as NoMemory, Global};
use std::marker::Model;

/// The stretch of the list that a row takes: from index `from` up to `to`, which is excluded.
#[derive(Clone, Copy)]
pub(crate) struct Part {
    pub(crate) from: u32,
    pub(crate) to: u32,
}

/// Rows of items in one list. Contracts see the rows as lists.
#[derive(Drop)]
pub struct Rows<T> {
    pub(crate) items: Vec<T>,
    pub(crate) parts: Vec<Part>,
}

impl<T> Model for Rows<T> {
    ghost use Rattle.std.specs.Prelude.{List, length};
    ghost use Rattle.scr_jagged.specs.Parts.{AreWithin, rows_of};

    ghost Value = { List (List T) };

    ghost view = { λ rows. rows_of rows.parts.items rows.items.items };

    ghost invariant = { λ rows. AreWithin rows.parts.items (length rows.items.items) };
}

impl<T: Copy> Rows<T> {
    /// No rows, with room for `rows` of them.
    pub fn with_capacity(alloc: Global, rows: usize) -> Result<Rows<T>, NoMemory>
        ensures { IfOk result (λ rows. rows ≡ []) }
    {
        let parts = Vec::with_capacity(alloc, rows)?;
        let items = Vec::new(alloc);
        Ok(Rows { items, parts })
    }

    /// The number of rows.
    pub fn len(&self) -> usize
        ensures { result ≡ length self.now }
    {
        self.parts.len()
    }

    /// The items of the row at index `place`; an empty slice past the last.
    pub fn row(&self, place: usize) -> &[T]
        ensures { result.now ≡ slice_index_or self.now place [] }
    {
        match self.parts.get(place) {
            Some(part) => &self.items[part.from as usize..part.to as usize],
            None => &[],
        }
    }

    /// Item `k` of the row at index `place`, both from 0; `None` past the last.
    pub fn get(&self, place: u32, k: u32) -> Option<T>
        ensures { result ≡ slice_get (slice_index_or self.now place []) k }
    {
        self.row(place as usize).get(k as usize).copied()
    }

    /// Appends a row. `NoMemory` if memory is refused or there would be more than 2^32 - 1 items; the rows then stay as they were.
    pub fn push(&mut self, row: &[T]) -> Result<(), NoMemory>
        ensures ok { OnOk result (self.new ≡ self.old ++ row.now ∷ []) }
        ensures err { OnErr result (self.new ≡ self.old) }
    {
        let from = count_of(self.items.len())?;
        let to = added(from, count_of(row.len())?)?;
        self.items.extend_from_slice(row)?;
        self.parts.push(Part { from, to })?;
        Ok(())
    }
}

/// A count as 32 bits; `NoMemory` if it doesn't fit.
fn count_of(count: usize) -> Result<u32, NoMemory>
    ensures { IfOk result (λ number. number ≡ count) }
{
    match u32::try_from(count) {
        Ok(number) => Ok(number),
        Err(_) => Err(NoMemory),
    }
}

/// The sum of two counts; `NoMemory` if it doesn't fit 32 bits.
pub(crate) fn added(count: u32, more: u32) -> Result<u32, NoMemory>
    ensures { IfOk result (λ sum. sum ≡ count + more) }
{
    match count.checked_add(more) {
        Some(sum) => Ok(sum),
        None => Err(NoMemory),
    }
}
