//! The former figures of what an edit reckons anew.
ghost use Rattle.std.specs.Prelude.{◌≡◌, ◌+◌, ◌<◌, ◌≤◌, true, false, [], Some, drop, length, slice_get, slice_set, vec_capacity, IfOk};
ghost use Rattle.scr_num.specs.Rounding.{ends};
ghost use Rattle.scr_tree.specs.Order.{AreWithin, IsJournalKept, undone};

use crate::figures::{Figure, Figures};
use scr_partial_sums::is_nothing;
use std::alloc::{AllocError as NoMemory, Global};
use std::mem::replace;

/// A figure that was written over, and its number.
#[derive(Clone, Copy)]
pub(crate) struct Former {
    pub(crate) number: u32,
    pub(crate) figure: Figure,
}

/// Numbers in the order in which their figures are written, and how many have been. Of each figure that became another the former
/// one is kept, in the same order. There is room for those of all that are left.
#[derive(Drop)]
pub(crate) struct Journal {
    numbers: Vec<u32>,
    next: usize,
    former: Vec<Former>,
    ghost left: { next ≤ length numbers.items },
    ghost room: { length former.items + length numbers.items ≤ vec_capacity former + next },
}

impl Journal {
    /// No figure is written yet. A former list is taken for its room.
    pub(crate) fn new(
        alloc: Global,
        numbers: Vec<u32>,
        room: &mut Vec<Former>,
    ) -> Result<Journal, NoMemory>
        ensures numbers { IfOk result (λ journal. journal.numbers.items ≡ numbers.items) }
        ensures first { IfOk result (λ journal. journal.next ≡ 0) }
        ensures none { IfOk result (λ journal. journal.former.items ≡ []) }
    {
        room.clear();
        room.reserve(numbers.len())?;
        let former = replace(room, Vec::new(alloc));
        Ok(Journal {
            numbers,
            next: 0,
            former,
        })
    }

    /// The number whose figure is written next, if one is left.
    pub(crate) fn next_number(&self) -> Option<u32>
        ensures { result ≡ slice_get self.now.numbers.items self.now.next }
    {
        self.numbers.as_slice().get(self.next).copied()
    }

    /// The figure that is written next is that of this number.
    pub(crate) fn is_next(&self, number: u32) -> bool
        ensures yes { result ≡ true → slice_get self.now.numbers.items self.now.next ≡ Some number }
        ensures not { result ≡ false → slice_get self.now.numbers.items self.now.next ≡ Some number → ⊥ }
    {
        self.next < self.numbers.len() && self.numbers[self.next] == number
    }

    /// The numbers whose figures are left to write, in their order.
    pub(crate) fn left(&self) -> &[u32]
        ensures { result.now ≡ drop self.now.next self.now.numbers.items }
    {
        &self.numbers.as_slice()[self.next..]
    }

    /// The former figures that are kept so far.
    pub(crate) fn former(&self) -> &[Former]
        ensures { result.now ≡ self.now.former.items }
    {
        self.former.as_slice()
    }

    /// Passes over the next numbers, so many, whose figures stay as they are.
    pub(crate) fn pass(&mut self, many: usize)
        requires { self.old.next + many ≤ length self.old.numbers.items }
        ensures numbers { self.new.numbers.items ≡ self.old.numbers.items }
        ensures next { self.new.next ≡ self.old.next + many }
        ensures former { self.new.former.items ≡ self.old.former.items }
    {
        self.next += many;
    }

    /// Writes the figure of the next number, and keeps the one that stood there. Where that is the same, neither is done. It takes no
    /// memory.
    pub(crate) fn write(&mut self, figures: &mut Figures, number: u32, figure: Figure)
        requires next { slice_get self.old.numbers.items self.old.next ≡ Some number }
        requires within { number < length figures.old }
        ensures numbers { self.new.numbers.items ≡ self.old.numbers.items }
        ensures next { self.new.next ≡ self.old.next + 1 }
        ensures written { figures.new ≡ slice_set figures.old number figure }
        ensures journaled { IsJournalKept self.old.former.items figures.old self.new.former.items figures.new }
        ensures short { slice_get figures.old number ≡ Some figure → self.new.former.items ≡ self.old.former.items }
    {
        self.next += 1;
        let place = number as usize;
        if both_nothing(figures, place, &figure) {
            return;
        }
        let was = figures.figure(place);
        if is_same(was, figure) {
            return;
        }
        self.former.push_reserved(Former {
            number,
            figure: was,
        });
        figures.set(place, figure);
    }

    /// The lists of numbers and of former figures, for their room.
    pub(crate) fn into_room(self) -> (Vec<u32>, Vec<Former>) {
        let Journal {
            numbers,
            former,
            ..
        } = self;
        (numbers, former)
    }

    /// Writes the former figures back, the last one first. The list of them is handed back for its room.
    pub(crate) fn undo(self, figures: &mut Figures) -> Vec<Former>
        requires { AreWithin (length figures.old) self.former.items }
        ensures { figures.new ≡ undone self.former.items figures.old }
    {
        let Journal { mut former, .. } = self;
        while let Some(was) = former.pop() {
            figures.set(was.number as usize, was.figure);
        }
        former
    }
}

/// The figure comes to nothing, and the one that stands at the place does: so it is of most squares, and told at a glance.
fn both_nothing(figures: &Figures, place: usize, figure: &Figure) -> bool
    requires { place < length figures.now }
    ensures { result ≡ true → slice_get figures.now place ≡ Some figure.now }
{
    is_nothing(figure) && figures.is_nothing(place)
}

/// The two figures are the same.
fn is_same(one: Figure, other: Figure) -> bool
    ensures yes { result ≡ true → (ends one.span ≡ ends other.span) × (one.close ≡ other.close) }
    ensures not { result ≡ false → one ≡ other → ⊥ }
{
    one.span.low == other.span.low && one.span.high == other.span.high && one.close == other.close
}
