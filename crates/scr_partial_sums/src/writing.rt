//! The blocks of one sum over a list, written and read under their ids.
ghost use Rattle.std.specs.Prelude.{◌≡◌, ℕ, false, slice_get, ◌+◌, ◌-◌, ◌<◌, ◌≤◌, ◌^◌, All, length, slice_set};
ghost use Rattle.scr_sum_tree.specs.Blocks.{blocks_at};
ghost use Rattle.scr_sum_tree.specs.Sums.{AreSums};
ghost use Rattle.scr_sum_tree.specs.declared.blocks.Level.{Level as TheLevel};
ghost use Rattle.scr_sum_tree.specs.declared.blocks.Level.TheVariants as levels;
ghost use Rattle.scr_num.specs.Rounding.{ends};
ghost use Rattle.scr_num.specs.Sizes.{AreTogether};
ghost use Rattle.scr_num.specs.Sums.{sum_ends};
ghost use Rattle.scr_partial_sums.specs.Figures.{ends_at, member_number, members_ends};
ghost use Rattle.scr_partial_sums.specs.Written.{AreNumbered, AreOffBlocks, IsPut, any_block_open, block_figure, blocks_ends, is_open_at, number_of, part_ends, second_ends};

use crate::{Figure, Figures, add_members};
use scr_ids::{Places, Table};
use scr_num::{Span, add, exact};
use scr_sum_slots::{Part, Parts};
use scr_sum_tree::{Level, blocks_at, part, places};

/// The blocks of one sum over a list: all parts with the ids of their slots, and the list's number. `own` (0 to 2) is the sum's
/// place in a slot's row.
#[derive(Clone, Copy)]
pub struct Subtotals<'a> {
    pub parts: &'a Parts,
    pub places: &'a Places,
    pub list: u32,
    pub own: u32,
}

impl<'a> Subtotals<'a> {
    /// The id of block `index` of a level, of a list of `count` members.
    pub fn number(&self, count: usize, level: Level, index: usize) -> u32
        requires numbered { AreNumbered self.now count }
        requires there { index < blocks_at count level }
        ensures number { result ≡ number_of self.now level index }
        ensures within { number_of self.now level index < self.now.places.now.size }
    {
        let part = Part {
            list: self.list,
            level,
            index: index as u32,
        };
        match self.parts.slot(&part) {
            Some(slot) => self.places.first(Table::Part, slot as usize) + self.own,
            None => unreachable!(),
        }
    }

    /// Writes the span of block `index` of a level.
    fn put(&self, figures: &mut Figures, count: usize, level: Level, index: usize, span: Span)
        requires numbered { AreNumbered self.now count }
        requires there { index < blocks_at count level }
        requires room { self.now.places.now.size ≤ length figures.old }
        ensures { figures.new ≡ slice_set figures.old (number_of self.now level index) (block_figure span) }
    {
        let number = self.number(count, level, index);
        figures.set(number as usize, Figure { span, close: false });
    }

    /// Writes the first-level blocks over figure `family` of the rows whose ids begin at `firsts`.
    pub fn put_firsts(&self, figures: &mut Figures, firsts: &[u32], family: u32)
        requires numbered { AreNumbered self.now (length firsts.now) }
        requires room { self.now.places.now.size ≤ length figures.old }
        requires within { All (λ first. first + family < length figures.old) firsts.now }
        requires off { All (λ first. AreOffBlocks self.now (length firsts.now) (member_number family first)) firsts.now }
        requires together { AreTogether (2 ^ 124) (members_ends figures.old family firsts.now) }
        ensures { IsPut self.now levels.First (blocks_at (length firsts.now) levels.First) (part_ends figures.old family firsts.now)
            figures.old figures.new }
    {
        for index in 0..blocks_at(firsts.len(), Level::First) {
            let span = add_members(figures, part(firsts, index), family);
            self.put(figures, firsts.len(), Level::First, index, span);
        }
    }

    /// The sum of blocks `start` to `end` - 1 of a level, as a figure; open if any of them is.
    pub fn add_blocks(
        &self,
        figures: &Figures,
        count: usize,
        level: Level,
        start: usize,
        end: usize,
    ) -> Figure
        requires numbered { AreNumbered self.now count }
        requires there { end ≤ blocks_at count level }
        requires within { (i : ℕ) → start ≤ i → i < end → number_of self.now level i < length figures.now }
        requires together { AreTogether (2 ^ 124) (blocks_ends figures.now self.now level start (end - start)) }
        ensures span { ends result.span ≡ sum_ends (blocks_ends figures.now self.now level start (end - start)) }
        ensures close { result.close ≡ any_block_open figures.now self.now level start (end - start) }
    {
        let mut span = exact(0);
        let mut close = false;
        for index in start..end {
            let number = self.number(count, level, index);
            let figure = figures.figure(number as usize);
            span = add(span, figure.span);
            close |= figure.close;
        }
        Figure { span, close }
    }

    /// Writes the second-level blocks of a list of `count` members, from its first-level blocks.
    pub fn put_seconds(&self, figures: &mut Figures, count: usize)
        requires numbered { AreNumbered self.now count }
        requires room { self.now.places.now.size ≤ length figures.old }
        requires together { AreTogether (2 ^ 124) (blocks_ends figures.old self.now levels.First 0 (blocks_at count levels.First)) }
        ensures { IsPut self.now levels.Second (blocks_at count levels.Second) (second_ends figures.old self.now count) figures.old figures.new }
    {
        let firsts = blocks_at(count, Level::First);
        for index in 0..blocks_at(count, Level::Second) {
            let among = places(firsts, Level::First, index);
            let sum = self.add_blocks(figures, count, Level::First, among.start, among.end);
            self.put(figures, count, Level::Second, index, sum.span);
        }
    }

    /// Writes all blocks over figure `family` of the rows whose ids begin at `firsts`. No other figure changes.
    pub fn put_all(&self, figures: &mut Figures, firsts: &[u32], family: u32)
        requires numbered { AreNumbered self.now (length firsts.now) }
        requires room { self.now.places.now.size ≤ length figures.old }
        requires within { All (λ first. first + family < length figures.old) firsts.now }
        requires off { All (λ first. AreOffBlocks self.now (length firsts.now) (member_number family first)) firsts.now }
        requires together { AreTogether (2 ^ 124) (members_ends figures.old family firsts.now) }
        ensures long { length figures.new ≡ length figures.old }
        ensures sums { AreSums sum_ends (ends_at figures.new) (member_number family) (number_of self.now) firsts.now }
        ensures kept { (number : ℕ) → AreOffBlocks self.now (length firsts.now) number → slice_get figures.new number ≡ slice_get figures.old number }
        ensures settled { (level : TheLevel) (i : ℕ) → i < blocks_at (length firsts.now) level
            → is_open_at figures.new (number_of self.now level i) ≡ false }
    {
        self.put_firsts(figures, firsts, family);
        self.put_seconds(figures, firsts.len());
    }

    /// The sum of figure `family` over the rows whose ids begin at `firsts`, read from the list's top blocks.
    pub fn sum(&self, figures: &Figures, firsts: &[u32], family: u32) -> Span
        requires numbered { AreNumbered self.now (length firsts.now) }
        requires room { self.now.places.now.size ≤ length figures.now }
        requires within { All (λ first. first + family < length figures.now) firsts.now }
        requires sums { AreSums sum_ends (ends_at figures.now) (member_number family) (number_of self.now) firsts.now }
        requires together { AreTogether (2 ^ 124) (members_ends figures.now family firsts.now) }
        ensures { ends result ≡ sum_ends (members_ends figures.now family firsts.now) }
    {
        let count = firsts.len();
        let blocks = blocks_at(count, Level::First);
        let seconds = blocks_at(count, Level::Second);
        if blocks == 0 {
            add_members(figures, firsts, family)
        } else if seconds == 0 {
            self.add_blocks(figures, count, Level::First, 0, blocks)
                .span
        } else {
            self.add_blocks(figures, count, Level::Second, 0, seconds)
                .span
        }
    }
}
