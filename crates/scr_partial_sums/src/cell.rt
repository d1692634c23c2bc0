//! The cell of a figure in a table.
ghost use Rattle.std.specs.Prelude.{◌≡◌, ◌+◌, ◌<◌, ◌^◌, ◌≤ℤ◌, ⊤, true, false, IfSome, IsNone};
ghost use Rattle.scr_partial_sums.specs.Cells.{IsNarrow, high_in, low_in};
ghost use Rattle.scr_partial_sums.specs.Tables.{IsOneAmount, nothing};
ghost use Rattle.scr_partial_sums.specs.declared.cell.Kept.TheVariants as kept;
ghost use Rattle.scr_partial_sums.specs.declared.figure.Figure.{Figure as TheFigure};

use crate::Figure;
use scr_num::Span;
use std::alloc::AllocError as NoMemory;
use std::marker::Model;

/// The number of values of the low end's field.
const LOWS: u128 = 1 << 90;

/// The offset of the low end in its field, so that negative ends fit.
const HALF: i128 = 1 << 89;

/// The number of values of the width's field.
const WIDTHS: u128 = 1 << 36;

/// The number of values of half a cell's bits.
const WORDS: u128 = 1 << 64;

/// The bits of the wide figure with index 0; further indexes follow.
const APART: u128 = 1 << 127;

/// What a cell holds: a narrow figure itself, or the index of a wide one.
pub(crate) enum Kept {
    Here(Figure),
    Apart(usize),
}

/// A figure's cell, 16 bytes. It holds a figure whose low end takes 90 bits and whose width takes 36, or the index of a wide one.
/// Contracts see which.
#[derive(Drop)]
pub(crate) struct Cell {
    bits: u128,
    ghost ordered: { low_in bits ≤ℤ high_in bits },
    ghost few: { bits < 2 ^ 127 + 2 ^ 64 },
}

impl Model for Cell {
    ghost use Rattle.scr_partial_sums.specs.declared.cell.Kept.{Kept};

    ghost Value = { Kept };

    ghost use Rattle.scr_partial_sums.specs.KeptCells.{kept_in};

    ghost view = { kept_in };
}

impl Clone for Cell {
    ghost is_clone = { λ x y. y ≡ x };

    ghost is_infallible = { λ _. ⊤ };

    fn clone(&self) -> Result<Cell, NoMemory> {
        Ok(Cell { bits: self.bits })
    }
}

impl Cell {
    /// The cell of a narrow figure; `None` if the figure is wide.
    pub(crate) fn here(figure: &Figure) -> Option<Cell>
        ensures there { IfSome result (λ cell. cell ≡ kept.Here figure.now) }
        ensures absent { IsNone result → IsNarrow figure.now → ⊥ }
    {
        let Span { low, high, .. } = figure.span;
        if low < -HALF || low >= HALF || high >= low + (WIDTHS as i128) {
            return None;
        }
        let from = (low + HALF) as u128;
        let width = (high - low) as u128;
        let mark = if figure.close { WIDTHS } else { 0 };
        Some(Cell {
            bits: from + (width + mark) * LOWS,
        })
    }

    /// The cell of the figure 0.
    pub(crate) fn nothing() -> Cell
        ensures { result ≡ kept.Here nothing }
    {
        Cell { bits: HALF as u128 }
    }

    /// Whether the cell holds the figure 0 itself.
    pub(crate) fn is_nothing(&self) -> bool
        ensures yes { result ≡ true → self.now ≡ kept.Here nothing }
        ensures not { result ≡ false → self.now ≡ kept.Here nothing → ⊥ }
    {
        self.bits == HALF as u128
    }

    /// Whether the cell itself holds one exact amount from 0 to `most`, and `next` itself holds the figure 0.
    pub(crate) fn is_amount_before_nothing(&self, next: &Cell, most: u64) -> bool
        ensures yes { result ≡ true
            → ((figure : TheFigure) × (self.now ≡ kept.Here figure) × IsOneAmount most figure) × (next.now ≡ kept.Here nothing) }
        ensures not { result ≡ false → (figure : TheFigure) → self.now ≡ kept.Here figure → IsOneAmount most figure
            → next.now ≡ kept.Here nothing → ⊥ }
    {
        // An amount below 2^64 shares the upper half of its bits with the figure 0.
        self.bits / WORDS == (HALF as u128) / WORDS
            && next.is_nothing()
            && (self.bits % WORDS) as u64 <= most
    }

    /// The cell of a wide figure, by its index.
    pub(crate) fn apart(place: usize) -> Cell
        ensures { result ≡ kept.Apart place }
    {
        Cell {
            bits: APART + place as u128,
        }
    }

    /// What the cell holds.
    pub(crate) fn kept(&self) -> Kept
        ensures { result ≡ self.now }
    {
        if self.bits >= APART {
            return Kept::Apart((self.bits - APART) as usize);
        }
        let low = (self.bits % LOWS) as i128 - HALF;
        let rest = self.bits / LOWS;
        let high = low + (rest % WIDTHS) as i128;
        Kept::Here(Figure {
            span: Span { low, high },
            close: rest / WIDTHS % 2 == 1,
        })
    }
}

/// A narrow figure in the bits of its cell, 16 bytes: a table compares it with a cell without decoding either.
#[derive(Clone, Copy)]
pub struct Mark {
    bits: u128,
    ghost ordered: { low_in bits ≤ℤ high_in bits },
    ghost few: { bits < 2 ^ 127 },
}

impl Mark {
    ghost use Rattle.std.specs.Prelude.{◌≡◌, true, false, IfSome, IsNone};
    ghost use Rattle.scr_partial_sums.specs.Cells.{IsNarrow};
    ghost use Rattle.scr_partial_sums.specs.Marks.{figure_of};
    ghost use Rattle.scr_partial_sums.specs.declared.cell.Kept.TheVariants as kept;

    /// The mark of a narrow figure; `None` if the figure is wide.
    pub fn new(figure: &Figure) -> Option<Mark>
        ensures there { IfSome result (λ mark. figure_of mark ≡ figure.now) }
        ensures absent { IsNone result → IsNarrow figure.now → ⊥ }
    {
        let cell = Cell::here(figure)?;
        Some(Mark { bits: cell.bits })
    }

    /// Whether the cell holds the mark's figure itself.
    pub(crate) fn is_of(&self, cell: &Cell) -> bool
        ensures yes { result ≡ true → cell.now ≡ kept.Here (figure_of self.now) }
        ensures not { result ≡ false → cell.now ≡ kept.Here (figure_of self.now) → ⊥ }
    {
        cell.bits == self.bits
    }

    /// Whether the figure is the mark's.
    pub(crate) fn is_same(&self, figure: &Figure) -> bool
        ensures yes { result ≡ true → figure.now ≡ figure_of self.now }
        ensures not { result ≡ false → figure.now ≡ figure_of self.now → ⊥ }
    {
        match Cell::here(figure) {
            Some(cell) => self.is_of(&cell),
            None => false,
        }
    }
}
