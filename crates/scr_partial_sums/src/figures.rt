//! A table of figures by id.
ghost use Rattle.std.specs.Prelude.{◌≡◌, ◌+◌, ◌<◌, ◌++◌, ◌∷◌, [], true, false, Some, IfOk, OnErr, OnOk, length, replicate, slice_get, slice_set};
ghost use Rattle.scr_partial_sums.specs.declared.figure.Figure.{Figure as TheFigure};
ghost use Rattle.scr_partial_sums.specs.Marks.{figure_of};
ghost use Rattle.scr_partial_sums.specs.Tables.{IsAmountBeforeNothing, nothing};

use crate::cell::{Cell, Kept, Mark};
use crate::figure::{Figure, is_amount, is_nothing};
use crate::kept::KeptFigure;
use scr_num::Span;
use std::alloc::{AllocError as NoMemory, Global};
use std::marker::Model;

/// A table of figures by id, 16 bytes each: there are many, so less memory is less time. The few wide figures are stored beside
/// the cells, and stay there. Room for all of them is reserved, so writing a figure needs no memory. Reserved room that is not
/// written takes no page. Contracts see the list of figures.
#[derive(Drop)]
pub struct Figures {
    cells: Vec<Cell>,
    wide: Vec<KeptFigure>,
}

impl Model for Figures {
    ghost use Rattle.std.specs.Prelude.{List};
    ghost use Rattle.scr_partial_sums.specs.declared.figure.Figure.{Figure};

    ghost Value = { List Figure };

    ghost use Rattle.scr_partial_sums.specs.KeptTables.{figures_in, IsKept};

    ghost view = { figures_in };

    ghost invariant = { IsKept };
}

impl Figures {
    /// A table of `size` figures that are 0; `NoMemory` if it doesn't fit.
    pub fn new(alloc: Global, size: usize) -> Result<Figures, NoMemory>
        ensures { IfOk result (λ figures. figures ≡ replicate size nothing) }
    {
        let cells = vec![in alloc; Cell::nothing(); size]?;
        let wide = Vec::with_capacity(alloc, size)?;
        Ok(Figures { cells, wide })
    }

    /// The number of figures.
    pub fn len(&self) -> usize
        ensures { result ≡ length self.now }
    {
        self.cells.as_slice().len()
    }

    /// The figure with id `number`.
    pub fn figure(&self, number: usize) -> Figure
        requires { number < length self.now }
        ensures { slice_get self.now number ≡ Some result }
    {
        match self.cells[number].kept() {
            Kept::Here(figure) => figure,
            Kept::Apart(place) => self.wide[place].figure(),
        }
    }

    /// The span of the figure with id `number`.
    pub fn span(&self, number: usize) -> Span
        requires { number < length self.now }
        ensures { (figure : TheFigure) → slice_get self.now number ≡ Some figure → result ≡ figure.span }
    {
        self.figure(number).span
    }

    /// Whether the figure with id `number` rests on an open choice.
    pub fn is_close(&self, number: usize) -> bool
        requires { number < length self.now }
        ensures { (figure : TheFigure) → slice_get self.now number ≡ Some figure → result ≡ figure.close }
    {
        self.figure(number).close
    }

    /// Whether the figure with id `number` is 0 exactly and rests on no open choice.
    pub fn is_nothing(&self, number: usize) -> bool
        requires { number < length self.now }
        ensures yes { result ≡ true → slice_get self.now number ≡ Some nothing }
        ensures not { result ≡ false → slice_get self.now number ≡ Some nothing → ⊥ }
    {
        // The bits of a cell decide for most figures.
        let cell = &self.cells[number];
        if cell.is_nothing() {
            return true;
        }
        match cell.kept() {
            Kept::Here(_) => false,
            Kept::Apart(place) => is_nothing(&self.wide[place].figure()),
        }
    }

    /// Whether figure `number` is one exact amount from 0 to `most` and the next is 0, neither on an open choice.
    pub fn is_amount_before_nothing(&self, number: usize, most: u64) -> bool
        requires { number + 1 < length self.now }
        ensures yes { result ≡ true → IsAmountBeforeNothing most self.now number }
        ensures not { result ≡ false → IsAmountBeforeNothing most self.now number → ⊥ }
    {
        // The bits of both cells decide for most figures.
        let next = &self.cells[number + 1];
        self.cells[number].is_amount_before_nothing(next, most) || self.is_read_so(number, most)
    }

    /// Decides `is_amount_before_nothing` from the decoded figures, the rare case.
    #[inline(never)]
    fn is_read_so(&self, number: usize, most: u64) -> bool
        requires { number + 1 < length self.now }
        ensures yes { result ≡ true → IsAmountBeforeNothing most self.now number }
        ensures not { result ≡ false → IsAmountBeforeNothing most self.now number → ⊥ }
    {
        // The length fits a `usize`, so the next id does.
        let _length = self.len();
        is_amount(&self.figure(number), most) && self.is_nothing(number + 1)
    }

    /// Whether figure `number` is the mark's.
    pub fn is_marked(&self, number: usize, mark: &Mark) -> bool
        requires { number < length self.now }
        ensures yes { result ≡ true → slice_get self.now number ≡ Some (figure_of mark.now) }
        ensures not { result ≡ false → slice_get self.now number ≡ Some (figure_of mark.now) → ⊥ }
    {
        // The bits of a cell decide for most figures.
        let cell = &self.cells[number];
        if mark.is_of(cell) {
            return true;
        }
        match cell.kept() {
            Kept::Here(_) => false,
            Kept::Apart(place) => mark.is_same(&self.wide[place].figure()),
        }
    }

    /// Writes figure `number`. It uses reserved room, so it can't fail.
    pub fn set(&mut self, number: usize, figure: Figure)
        requires { number < length self.old }
        ensures { self.new ≡ slice_set self.old number figure }
    {
        match self.cells[number].kept() {
            Kept::Apart(place) => self.wide[place] = KeptFigure::new(figure),
            Kept::Here(_) => match Cell::here(&figure) {
                Some(cell) => self.cells[number] = cell,
                None => {
                    let place = self.wide.as_slice().len();
                    self.wide.push_reserved(KeptFigure::new(figure));
                    self.cells[number] = Cell::apart(place);
                }
            },
        }
    }

    /// Appends a figure that is 0; `NoMemory` leaves the table as it was.
    pub fn push(&mut self) -> Result<(), NoMemory>
        ensures ok { OnOk result (self.new ≡ self.old ++ nothing ∷ []) }
        ensures err { OnErr result (self.new ≡ self.old) }
    {
        let wanted = self.cells.as_slice().len() + 1;
        self.wide.reserve(wanted)?;
        self.cells.push(Cell::nothing())?;
        Ok(())
    }
}
