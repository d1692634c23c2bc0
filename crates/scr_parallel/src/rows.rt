//! Rows, the pieces that they lie in, and how their figures are reckoned.
ghost use Rattle.std.specs.Prelude.{◌≡◌, ℕ, ◌<◌, List, OnOk};
ghost use Rattle.scr_num.specs.declared.span.Span.{Span};
ghost use Rattle.scr_parallel.specs.Rows.{IsPushed};
ghost use Rattle.scr_parallel.specs.declared.rows.Sort.{Sort};

use scr_io::Gate;
use scr_num::Span;
use std::alloc::AllocError as NoMemory;

/// The sorts of rows that have figures of their own.
#[derive(Clone, Copy)]
pub enum Sort {
    Liability,
    Security,
    Group,
}

/// Some rows of one sort, one after another: from a place up to the end.
#[derive(Clone, Copy)]
pub struct Piece {
    pub sort: Sort,
    pub from: usize,
    pub end: usize,
}

/// What one worker reckoned: the pieces that it drew, and the spans of all rows of these, in the same order.
#[derive(Drop)]
pub struct Part {
    pub pieces: Vec<Piece>,
    pub spans: Vec<Span>,
}

/// How the figures of rows are reckoned.
pub trait RowPlan {
    /// How many rows of a sort there are.
    ghost count: { Self → Sort → ℕ };

    /// These are the spans of the figures of the row at a place.
    ghost is_row: { Self → Sort → ℕ → List Span → Type 0 };

    /// That the parts of the value fit together.
    ghost is_plan: { Self → Type 0 };

    /// How many rows of a sort there are.
    fn rows(&self, sort: Sort) -> usize
        requires { is_plan self.now }
        ensures { result ≡ count self.now sort };

    /// Pushes the spans of the figures of the row at a place behind those that are there. The gate is passed before each figure.
    /// Only want of memory is refused.
    fn reckon<G: Gate>(
        &self,
        sort: Sort,
        place: usize,
        spans: &mut Vec<Span>,
        gate: &G,
    ) -> Result<(), NoMemory>
        requires plan { is_plan self.now }
        requires row { place < count self.now sort }
        ensures { OnOk result (IsPushed (is_row self.now sort place) spans.old.items spans.new.items) };
}
