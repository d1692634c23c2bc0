//! A cell of the report.

/// A cell of the report: its number, from 0 in the order of the report's lines, the bounds of its
/// figure in cents, whether it rests on a choice that the figures leave open, and its stated width:
/// so many cents may lie between the bounds where it rests on none.
#[derive(Clone, Copy, Debug, PartialEq, Eq)]
pub struct Cell {
    pub index: u32,
    pub low: i128,
    pub high: i128,
    pub close: bool,
    pub width: i128,
}
