//! The board, and the passes of its workers.
ghost use Rattle.std.specs.Prelude.{◌<◌};

use crate::rule::Rules;
use crate::views::View;
use atomic_table::{Seat, Table};
use scr_jagged::Rows;
use scr_num::Span;
use std::alloc::Global;

pub(crate) type BoardTable = Table<(), View, Vec<u64>, Rules, Global>;

pub(crate) type BoardSeat = Seat<(), View>;

/// What the workers of a round share: the ticket, how many sources each node still waits for, and
/// the figures.
#[derive(Drop)]
pub struct Board {
    pub(crate) table: BoardTable,
    pub(crate) starts: Vec<u32>,
    pub(crate) dependants: Rows<u32>,
    pub(crate) workers: u32,
    ghost some: { 0 < workers },
}

/// What one worker has done on a board, and the room that it works in.
#[derive(Drop)]
pub struct Pass {
    pub(crate) seat: BoardSeat,
    pub(crate) hand: Vec<u32>,
    pub(crate) got: Vec<Span>,
    pub(crate) apart: Apart,
}

/// Room that nobody uses. It keeps what one worker writes in its pass off the lines of memory on
/// which the passes of the others lie.
pub(crate) type Apart = [u64; 16];
