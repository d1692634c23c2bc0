//! How a board is closed.
ghost use Rattle.std.specs.Prelude.{◌≡◌, ℕ, ◌+◌, ◌*◌, ◌<◌, [], length, map};
ghost use Rattle.std.specs.Mem.Slots.{slots_items, slots_len, IsFull};
ghost use Rattle.scr_num.specs.Rounding.{Ends, ends};
ghost use Rattle.scr_board.specs.Closing.{AreDone, HasJoined, IsShown, puts_of, put_count};
ghost use Rattle.scr_board.specs.BoardRounds.{BoardRound};

use crate::board::{Board, BoardSeat, Pass};
use crate::rule::Whole;
use crate::words::whole;
use atomic_table::Closed;
use scr_num::Span;
use std::alloc::Global;

impl Board {
    /// Joins the passes, which are at their end, and gives the figure of every node of the round.
    /// The passes have put every node, each once.
    pub fn close(self, passes: Vec<Pass>, out: &mut [Span])
        requires done { (round : BoardRound) × AreDone self round passes.items
            × (length out.old ≡ length round.places) }
        ensures worked { (round : BoardRound) → AreDone self round passes.items
            → map ends out.new ≡ round.worked }
        ensures each { (round : BoardRound) → AreDone self round passes.items
            → (n : ℕ) → n < length round.places → puts_of n passes.items ≡ 1 }
        ensures count { (round : BoardRound) → AreDone self round passes.items
            → put_count passes.items ≡ length round.places }
    {
        let seat = self.joined(passes);
        let Board {
            table,
            starts: _,
            dependants: _,
            workers: _,
        } = self;
        let closed = table.close_with(seat);
        for (n, figure) in out.iter_mut().enumerate() {
            *figure = figure_at(&closed, n);
        }
        closed.free();
    }

    /// One seat with all that the passes did.
    fn joined(&self, mut passes: Vec<Pass>) -> BoardSeat
        requires { (round : BoardRound) × AreDone self.now round passes.items }
        ensures { (round : BoardRound) → AreDone self.now round passes.items
            → HasJoined self.now round passes.items [] result }
    {
        let Some(first) = passes.pop() else {
            unreachable!()
        };
        let Pass {
            mut seat,
            hand: _,
            got: _,
            apart: _,
        } = first;
        while let Some(pass) = passes.pop() {
            let Pass {
                seat: other,
                hand: _,
                got: _,
                apart: _,
            } = pass;
            self.table.shared.join_seat::<Whole>(&mut seat, other);
        }
        seat
    }
}

/// The figure that stands at a node's words.
fn figure_at(closed: &Closed<(), Global>, n: usize) -> Span
    requires full { IsFull closed.now.words }
    requires long { 5 * n + 5 < slots_len closed.now.words }
    requires shown { (figure : Ends) × IsShown (slots_items closed.now.words) n figure }
    ensures { (figure : Ends) → IsShown (slots_items closed.now.words) n figure
        → ends result ≡ figure }
{
    let first = closed.word(5 * n + 2);
    let second = closed.word(5 * n + 3);
    let third = closed.word(5 * n + 4);
    let fourth = closed.word(5 * n + 5);
    let low = whole(first, second);
    let high = whole(third, fourth);
    Span { low, high }
}
