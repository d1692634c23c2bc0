//! What a worker does on a board with its pass.
ghost use Rattle.std.specs.Prelude.{◌≡◌, ℕ, ◌<◌, Some, false, length, slice_get};
ghost use Rattle.scr_num.specs.Rounding.{ends};
ghost use Rattle.scr_board.specs.Counts.{times};
ghost use Rattle.scr_board.specs.Rounds.{dependants_of};
ghost use Rattle.scr_board.specs.States.{deliveries, holds};
ghost use Rattle.scr_board.specs.Passes.{IsFigureAt, IsPassOf, IsSameRoom, last_of, progress, puts, view};
ghost use Rattle.scr_board.specs.Plays.{AreNamedOnce, CanRead};
ghost use Rattle.scr_board.specs.BoardRounds.{BoardRound, IsBoardRound, lists_of};
ghost use Rattle.scr_board.specs.Views.{view_delivered, view_drawn, with_progress};

use crate::board::{Board, Pass};
use crate::words::{halves, whole};
use scr_num::Span;

impl Board {
    /// The next start, which is then in the pass's hand. Nothing exactly where the ticket has reached
    /// the number of starts, and the pass is then marked.
    pub fn draw(&self, pass: &mut Pass) -> Option<u32>
        requires pass { IsPassOf self.now pass.old }
        requires unmarked { (progress pass.old).marked ≡ false }
        ensures pass { IsPassOf self.now pass.new }
        ensures room { IsSameRoom pass.old pass.new }
        ensures drawn { (ticket : ℕ) × (view pass.new ≡ view_drawn ticket (view pass.old))
            × (result ≡ slice_get (view pass.old).round.starts ticket) }
        ensures once { AreNamedOnce (view pass.new).round (progress pass.new) }
    {
        let ticket = self.next_ticket(&mut pass.seat);
        self.starts.as_slice().get(ticket as usize).copied()
    }

    /// The figure that was put for a node: one that the pass put, or a source of a node that the
    /// pass holds or put.
    pub fn read(&self, pass: &mut Pass, n: u32) -> Span
        requires pass { IsPassOf self.now pass.old }
        requires may { CanRead (view pass.old).round (progress pass.old) n }
        ensures pass { IsPassOf self.now pass.new }
        ensures same { view pass.new ≡ view pass.old }
        ensures room { IsSameRoom pass.old pass.new }
        ensures read { (round : BoardRound) → IsBoardRound round
            → (view pass.old).round ≡ lists_of round
            → slice_get round.worked n ≡ Some (ends result) }
    {
        let first = self.load_word(&mut pass.seat, n, 0);
        let second = self.load_word(&mut pass.seat, n, 1);
        let third = self.load_word(&mut pass.seat, n, 2);
        let fourth = self.load_word(&mut pass.seat, n, 3);
        let low = whole(first, second);
        let high = whole(third, fourth);
        Span { low, high }
    }

    /// Puts the figure of a node in the hand.
    pub fn put(&self, pass: &mut Pass, n: u32, span: Span)
        requires pass { IsPassOf self.now pass.old }
        requires hand { 0 < holds n (progress pass.old).hand }
        requires worked { IsFigureAt (view pass.old).round n (ends span) }
        ensures pass { IsPassOf self.now pass.new }
        ensures room { IsSameRoom pass.old pass.new }
        ensures put { view pass.new
            ≡ with_progress (view pass.old) (puts n (progress pass.old)) }
        ensures once { AreNamedOnce (view pass.new).round (progress pass.new) }
    {
        let (first, second) = halves(&span.low);
        let (third, fourth) = halves(&span.high);
        self.store_word(&mut pass.seat, n, 0, first);
        self.store_word(&mut pass.seat, n, 1, second);
        self.store_word(&mut pass.seat, n, 2, third);
        self.store_word(&mut pass.seat, n, 3, fourth);
    }

    /// Delivers to the `k`-th dependant of a node that the pass put. It is told, and is then in the
    /// pass's hand, exactly where this node was the last of its sources.
    pub fn deliver(&self, pass: &mut Pass, n: u32, k: u32) -> Option<u32>
        requires pass { IsPassOf self.now pass.old }
        requires put { 0 < times n (progress pass.old).put }
        requires place { k < length (dependants_of (view pass.old).round n) }
        requires new { deliveries n k (progress pass.old) ≡ 0 }
        ensures pass { IsPassOf self.now pass.new }
        ensures room { IsSameRoom pass.old pass.new }
        ensures delivered { (left d : ℕ)
            × (slice_get (dependants_of (view pass.old).round n) k ≡ Some d)
            × (view pass.new ≡ view_delivered n k d left (view pass.old))
            × (result ≡ last_of left d) }
        ensures once { AreNamedOnce (view pass.new).round (progress pass.new) }
    {
        let dependant = self.dependants.row(n as usize)[k as usize];
        let left = self.deliver_to(&mut pass.seat, dependant, n, k);
        if left == 1 { Some(dependant) } else { None }
    }
}
