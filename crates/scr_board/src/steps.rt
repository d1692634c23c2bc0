//! The steps of a pass on the board, each on one word.
ghost use Rattle.std.specs.Prelude.{◌≡◌, ◌+◌, ◌<◌, Some, false, slice_get};
ghost use Rattle.scr_board.specs.Counts.{times};
ghost use Rattle.scr_board.specs.Rounds.{dependants_of, word_of};
ghost use Rattle.scr_board.specs.States.{deliveries, holds, stored_of};
ghost use Rattle.scr_board.specs.Passes.{IsSeatOf, seen_by};
ghost use Rattle.scr_board.specs.Plays.{AreNamedOnce, CanRead};
ghost use Rattle.scr_board.specs.Views.{view_delivered, view_drawn, view_stored};

use crate::board::{Board, BoardSeat};
use crate::rule::{Aim, Deliver, Draw, Load, Store};
use std::marker::Brand;

impl Board {
    /// The ticket, which rises by one.
    pub(crate) fn next_ticket(&self, seat: &mut BoardSeat) -> u64
        requires seat { IsSeatOf self.now seat.old }
        requires unmarked { (seen_by seat.old).progress.marked ≡ false }
        ensures seat { IsSeatOf self.now seat.new }
        ensures view { seen_by seat.new ≡ view_drawn result (seen_by seat.old) }
        ensures once { AreNamedOnce (seen_by seat.new).round (seen_by seat.new).progress }
    {
        self.table.shared.fetch_add::<Draw>(seat, 0, 1)
    }

    /// A word of a node's figure.
    pub(crate) fn load_word(&self, seat: &mut BoardSeat, node: u32, word: usize) -> u64
        requires seat { IsSeatOf self.now seat.old }
        requires may { CanRead (seen_by seat.old).round (seen_by seat.old).progress node }
        requires word { word < 4 }
        ensures seat { IsSeatOf self.now seat.new }
        ensures view { seen_by seat.new ≡ seen_by seat.old }
        ensures word { result ≡ word_of (seen_by seat.old).round node word }
    {
        let place = 5 * node as usize + 2 + word;
        self.table.shared.load::<Load>(seat, place)
    }

    /// Stores the next word of the figure of a node in the hand.
    pub(crate) fn store_word(&self, seat: &mut BoardSeat, node: u32, word: usize, value: u64)
        requires seat { IsSeatOf self.now seat.old }
        requires hand { 0 < holds node (seen_by seat.old).progress.hand }
        requires stored { stored_of node (seen_by seat.old).progress.hand ≡ word }
        requires word { word < 4 }
        requires value { value ≡ word_of (seen_by seat.old).round node word }
        ensures seat { IsSeatOf self.now seat.new }
        ensures view { seen_by seat.new ≡ view_stored node (seen_by seat.old) }
        ensures once { AreNamedOnce (seen_by seat.new).round (seen_by seat.new).progress }
    {
        let place = 5 * node as usize + 2 + word;
        self.table.shared.store::<Store>(seat, place, value);
    }

    /// How many sources a dependant waited for, one of which is now delivered.
    pub(crate) fn deliver_to(
        &self,
        seat: &mut BoardSeat,
        dependant: u32,
        node: u32,
        place: u32,
    ) -> u64
        requires seat { IsSeatOf self.now seat.old }
        requires put { 0 < times node (seen_by seat.old).progress.put }
        requires place { slice_get (dependants_of (seen_by seat.old).round node) place ≡ Some dependant }
        requires new { deliveries node place (seen_by seat.old).progress ≡ 0 }
        ensures seat { IsSeatOf self.now seat.new }
        ensures view { seen_by seat.new ≡ view_delivered node place dependant result (seen_by seat.old) }
        ensures once { AreNamedOnce (seen_by seat.new).round (seen_by seat.new).progress }
    {
        self.deliver_as::<Brand>(seat, dependant, node, place)
    }

    fn deliver_as<W: Aim>(
        &self,
        seat: &mut BoardSeat,
        dependant: u32,
        _node: u32,
        _place: u32,
    ) -> u64
        requires aim { (W.node ≡ _node) × (W.place ≡ _place) }
        requires seat { IsSeatOf self.now seat.old }
        requires put { 0 < times _node (seen_by seat.old).progress.put }
        requires place { slice_get (dependants_of (seen_by seat.old).round _node) _place ≡ Some dependant }
        requires new { deliveries _node _place (seen_by seat.old).progress ≡ 0 }
        ensures seat { IsSeatOf self.now seat.new }
        ensures view { seen_by seat.new ≡ view_delivered _node _place dependant result (seen_by seat.old) }
        ensures once { AreNamedOnce (seen_by seat.new).round (seen_by seat.new).progress }
    {
        let word = 5 * dependant as usize + 1;
        self.table.shared.fetch_sub::<Deliver<W>>(seat, word, 1)
    }
}
