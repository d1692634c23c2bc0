//! A round of figures to be worked.
ghost use Rattle.std.specs.Prelude.{◌≡◌, ℕ, ◌+◌, ◌<◌, List, length, map, option_map, slice_get, slice_index_or, []};
ghost use Rattle.scr_num.specs.Rounding.{Ends, ends};
ghost use Rattle.scr_board.specs.Places.{spot_of};
ghost use Rattle.scr_board.specs.BoardRounds.{AreGiven, BoardRound, IsBoardRound, IsRoundWorked, places_at};

use crate::places::Place;
use scr_io::Steps;
use scr_num::Span;
use std::sync::ledger::Ledger;

/// The nodes of one round, by their numbers, and the rule that gives each its figure. A figure that
/// is known before the round is a place of each node that reads it.
pub trait Graph {
    /// The round, with the figure of each node.
    ghost round: { Self → BoardRound };

    /// The figure that the rule gives a node from the figures of its places.
    ghost rule_of: { Self → ℕ → List Ends → Ends };

    /// That the parts of the value fit together.
    ghost is_graph: { Self → Type 0 };

    /// How many nodes there are.
    fn nodes(&self) -> u32
        requires { is_graph self.now }
        ensures { result ≡ length (round self.now).places };

    /// The nodes without a source.
    fn starts(&self) -> &[u32]
        requires { is_graph self.now }
        ensures { result.now ≡ (round self.now).starts };

    /// The `k`-th place of a node in the order of its rule; nothing past the last.
    fn place(&self, n: u32, k: u32) -> Option<Place>
        requires graph { is_graph self.now }
        requires node { n < length (round self.now).places }
        ensures { option_map spot_of result ≡ slice_get (places_at (round self.now) n) k };

    /// The `k`-th node of which this node is a source; nothing past the last.
    fn dependant(&self, n: u32, k: u32) -> Option<u32>
        requires graph { is_graph self.now }
        requires node { n < length (round self.now).places }
        ensures { result ≡ slice_get (slice_index_or (round self.now).dependants n []) k };

    /// The figure of a node from those of its places. It is one step.
    fn rule<L: Ledger>(&self, n: u32, got: &[Span], steps: &mut Steps<L>) -> Span
        requires graph { is_graph self.now }
        requires node { n < length (round self.now).places }
        requires got { AreGiven (round self.now) n (map ends got.now) }
        ensures rule { ends result ≡ rule_of self.now n (map ends got.now) }
        ensures step { steps.new ≡ steps.old + 1 };

    ghost forms: { (g : Self) → is_graph g → IsBoardRound (round g) };

    ghost worked: { (g : Self) → is_graph g → IsRoundWorked (rule_of g) (round g) };
}
