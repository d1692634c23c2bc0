//! A walk over the edges of one node.
ghost use Rattle.std.specs.Prelude.{◌≡◌, ℕ, ◌<◌, true, map, length};
ghost use Rattle.scr_links.specs.Places.{has};
ghost use Rattle.scr_links.specs.Chains.{list_of};
ghost use Rattle.scr_links.specs.Ends.{other_end, pair_at};

use crate::chains::{Chains, NONE};
use crate::links::{EdgeId, Pair};
use std::marker::Model;

/// The node of each edge that a walk gives.
#[derive(Clone, Copy)]
pub(crate) enum Towards {
    Source,
    Dependant,
}

impl Towards {
    fn of(self, pair: Pair) -> u32
        ensures { result ≡ other_end self pair }
    {
        match self {
            Towards::Source => pair.source,
            Towards::Dependant => pair.dependant,
        }
    }
}

/// The rest of one node's edges, in the order of joining: for each the other node, and the edge's id. Contracts see the list of
/// this rest.
#[derive(Drop)]
pub struct Walk<'a> {
    chains: &'a Chains,
    pairs: &'a [Pair],
    towards: Towards,
    at: u32,
}

impl<'a> Model for Walk<'a> {
    ghost use Rattle.std.specs.Prelude.{ℕ, List};

    ghost Value = { List (ℕ × ℕ) };

    ghost use Rattle.scr_links.specs.Left.{left, IsOnTheWay};

    ghost view = { left };

    ghost invariant = { IsOnTheWay };
}

impl<'a> Walk<'a> {
    /// A walk over the edges whose slots are in this list.
    pub(crate) fn new(
        chains: &'a Chains,
        pairs: &'a [Pair],
        towards: Towards,
        list: u32,
    ) -> Walk<'a>
        requires { (place : ℕ) → has place (list_of chains.now list) ≡ true
            → place < length pairs.now }
        ensures { result ≡ map (λ place. (other_end towards (pair_at pairs.now place), place))
            (list_of chains.now list) }
    {
        Walk {
            chains,
            pairs,
            towards,
            at: chains.first(list),
        }
    }
}

impl<'a> Iterator for Walk<'a> {
    type Item = (u32, EdgeId);

    ghost use Rattle.std.specs.Iterator.{YieldsFirst, item_count};

    ghost next_gives = { YieldsFirst (λ rest. rest) };

    ghost remaining = { item_count (λ rest. rest) };

    fn next(&mut self) -> Option<(u32, EdgeId)> {
        let place = self.at;
        if place == NONE {
            return None;
        }
        self.at = self.chains.next(place);
        let other = self.towards.of(self.pairs[place as usize]);
        Some((other, EdgeId::new(place)))
    }
}
