//! What figures are reckoned from, and who reckons.

use crate::figures::Inputs;
use crate::graph::{Graph, Numbers};
use scr_ids::Places;
use scr_links::Links;
use scr_member_index::Lists;
use std::alloc::Global;

/// What figures are reckoned from beside those of their sources: the book and its rates, the numbers of all its figures and Blocks, and
/// the links that neither rows nor lists give. And whether each Block of the first level came to what its members came to before anything
/// was reckoned anew: so it is where no member list has moved since all figures were right.
#[derive(Clone, Copy)]
pub(crate) struct Basis<'a> {
    pub(crate) inputs: Inputs<'a>,
    pub(crate) places: &'a Places,
    pub(crate) lists: &'a Lists,
    pub(crate) links: &'a Links,
    pub(crate) summed: bool,
}

impl<'a> Basis<'a> {
    ghost use Rattle.std.specs.Prelude.{◌≡◌};
    ghost use Rattle.scr_tree.specs.Ready.{graph_on, numbers_on};

    /// What numbers are read off.
    pub(crate) fn numbers(&self) -> Numbers<'a>
        ensures { result ≡ numbers_on self.now }
    {
        Numbers {
            book: self.inputs.book,
            places: self.places,
            lists: self.lists,
        }
    }

    /// The graph of the book by numbers.
    pub(crate) fn graph(&self) -> Graph<'a>
        ensures { result ≡ graph_on self.now }
    {
        Graph {
            numbers: self.numbers(),
            links: self.links,
        }
    }
}

/// So many workers of a runtime, and the gate that is passed before each figure.
#[derive(Drop)]
pub(crate) struct Crew<'a, R, G> {
    pub(crate) rt: &'a R,
    pub(crate) alloc: Global,
    pub(crate) workers: u32,
    pub(crate) gate: &'a G,
}
