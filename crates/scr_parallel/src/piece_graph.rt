//! Pieces as the nodes of a board, none of which waits for another.

use scr_board::{Graph, Place};
use scr_io::Steps;
use scr_num::Span;
use std::sync::ledger::Ledger;

/// What the board keeps as the figure of a piece.
pub(crate) const NOTHING: Span = Span { low: 0, high: 0 };

/// So many nodes, from 0 on, which are all starts.
#[derive(Drop)]
pub(crate) struct PieceGraph<'a> {
    pub(crate) starts: &'a [u32],
}

impl<'a> Graph for PieceGraph<'a> {
    ghost use Rattle.std.specs.Prelude.{pos, length};
    ghost use Rattle.scr_num.specs.Rounding.{exact_ends};
    ghost use Rattle.scr_parallel.specs.Apart.{AreStarts, apart_round};
    ghost use Rattle.scr_parallel.specs.PieceForming.{apart-forms, apart-worked};

    ghost round = { λ g. apart_round (length g.starts.now) };

    ghost rule_of = { λ g n got. exact_ends (pos 0) };

    ghost is_graph = { λ g. AreStarts g.starts.now };

    fn nodes(&self) -> u32 {
        self.starts.len() as u32
    }

    fn starts(&self) -> &[u32] {
        self.starts
    }

    fn place(&self, _n: u32, _k: u32) -> Option<Place> {
        None
    }

    fn dependant(&self, _n: u32, _k: u32) -> Option<u32> {
        None
    }

    fn rule<L: Ledger>(&self, _n: u32, _got: &[Span], steps: &mut Steps<L>) -> Span {
        steps.tick();
        NOTHING
    }

    ghost forms = { λ g is. apart-forms g.starts.now is };

    ghost worked = { λ g is. apart-worked g.starts.now is };
}
