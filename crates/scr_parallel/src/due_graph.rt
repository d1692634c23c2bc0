//! What is due as the graph of a board.

use crate::plan::Plan;
use scr_board::{Graph, Place};
use scr_io::Steps;
use scr_num::Span;
use scr_reachability::Due;
use scr_subgraph::{Round, Slot};
use std::sync::ledger::Ledger;

/// The round of what is due, and how its figures are found.
#[derive(Drop)]
pub(crate) struct DueGraph<'a, P> {
    pub(crate) plan: &'a P,
    pub(crate) dues: &'a [Due],
    pub(crate) round: &'a Round,
}

impl<'a, P: Plan> Graph for DueGraph<'a, P> {
    ghost use Rattle.scr_reachability.specs.Levels.{number_at};
    ghost use Rattle.scr_parallel.specs.DueForming.{round-forms, round-worked};
    ghost use Rattle.scr_parallel.specs.Workable.{IsGraphOf, round_for};

    ghost round = { λ g. round_for (P.worked g.plan.now) g.dues.now g.round.now };

    ghost rule_of = { λ g n got. P.worked g.plan.now (number_at g.dues.now n) };

    ghost is_graph = { λ g. IsGraphOf (P.is_known g.plan.now) (P.is_due g.plan.now) g.dues.now g.round.now };

    fn nodes(&self) -> u32 {
        self.dues.len() as u32
    }

    fn starts(&self) -> &[u32] {
        self.round.starts()
    }

    fn place(&self, n: u32, k: u32) -> Option<Place> {
        match self.round.slot(n, k)? {
            Slot::Kept(number) => Some(Place::Fixed(self.plan.known(number))),
            Slot::Due(m) => Some(Place::Node(m)),
        }
    }

    fn dependant(&self, n: u32, k: u32) -> Option<u32> {
        self.round.dependant(n, k)
    }

    fn rule<L: Ledger>(&self, n: u32, got: &[Span], steps: &mut Steps<L>) -> Span {
        self.plan.rule(&self.dues[n as usize], got, steps)
    }

    ghost forms = { λ g is. round-forms (P.worked g.plan.now) (P.is_known g.plan.now) (P.is_due g.plan.now) g.dues.now g.round.now is };

    ghost worked = { λ g is. round-worked (P.worked g.plan.now) (P.is_known g.plan.now) (P.is_due g.plan.now) g.dues.now g.round.now is };
}
