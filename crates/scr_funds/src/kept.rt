//! Edges that were taken off.
ghost use Rattle.std.specs.Prelude.{◌≡◌};

use std::marker::Model;

/// The edges of one fund, as `FundOrder::remove` hands them out. Contracts see the fund and the
/// list of its components.
#[derive(Drop)]
pub struct Kept {
    pub(crate) from: u32,
    pub(crate) edges: Vec<u32>,
}

impl Model for Kept {
    ghost use Rattle.scr_funds.specs.KeptEdges.{KeptEdges};

    ghost Value = { KeptEdges };

    ghost view = { λ kept. record { from = kept.from; edges = kept.edges.items } };
}

impl Kept {
    /// These edges of a fund.
    pub fn new(from: u32, edges: Vec<u32>) -> Kept
        ensures { result ≡ record { from = from; edges = edges.items } }
    {
        Kept { from, edges }
    }
}
