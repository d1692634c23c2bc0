//! The balance sheet with what is kept beside its rows, so that no record looks at all of them.
ghost use Rattle.std.specs.Prelude.{◌≡◌, IfOk};
ghost use Rattle.scr_sheet.specs.BalanceSheet.{opening, held_of, held_total, liability_flows_total, volumes_total, defaults_total, components_total};
ghost use Rattle.scr_sheet.specs.Validity.{Valid};

use crate::sums::{Sums, place_of};
use crate::{BalanceSheet, Name, Projection};
use scr_counters::DayTally;
use scr_fund_graph::FundGraph;
use scr_profile::Set;
use std::alloc::{AllocError as NoMemory, Global};
use std::marker::Model;

/// A balance sheet with the sums that limits test, the last days of its payments and the graph of its funds. Contracts see
/// the sheet, which is valid at all times.
#[derive(Drop)]
pub(crate) struct Ledger {
    pub(crate) sheet: BalanceSheet,
    pub(crate) sums: Sums,
    /// The last days of all lists of payments.
    pub(crate) days: DayTally,
    pub(crate) graph: FundGraph,
    /// The graph is another's, and has to be made anew before it is used.
    pub(crate) is_graph_due: bool,
}

impl Model for Ledger {
    ghost use Rattle.scr_sheet.specs.declared.sheet.BalanceSheet.{BalanceSheet};

    ghost Value = { BalanceSheet };

    ghost use Rattle.scr_book.specs.Kept.{IsKept};

    ghost view = { λ ledger. ledger.sheet };

    ghost invariant = { IsKept };
}

impl Ledger {
    /// The opening sheet.
    pub(crate) fn new(alloc: Global) -> Result<Ledger, NoMemory>
        ensures { IfOk result (λ ledger. ledger ≡ opening) }
    {
        let graph = FundGraph::new(alloc)?;
        let days = DayTally::new(alloc)?;
        Ok(Ledger {
            sheet: BalanceSheet::opening(alloc)?,
            sums: Sums {
                held: 0,
                liability_flows: [0; 10],
                nl: 0,
                nslt: 0,
                defaults: 0,
                components: 0,
            },
            days,
            graph,
            is_graph_due: false,
        })
    }

    /// The tables and the numbers.
    pub(crate) fn sheet(&self) -> &BalanceSheet
        ensures sheet { result.now ≡ self.now }
        ensures valid { Valid self.now }
    {
        &self.sheet
    }

    /// The cents held directly of the security or the fund of this name, 0 where nothing is held.
    pub(crate) fn held(&self, name: &Name) -> u64
        ensures { result ≡ held_of self.now name.now }
    {
        self.sheet.security_hold(name) + self.sheet.fund_hold(name)
    }

    // All cents held directly.
    pub(crate) fn held_total(&self) -> u64
        ensures total { result ≡ held_total self.now }
        ensures valid { Valid self.now }
    {
        self.sums.held
    }

    // The absolute flows of all liabilities under a projection, in cents.
    pub(crate) fn liability_flows_total(&self, projection: Projection) -> u64
        ensures total { result ≡ liability_flows_total projection self.now }
        ensures valid { Valid self.now }
    {
        self.sums.liability_flows[place_of(projection)]
    }

    // The premium and reserve volumes of a set, in cents.
    pub(crate) fn volumes_total(&self, set: Set) -> u64
        ensures total { result ≡ volumes_total set self.now }
        ensures valid { Valid self.now }
    {
        match set {
            Set::Nl => self.sums.nl,
            Set::Nslt => self.sums.nslt,
        }
    }

    // The components of all funds, counted.
    pub(crate) fn components_total(&self) -> u64
        ensures total { result ≡ components_total self.now }
        ensures valid { Valid self.now }
    {
        self.sums.components
    }

    // The exposures to banks and reinsurers, in cents.
    pub(crate) fn defaults_total(&self) -> u64
        ensures total { result ≡ defaults_total self.now }
        ensures valid { Valid self.now }
    {
        self.sums.defaults
    }
}
