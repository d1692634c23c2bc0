//! The sums that a ledger keeps beside its rows.
ghost use Rattle.std.specs.Prelude.{◌≡◌, ◌<◌, ◌≤◌, ◌+◌, ◌-◌, ◌^◌};
ghost use Rattle.scr_sheet.specs.CashFlows.{total, flows_under};
ghost use Rattle.scr_book.specs.Sums.{place_of, flows_sum, with_flows_sum, without_liability, volumes_sum, with_volumes_sum};

use crate::{LiabilityFlows, Projection};
use scr_profile::Set;

/// All sums of a ledger, in cents.
#[derive(Clone, Copy)]
pub(crate) struct Sums {
    /// All that is held directly.
    pub(crate) held: u64,
    /// The absolute flows of all liabilities under each projection.
    pub(crate) liability_flows: [u64; 10],
    /// The volumes of non-life.
    pub(crate) nl: u64,
    /// The volumes of health that is not similar to life.
    pub(crate) nslt: u64,
    /// What banks hold, and the recoverables and risk-mitigating effects of reinsurers.
    pub(crate) defaults: u64,
    /// The components of all funds, counted.
    pub(crate) components: u64,
}

// The place of a projection among the sums of flows.
pub(crate) fn place_of(projection: Projection) -> usize
    ensures place { result ≡ place_of projection }
    ensures fits { result < 10 }
{
    match projection {
        Projection::Base => 0,
        Projection::Mortality => 1,
        Projection::Longevity => 2,
        Projection::Disability => 3,
        Projection::Expense => 4,
        Projection::Revision => 5,
        Projection::LapseUp => 6,
        Projection::LapseDown => 7,
        Projection::LapseMass => 8,
        Projection::Catastrophe => 9,
    }
}

impl Sums {
    // Under the projection, these flows go out and others come in.
    pub(crate) fn exchange_liability_flows(&mut self, projection: Projection, old: u64, new: u64)
        requires part { old ≤ flows_sum projection self.old }
        requires fits { flows_sum projection self.old - old + new < 2 ^ 64 }
        ensures { self.new ≡ with_flows_sum projection (flows_sum projection self.old - old + new) self.old }
    {
        let place = place_of(projection);
        self.liability_flows[place] = self.liability_flows[place] - old + new;
    }

    // In the set, these volumes go out and others come in.
    pub(crate) fn exchange_volumes(&mut self, set: Set, old: u64, new: u64)
        requires part { old ≤ volumes_sum set self.old }
        requires fits { volumes_sum set self.old - old + new < 2 ^ 64 }
        ensures { self.new ≡ with_volumes_sum set (volumes_sum set self.old - old + new) self.old }
    {
        match set {
            Set::Nl => self.nl = self.nl - old + new,
            Set::Nslt => self.nslt = self.nslt - old + new,
        }
    }

    // The flows of a liability go out under every projection.
    pub(crate) fn take_liability(&mut self, flows: &LiabilityFlows)
        requires part { (p : Projection) → total (flows_under p flows.now) ≤ flows_sum p self.old }
        ensures { self.new ≡ without_liability flows.now self.old }
    {
        self.liability_flows = [
            self.left(Projection::Base, flows),
            self.left(Projection::Mortality, flows),
            self.left(Projection::Longevity, flows),
            self.left(Projection::Disability, flows),
            self.left(Projection::Expense, flows),
            self.left(Projection::Revision, flows),
            self.left(Projection::LapseUp, flows),
            self.left(Projection::LapseDown, flows),
            self.left(Projection::LapseMass, flows),
            self.left(Projection::Catastrophe, flows),
        ];
    }

    // What is left under a projection without the flows of a liability.
    fn left(&self, projection: Projection, flows: &LiabilityFlows) -> u64
        requires part { total (flows_under projection flows.now) ≤ flows_sum projection self.now }
        ensures { result ≡ flows_sum projection self.now - total (flows_under projection flows.now) }
    {
        self.liability_flows[place_of(projection)] - flows.under(projection).total() as u64
    }
}
