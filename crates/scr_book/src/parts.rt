//! What the row of a name is of a sum or a count that the ledger keeps.
ghost use Rattle.std.specs.Prelude.{◌≡◌, ℤ, [], ◌+◌, ◌≤◌, length};
ghost use Rattle.std.specs.Option.{option_map_or};
ghost use Rattle.scr_tables.specs.Tables.{row_of};
ghost use Rattle.scr_counters.specs.Days.{ends_on, IsDayOrNone};
ghost use Rattle.scr_sheet.specs.CashFlows.{total, last_day, flows_under};
ghost use Rattle.scr_sheet.specs.Records.{kept_flows};
ghost use Rattle.scr_book.specs.LastDays.{lists_ending};
ghost use Rattle.scr_sheet.specs.BalanceSheet.{stake_name, liability_name, bank_name, rein_name, liability_flows_total, defaults_total, components_total};

use crate::ledger::Ledger;
use crate::recent::recent_row;
use crate::{Name, Projection};
use scr_dates::Day;

impl Ledger {
    // The last day of the payments of the security of this name, none where it pays nothing or is not there.
    pub(crate) fn last_promised(&self, name: &Name) -> Option<Day>
        ensures value { result ≡ last_day (kept_flows name.now self.now.securities) }
        ensures on_day { IsDayOrNone result }
        ensures part { (day : ℤ) → ends_on day result ≤ lists_ending day self.now }
    {
        match recent_row(&self.sheet().securities, name) {
            Some(position) => position.security.flows.last_day(),
            None => None,
        }
    }

    // The last day of the payments of the liability of this name under the projection.
    pub(crate) fn last_projected(&self, name: &Name, projection: Projection) -> Option<Day>
        ensures value { result
            ≡ last_day (option_map_or (λ l. flows_under projection l.flows)
            (row_of liability_name name.now self.now.liabilities) []) }
        ensures on_day { IsDayOrNone result }
        ensures part { (day : ℤ) → ends_on day result ≤ lists_ending day self.now }
    {
        match recent_row(&self.sheet().liabilities, name) {
            Some(liability) => liability.flows.under(projection).last_day(),
            None => None,
        }
    }

    // The number of components of the fund of this name, 0 where there is none.
    pub(crate) fn component_count(&self, name: &Name) -> u64
        ensures value { result
            ≡ option_map_or (λ s. length s.fund.components) (row_of stake_name name.now self.now.funds) 0 }
        ensures part { result ≤ components_total self.now }
    {
        match self.sheet().funds.get(name) {
            Some(stake) => stake.fund.components.as_slice().len() as u64,
            None => 0,
        }
    }

    // What the liability of this name pays and receives under the projection, 0 where there is none.
    pub(crate) fn liability_total(&self, name: &Name, projection: Projection) -> u64
        ensures value { result
            ≡ option_map_or (λ l. total (flows_under projection l.flows))
            (row_of liability_name name.now self.now.liabilities) 0 }
        ensures part { result ≤ liability_flows_total projection self.now }
    {
        match recent_row(&self.sheet().liabilities, name) {
            Some(liability) => liability.flows.under(projection).total() as u64,
            None => 0,
        }
    }

    // What the bank of this name holds, 0 where there is none.
    pub(crate) fn bank_total(&self, name: &Name) -> u64
        ensures value { result ≡ option_map_or (λ b. b.cents) (row_of bank_name name.now self.now.banks) 0 }
        ensures part { result ≤ defaults_total self.now }
    {
        match self.sheet().banks.get(name) {
            Some(bank) => bank.cents,
            None => 0,
        }
    }

    // The recoverables and the risk-mitigating effect of the reinsurer of this name, 0 where there is none.
    pub(crate) fn rein_total(&self, name: &Name) -> u64
        ensures value { result
            ≡ option_map_or (λ r. r.recoverables + r.mitigation)
            (row_of rein_name name.now self.now.reinsurers) 0 }
        ensures part { result ≤ defaults_total self.now }
    {
        match self.sheet().reinsurers.get(name) {
            Some(rein) => rein.recoverables + rein.mitigation,
            None => 0,
        }
    }
}
