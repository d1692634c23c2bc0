//! What a record without a fault makes of the ledger. All memory is taken before the first change, and each sum moves by
//! what goes out and what comes in. Each kind of record stands apart from the others, so that none pays for their frames.
ghost use Rattle.std.specs.Prelude.{◌≡◌, ◌+◌, None, true, IsOk, OnOk, OnErr};
ghost use Rattle.std.specs.Option.{option_map_or};
ghost use Rattle.scr_sheet.specs.BalanceSheet.{curve_name, position_name, stake_name, held_of};
ghost use Rattle.scr_sheet.specs.CashFlows.{total};
ghost use Rattle.scr_sheet.specs.Faults.{fault_of};
ghost use Rattle.scr_sheet.specs.Forms.{Formed};
ghost use Rattle.scr_sheet.specs.Records.{applied};
ghost use Rattle.scr_sheet.specs.Validity.{Valid};
ghost use Rattle.scr_tables.specs.Tables.{row_of, changed};
ghost use Rattle.scr_book.specs.Verbs.{is_of_numbers, takes_no_memory, hands_in_payments};

use crate::days::take_projected;
use crate::due::refresh;
use crate::ledger::Ledger;
use crate::{
    AbsorbKey, BalanceSheet, Bank, Class, Components, Curve, Edit, Flows, Fund, Group, GroupKind,
    Liability, LiabilityFlows, LiabilityKind, Name, Position, Projection, Rates, Rein, Security,
    Stake, Table,
};
use scr_profile::Set;
use scr_sheet::{PROJECTIONS, natural};
use std::alloc::{AllocError as NoMemory, Global};

// The record hands in payments, of a security or of a liability.
pub(crate) fn hands_in_payments(edit: &Edit) -> bool
    ensures { result ≡ hands_in_payments edit.now }
{
    matches!(edit, Edit::Flows { .. } | Edit::LiabilityFlows { .. })
}

// Puts what is held of the security of this name, or else of the fund, and answers what was held of it.
fn exchange_held(sheet: &mut BalanceSheet, name: &Name, held: u64) -> u64
    requires { Valid sheet.old }
    ensures was { result ≡ held_of sheet.old name.now }
    ensures is { sheet.new ≡ record sheet.old {
      securities = changed position_name (λ p. record p { held = held }) name.now sheet.old.securities;
      funds = changed stake_name (λ s. record s { held = held }) name.now sheet.old.funds;
    } }
{
    let Some(position) = sheet.securities.get(name) else {
        let before = sheet.fund_hold(name);
        sheet.funds.change(name, |stake| stake.held = held);
        return before;
    };
    let before = position.held;
    sheet
        .securities
        .change(name, |position| position.held = held);
    before
}

impl Ledger {
    // Applies a record that has no fault. Where memory is refused the ledger is as before; one that takes none is not refused.
    pub(crate) fn put(
        &mut self,
        alloc: Global,
        edit: &Edit,
        numbers: &[u32],
    ) -> Result<(), NoMemory>
        requires formed { Formed edit.now }
        requires no_fault { fault_of edit.now self.old ≡ None }
        ensures ok { OnOk result (self.new ≡ applied edit.now self.old) }
        ensures err { OnErr result (self.new ≡ self.old) }
        ensures in_place { takes_no_memory edit.now ≡ true → IsOk result }
    {
        match edit {
            Edit::Curve { currency, rates } => self.put_curve(alloc, currency, rates),
            Edit::Group { name, kind, step } => self.put_group(alloc, name, *kind, *step),
            Edit::Security {
                name,
                class,
                group,
                currency,
                duration,
            } => self.put_security(alloc, name, *class, *group, currency, *duration),
            Edit::Flows { security, flows } => self.put_promise(alloc, security, flows),
            Edit::Fund { name, components } => self.put_fund(alloc, name, components, numbers),
            Edit::Liability {
                name,
                kind,
                currency,
            } => self.put_liability(alloc, name, *kind, currency),
            Edit::LiabilityFlows {
                liability,
                projection,
                flows,
            } => self.put_liability_flows(alloc, liability, *projection, flows),
            Edit::Rein {
                name,
                group,
                recoverables,
                mitigation,
                collateral,
            } => self.put_rein(alloc, name, group, *recoverables, *mitigation, *collateral),
            Edit::Bank { name, group, cents } => self.put_bank(alloc, name, group, *cents),
            _ => {
                self.put_in_place(edit);
                Ok(())
            }
        }
    }

    #[inline(never)]
    fn put_in_place(&mut self, edit: &Edit)
        requires in_place { takes_no_memory edit.now ≡ true }
        requires formed { Formed edit.now }
        requires no_fault { fault_of edit.now self.old ≡ None }
        ensures { self.new ≡ applied edit.now self.old }
    {
        match edit {
            Edit::Hold { name, cents } => self.put_held(name, *cents),
            Edit::Absorb { key, cents } => self.put_absorb(*key, *cents),
            Edit::Segment {
                set,
                number,
                region,
                premium,
                reserve,
            } => self.put_segment(*set, *number, *region, *premium, *reserve),
            Edit::Remove { table, name } => self.remove(*table, name),
            _ => self.put_numbers(edit),
        }
    }

    #[inline(never)]
    fn put_numbers(&mut self, edit: &Edit)
        requires numbers { is_of_numbers edit.now ≡ true }
        requires formed { Formed edit.now }
        requires no_fault { fault_of edit.now self.old ≡ None }
        ensures { self.new ≡ applied edit.now self.old }
    {
        self.sheet.numbers.put(edit);
    }

    #[inline(never)]
    fn put_curve(&mut self, alloc: Global, currency: &Name, rates: &Rates) -> Result<(), NoMemory>
        requires formed { Formed (Edit.Curve currency.now rates.now) }
        requires no_fault { fault_of (Edit.Curve currency.now rates.now) self.old ≡ None }
        ensures ok { OnOk result (self.new ≡ applied (Edit.Curve currency.now rates.now) self.old) }
        ensures err { OnErr result (self.new ≡ self.old) }
    {
        let rates = rates.copy(alloc)?;
        let (absorb_up, absorb_down) = self.absorptions(currency);
        self.sheet.curves.put(
            alloc,
            Curve {
                currency: *currency,
                rates,
                absorb_up,
                absorb_down,
            },
        )?;
        Ok(())
    }

    #[inline(never)]
    fn put_group(
        &mut self,
        alloc: Global,
        name: &Name,
        kind: GroupKind,
        step: Option<u8>,
    ) -> Result<(), NoMemory>
        requires formed { Formed (Edit.Group name.now kind step) }
        requires no_fault { fault_of (Edit.Group name.now kind step) self.old ≡ None }
        ensures ok { OnOk result (self.new ≡ applied (Edit.Group name.now kind step) self.old) }
        ensures err { OnErr result (self.new ≡ self.old) }
    {
        self.sheet.groups.put(
            alloc,
            Group {
                name: *name,
                kind,
                step,
            },
        )?;
        Ok(())
    }

    #[inline(never)]
    fn put_security(
        &mut self,
        alloc: Global,
        name: &Name,
        class: Class,
        group: Option<Name>,
        currency: &Name,
        duration: i64,
    ) -> Result<(), NoMemory>
        requires formed { Formed (Edit.Security name.now class group currency.now duration) }
        requires no_fault { fault_of (Edit.Security name.now class group currency.now duration) self.old ≡ None }
        ensures ok { OnOk result (
            self.new ≡ applied (Edit.Security name.now class group currency.now duration) self.old) }
        ensures err { OnErr result (self.new ≡ self.old) }
    {
        let duration = natural(duration) as u32;
        let currency = *currency;
        if self.sheet.securities.contains(name) {
            self.sheet.securities.change(name, |position| {
                position.security.class = class;
                position.security.group = group;
                position.security.currency = currency;
                position.security.duration = duration;
            });
            return Ok(());
        }
        let security = Security {
            name: *name,
            class,
            group,
            currency,
            duration,
            flows: Flows::new(Vec::new(alloc)),
        };
        self.sheet
            .securities
            .put(alloc, Position { security, held: 0 })?;
        Ok(())
    }

    #[inline(never)]
    fn put_promise(&mut self, alloc: Global, name: &Name, flows: &Flows) -> Result<(), NoMemory>
        requires formed { Formed (Edit.Flows name.now flows.now) }
        requires no_fault { fault_of (Edit.Flows name.now flows.now) self.old ≡ None }
        ensures ok { OnOk result (self.new ≡ applied (Edit.Flows name.now flows.now) self.old) }
        ensures err { OnErr result (self.new ≡ self.old) }
    {
        let promised = flows.copy(alloc)?;
        self.keep_promise(name, promised);
        Ok(())
    }

    // Applies a record of payments that has no fault, and keeps them.
    pub(crate) fn keep_payments(&mut self, edit: Edit)
        requires payments { hands_in_payments edit ≡ true }
        requires formed { Formed edit }
        requires no_fault { fault_of edit self.old ≡ None }
        ensures { self.new ≡ applied edit self.old }
    {
        match edit {
            Edit::Flows { security, flows } => self.keep_promise(&security, flows),
            Edit::LiabilityFlows {
                liability,
                projection,
                flows,
            } => self.keep_projected(&liability, projection, flows),
            _ => {}
        }
    }

    // These payments take the place of those that the security promised.
    fn keep_promise(&mut self, name: &Name, flows: Flows)
        requires formed { Formed (Edit.Flows name.now flows) }
        requires no_fault { fault_of (Edit.Flows name.now flows) self.old ≡ None }
        ensures { self.new ≡ applied (Edit.Flows name.now flows) self.old }
    {
        let old = self.last_promised(name);
        self.days.take(old);
        self.days.add(flows.last_day());
        self.sheet
            .securities
            .change(name, |position| position.security.flows = flows);
    }

    #[inline(never)]
    fn put_fund(
        &mut self,
        alloc: Global,
        name: &Name,
        components: &Components,
        numbers: &[u32],
    ) -> Result<(), NoMemory>
        requires formed { Formed (Edit.Fund name.now components.now) }
        requires no_fault { fault_of (Edit.Fund name.now components.now) self.old ≡ None }
        ensures ok { OnOk result (self.new ≡ applied (Edit.Fund name.now components.now) self.old) }
        ensures err { OnErr result (self.new ≡ self.old) }
    {
        let components = components.copy(alloc)?;
        let new = components.as_slice().len() as u64;
        let old = self.component_count(name);
        let held = self.sheet.fund_hold(name);
        refresh(&mut self.graph, self.is_graph_due, alloc, &self.sheet)?;
        self.graph.put(alloc, name, components.as_slice(), numbers)?;
        let fund = Fund {
            name: *name,
            components,
        };
        let Ok(()) = self.sheet.funds.put(alloc, Stake { fund, held }) else {
            self.graph.clear(name);
            return Err(NoMemory);
        };
        self.sums.components = self.sums.components - old + new;
        self.is_graph_due = false;
        Ok(())
    }

    fn put_held(&mut self, name: &Name, cents: i64)
        requires formed { Formed (Edit.Hold name.now cents) }
        requires no_fault { fault_of (Edit.Hold name.now cents) self.old ≡ None }
        ensures { self.new ≡ applied (Edit.Hold name.now cents) self.old }
    {
        let new = natural(cents);
        let old = exchange_held(&mut self.sheet, name, new);
        self.sums.held = self.sums.held - old + new;
    }

    #[inline(never)]
    fn put_liability(
        &mut self,
        alloc: Global,
        name: &Name,
        kind: LiabilityKind,
        currency: &Name,
    ) -> Result<(), NoMemory>
        requires formed { Formed (Edit.Liability name.now kind currency.now) }
        requires no_fault { fault_of (Edit.Liability name.now kind currency.now) self.old ≡ None }
        ensures ok { OnOk result (self.new ≡ applied (Edit.Liability name.now kind currency.now) self.old) }
        ensures err { OnErr result (self.new ≡ self.old) }
    {
        let currency = *currency;
        if self.sheet.liabilities.contains(name) {
            self.sheet.liabilities.change(name, |liability| {
                liability.kind = kind;
                liability.currency = currency;
            });
            return Ok(());
        }
        self.sheet.liabilities.put(
            alloc,
            Liability {
                name: *name,
                kind,
                currency,
                flows: LiabilityFlows::none(alloc),
            },
        )?;
        Ok(())
    }

    #[inline(never)]
    fn put_liability_flows(
        &mut self,
        alloc: Global,
        name: &Name,
        projection: Projection,
        flows: &Flows,
    ) -> Result<(), NoMemory>
        requires formed { Formed (Edit.LiabilityFlows name.now projection flows.now) }
        requires no_fault { fault_of (Edit.LiabilityFlows name.now projection flows.now) self.old ≡ None }
        ensures ok { OnOk result (
            self.new ≡ applied (Edit.LiabilityFlows name.now projection flows.now) self.old) }
        ensures err { OnErr result (self.new ≡ self.old) }
    {
        let projected = flows.copy(alloc)?;
        self.keep_projected(name, projection, projected);
        Ok(())
    }

    // These flows take the place of those that the liability had under the projection.
    fn keep_projected(&mut self, name: &Name, projection: Projection, flows: Flows)
        requires formed { Formed (Edit.LiabilityFlows name.now projection flows) }
        requires no_fault { fault_of (Edit.LiabilityFlows name.now projection flows) self.old ≡ None }
        ensures { self.new ≡ applied (Edit.LiabilityFlows name.now projection flows) self.old }
    {
        let old = self.liability_total(name, projection);
        let new = flows.total() as u64;
        let last = self.last_projected(name, projection);
        self.days.take(last);
        self.days.add(flows.last_day());
        self.sheet
            .liabilities
            .change(name, |liability| liability.flows.put(projection, flows));
        self.sums.exchange_liability_flows(projection, old, new);
    }

    #[inline(never)]
    fn put_absorb(&mut self, key: AbsorbKey, cents: i64)
        requires formed { Formed (Edit.Absorb key cents) }
        requires no_fault { fault_of (Edit.Absorb key cents) self.old ≡ None }
        ensures { self.new ≡ applied (Edit.Absorb key cents) self.old }
    {
        let cents = natural(cents);
        match key {
            AbsorbKey::CurrencyUp(currency) => self
                .sheet
                .curves
                .change(&currency, |curve| curve.absorb_up = cents),
            AbsorbKey::CurrencyDown(currency) => self
                .sheet
                .curves
                .change(&currency, |curve| curve.absorb_down = cents),
            _ => self.sheet.numbers.put_absorb(key, cents),
        }
    }

    #[inline(never)]
    fn put_segment(&mut self, set: Set, number: u8, region: u8, premium: i64, reserve: i64)
        requires formed { Formed (Edit.Segment set number region premium reserve) }
        requires no_fault { fault_of (Edit.Segment set number region premium reserve) self.old ≡ None }
        ensures { self.new ≡ applied (Edit.Segment set number region premium reserve) self.old }
    {
        let old = self.sheet.numbers.volumes(set, number, region);
        let new = (natural(premium), natural(reserve));
        self.sheet.numbers.put_volumes(set, number, region, new);
        self.sums
            .exchange_volumes(set, old.0 + old.1, new.0 + new.1);
    }

    #[inline(never)]
    fn put_rein(
        &mut self,
        alloc: Global,
        name: &Name,
        group: &Name,
        recoverables: i64,
        mitigation: i64,
        collateral: i64,
    ) -> Result<(), NoMemory>
        requires formed { Formed (Edit.Rein name.now group.now recoverables mitigation collateral) }
        requires no_fault { fault_of (Edit.Rein name.now group.now recoverables mitigation collateral) self.old ≡ None }
        ensures ok { OnOk result (
            self.new ≡ applied (Edit.Rein name.now group.now recoverables mitigation collateral) self.old) }
        ensures err { OnErr result (self.new ≡ self.old) }
    {
        let recoverables = natural(recoverables);
        let mitigation = natural(mitigation);
        let old = self.rein_total(name);
        self.sheet.reinsurers.put(
            alloc,
            Rein {
                name: *name,
                group: *group,
                recoverables,
                mitigation,
                collateral: natural(collateral),
            },
        )?;
        self.sums.defaults = self.sums.defaults - old + recoverables + mitigation;
        Ok(())
    }

    #[inline(never)]
    fn put_bank(
        &mut self,
        alloc: Global,
        name: &Name,
        group: &Name,
        cents: i64,
    ) -> Result<(), NoMemory>
        requires formed { Formed (Edit.Bank name.now group.now cents) }
        requires no_fault { fault_of (Edit.Bank name.now group.now cents) self.old ≡ None }
        ensures ok { OnOk result (self.new ≡ applied (Edit.Bank name.now group.now cents) self.old) }
        ensures err { OnErr result (self.new ≡ self.old) }
    {
        let cents = natural(cents);
        let old = self.bank_total(name);
        self.sheet.banks.put(
            alloc,
            Bank {
                name: *name,
                group: *group,
                cents,
            },
        )?;
        self.sums.defaults = self.sums.defaults - old + cents;
        Ok(())
    }

    #[inline(never)]
    fn remove(&mut self, table: Table, name: &Name)
        requires formed { Formed (Edit.Remove table name.now) }
        requires no_fault { fault_of (Edit.Remove table name.now) self.old ≡ None }
        ensures { self.new ≡ applied (Edit.Remove table name.now) self.old }
    {
        match table {
            Table::Group => self.sheet.groups.remove(name),
            Table::Security => self.remove_security(name),
            Table::Fund => self.remove_fund(name),
            Table::Liability => self.remove_liability(name),
            Table::Bank => self.remove_bank(name),
            Table::Rein => self.remove_rein(name),
            Table::Curve => self.sheet.curves.remove(name),
        }
    }

    fn remove_security(&mut self, name: &Name)
        requires formed { Formed (Edit.Remove Table.Security name.now) }
        requires no_fault { fault_of (Edit.Remove Table.Security name.now) self.old ≡ None }
        ensures { self.new ≡ applied (Edit.Remove Table.Security name.now) self.old }
    {
        let old = self.last_promised(name);
        self.days.take(old);
        self.sheet.securities.remove(name);
    }

    fn remove_fund(&mut self, name: &Name)
        requires formed { Formed (Edit.Remove Table.Fund name.now) }
        requires no_fault { fault_of (Edit.Remove Table.Fund name.now) self.old ≡ None }
        ensures { self.new ≡ applied (Edit.Remove Table.Fund name.now) self.old }
    {
        let old = self.component_count(name);
        self.graph.clear(name);
        self.sheet.funds.remove(name);
        self.sums.components -= old;
    }

    fn remove_liability(&mut self, name: &Name)
        requires formed { Formed (Edit.Remove Table.Liability name.now) }
        requires no_fault { fault_of (Edit.Remove Table.Liability name.now) self.old ≡ None }
        ensures { self.new ≡ applied (Edit.Remove Table.Liability name.now) self.old }
    {
        let Some(liability) = self.sheet.liabilities.get(name) else {
            return;
        };
        self.sums.take_liability(&liability.flows);
        take_projected(&mut self.days, &liability.flows, &PROJECTIONS);
        self.sheet.liabilities.remove(name);
    }

    fn remove_bank(&mut self, name: &Name)
        requires formed { Formed (Edit.Remove Table.Bank name.now) }
        requires no_fault { fault_of (Edit.Remove Table.Bank name.now) self.old ≡ None }
        ensures { self.new ≡ applied (Edit.Remove Table.Bank name.now) self.old }
    {
        let old = self.bank_total(name);
        self.sheet.banks.remove(name);
        self.sums.defaults -= old;
    }

    fn remove_rein(&mut self, name: &Name)
        requires formed { Formed (Edit.Remove Table.Rein name.now) }
        requires no_fault { fault_of (Edit.Remove Table.Rein name.now) self.old ≡ None }
        ensures { self.new ≡ applied (Edit.Remove Table.Rein name.now) self.old }
    {
        let old = self.rein_total(name);
        self.sheet.reinsurers.remove(name);
        self.sums.defaults -= old;
    }

    // The absorptions of a currency, 0 where it has no curve yet.
    pub(crate) fn absorptions(&self, currency: &Name) -> (u64, u64)
        ensures up { result.0
            ≡ option_map_or (λ c. c.absorb_up) (row_of curve_name currency.now self.now.curves) 0 }
        ensures down { result.1
            ≡ option_map_or (λ c. c.absorb_down) (row_of curve_name currency.now self.now.curves) 0 }
    {
        match self.sheet().curves.get(currency) {
            Some(curve) => (curve.absorb_up, curve.absorb_down),
            None => (0, 0),
        }
    }
}
